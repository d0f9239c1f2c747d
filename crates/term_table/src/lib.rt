//! The terms of a symbolic run, in a table that copies share.
#![tactic(auto)]

mod entry;
mod table;
mod values;

pub use table::Terms;
