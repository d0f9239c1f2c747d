//! Programs by number, of which number k reads k input bytes and has 2^k paths: for measurements of the tool.
#![tactic(auto)]

mod generated;
pub mod laws;
mod words;

pub use generated::{Generated, generate};
