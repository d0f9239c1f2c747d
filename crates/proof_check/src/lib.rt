//! Checks of logs: that each clause follows by its hints, that each is fresh, and that the last is empty.
#![tactic(auto)]

mod checker;
mod checking;
mod filed;
mod freshness;
mod index;
mod marks;

pub use checker::Checker;
pub use checking::{check, ends_empty};
pub use freshness::fresh;
