//! Replays: whether the run of a test's input on the machine is as the test says.
//!
//! `replay` runs and compares, `difference` says how a run differs.
#![tactic(auto)]

mod difference;
mod replays;

pub use difference::write_difference;
pub use replays::{Replayed, replay};
