//! Work on one symbolic run: it goes on until it forks, all its runs have ended, or its budget of steps is spent. One that forks
//! where there are as many nodes as there may be is cut instead.
//!
//! - `worker`: who works the runs of a program
//! - `asking`: a question about a run
//! - `branch`, `pin`: the two kinds of forks; `values`: the values that a pin finds
//! - `forked`: what a fork makes of a run
#![tactic(auto)]

mod asking;
mod branch;
mod forked;
mod pin;
mod values;
mod worker;

pub use query_front::Counts;
pub use worker::Worker;
