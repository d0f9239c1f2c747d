//! The words of rvklee's command line, and the job that they ask for.
#![tactic(auto)]

mod command;
mod job;
pub mod laws;
mod limit;
mod order;
mod region;
mod words;

pub use job::{Exploration, Job, WordsError};
pub use limit::{CONFLICTS, Limit, NODES, NUMBERS, STEPS, TARGETS, WORKERS};
pub use order::ORDER;
pub use words::read_words;
