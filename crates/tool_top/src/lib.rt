//! The top call of the tool: it explores a program by its words, and puts and says what it found.
#![tactic(auto)]

mod auditing;
mod benching;
mod carry;
mod exploring;
mod plan;
mod reading;
mod refusals;
mod replaying;
mod run;
mod upgrading;
mod verdict;

pub use run::run_tool;
