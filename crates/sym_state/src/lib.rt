//! Symbolic runs: numbers and terms that stand for one run of the machine for each assignment of the input bytes that meets a
//! condition.
//!
//! - `value`: what registers hold, and what tests give
//! - `state`: a run, and what it holds
//! - `moves`: how it changes
//! - `operations`: values made of values
//! - `values`: the same, of a run's values
//! - `bytes`: bytes of memory as values, and values as bytes
//! - `indexing`, `ways`, `selecting`, `loading`: what is loaded from an address that is a term
//! - `scattering`, `storing`: what is stored to one
//! - `updates`, `recalling`: what was stored so of late, and loads that take it
//! - `code`: what stands where an instruction is fetched
//! - `lists`: what copies share, copied out
//! - `first`: the run of all assignments
//! - `program`: what is run
//! - `decided`, `known`: what is known of a decision, and of those of a step
//! - `ended`: how runs end
//! - `laws`: what holds of the terms of runs
#![tactic(auto)]

mod bytes;
mod code;
mod decided;
mod ended;
mod first;
mod indexing;
mod known;
pub mod laws;
mod lists;
mod loading;
mod moves;
mod operations;
mod program;
mod recalling;
mod scattering;
mod selecting;
mod state;
mod storing;
mod updates;
mod value;
mod values;
mod ways;

pub use code::Code;
pub use decided::Decided;
pub use ended::RunEnd;
pub use lists::listed;
pub use program::Program;
pub use selecting::bytes_of;
pub use state::State;
pub use storing::as_load;
pub use value::{Bit, Value};
