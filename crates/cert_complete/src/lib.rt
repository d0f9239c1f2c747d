//! Certificates that lack lines, as a report leaves them: it doesn't say where a run goes on one way only, nor what shows that, nor
//! that the values of a split are all. A walk along the lines that are there finds those that lack; a solver that is passed in finds
//! what shows them. Nobody has to trust what is made here: an audit says what a completed certificate is worth.
//!
//! - `completing`: the walk
//! - `puts`: the lines that are to be put
//! - `gaps`: what lacks at a fork
//! - `left_out`: the runs that a fork's line leaves out
//! - `ahead`: the assignments that lines ahead give
//! - `worth`: what a fork's term is worth on assignments of its run
//! - `proving`: proofs, and their lines
//! - `solving`: what answers questions
#![tactic(auto)]

mod ahead;
mod completing;
mod gaps;
mod left_out;
mod proving;
mod puts;
mod solving;
mod worth;

pub use completing::complete;
pub use puts::{Completed, Put, Unrefuted};
pub use solving::{Solved, Solver};
