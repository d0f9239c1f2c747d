//! The leaves of runs: of those that end or go on no more, and of those that are cut at a fork.
//!
//! - `leaf`: the terms of a leaf, and the leaf
//! - `ends`: of a run that has ended, that has spent its steps, or that may not part
//! - `cut`: of a side of a fork for which the budget of targets or of conflicts was spent
#![tactic(auto)]

mod cut;
mod ends;
mod leaf;

pub use cut::{cut_conflicts, cut_targets};
pub use ends::{cut_nodes, cut_steps, finish};
pub use leaf::sample_of;
