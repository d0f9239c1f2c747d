//! A leaf in full, with what shows it: what a run becomes, and what a report is made of.
#![tactic(auto)]

mod evidence;
mod leaf_part;

pub use evidence::{Evidence, Learnt, Spent};
pub use leaf_part::LeafPart;
