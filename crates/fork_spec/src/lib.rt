//! What a report of a program claims: leaves, the assignments that they cover, that they are faithful and shown, how they part,
//! their ranks, and the walk of the events that made them.
//!
//! It has no code but laws, the end of a leaf, a value that was found, and what has a place. Its definitions stand in `specs/`: `Decisions` has what a run decides, `Leaves` what a leaf is, `Runs` what it says of its runs,
//! `Evidence` what shows a cut, `Partings` how two places of the fork tree differ, `Ranks` the order of leaves, `Walks` the
//! walk of written events, and `Histories` the leaves that a walk leads to.
#![tactic(auto)]

mod end;
mod found;
pub mod laws;
mod placed;

pub use end::LeafEnd;
pub use found::Found;
pub use placed::Placed;
