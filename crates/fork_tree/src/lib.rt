//! The fork tree: nodes that hold states or leaves, under the claim protocol of `tree_core`, and the loop of one worker that works it.
#![tactic(auto)]

mod content;
mod draining;
pub mod laws;
mod tree;
mod work;

pub use content::Content;
pub use draining::drain;
pub use tree::{Claim, Tree};
pub use work::{Parts, Work};
