//! Which free node is claimed next, in time that is logarithmic in how many nodes there are.
//!
//! - `claimable`: a node as an order sees it
//! - `sum`: what is known of several nodes together
//! - `entries`: sums of sums, as a segment tree
//! - `searching`: the ways from the root of the segment tree to the node that an order names
//! - `nodes`: the nodes by number
//! - `laws`: what follows from the definition of the orders
#![tactic(auto)]

mod claimable;
mod entries;
pub mod laws;
mod nodes;
mod searching;
mod sum;

pub use nodes::FreeNodes;
