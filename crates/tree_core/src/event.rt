//! Events: what workers do to nodes.

use crate::choice::Choice;

/// What one worker does to one node.
///
/// `K` is what a split carries: its kids when it is asked for, and how many they were once it is noted.
#[derive(Debug, Drop)]
pub struct Event<R, K = Vec<Kid<R>>> {
    /// The worker's number.
    pub by: u32,
    /// The node's number.
    pub node: usize,
    pub deed: Deed<R, K>,
}

/// A `Claim` takes a free node. The other four end a claim: the node is parted into kids, becomes a leaf with this content
/// (finished or cut), or is free again.
#[derive(Debug, Drop)]
pub enum Deed<R, K = Vec<Kid<R>>> {
    Claim,
    Split(K),
    Finish(R),
    Cut(R),
    Release,
}

/// A node to be born by a split, free or as a leaf.
#[derive(Debug, Drop)]
pub struct Kid<R> {
    pub choice: Choice,
    pub content: R,
    pub is_leaf: bool,
}

/// An event as it is noted. The contents of a split's kids go with the nodes that they become, which are the next ones in
/// their order, so their number is all that is kept here. A leaf's content stays in the event that made it: so nodes never
/// change, and whoever has seen some of the nodes and events knows them for good.
pub type Noted<R> = Event<R, usize>;
