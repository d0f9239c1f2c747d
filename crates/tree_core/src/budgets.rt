//! What an exploration may spend, and in which order.

use crate::order::Order;

/// What the exploration of a program may spend: in a job of words, each number from 1 to the most of its limit. And the order in
/// which it takes up what is left to do.
#[derive(Clone, Copy, Debug, PartialEq, Eq)]
pub struct Budgets {
    /// The most steps of a run; one that hasn't ended by then is cut.
    pub steps: u32,
    /// The most values that are found for a term that has to be a number; the rest is cut.
    pub targets: u32,
    /// The most clauses that are derived in the search for an answer; the question is then left open.
    pub conflicts: u32,
    /// The nodes of the tree from which on no node is parted; what would be is cut. The last split may pass it by its kids.
    pub nodes: u32,
    /// Which free node is claimed next.
    pub order: Order,
}
