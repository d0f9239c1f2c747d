//! What a pass knows.

use std::collections::LinkedList;

/// What a pass knows of the value behind its lock. No value of it is made.
pub struct Known<F, N, E> {
    /// What stays as it is from turn to turn.
    pub fixed: F,
    /// False once the pass was joined to another.
    pub live: bool,
    /// The number that the events of this pass bear.
    pub number: u64,
    /// The pass has taken the value, and not given it back yet.
    pub has_turn: bool,
    /// The nodes that it has seen.
    pub nodes: LinkedList<N>,
    /// The events that it has seen.
    pub events: LinkedList<E>,
    /// How many events the opening value had.
    pub opened: u64,
    /// The events that it gave, in their order.
    pub own: LinkedList<E>,
    /// The numbers of the passes that were joined to it, each with the events that it gave.
    pub ended: LinkedList<(u64, LinkedList<E>)>,
    /// At number 0, how many numbers were given.
    pub made: u64,
}
