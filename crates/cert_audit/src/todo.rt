//! What a walk through a fork tree has still to come to.

use sym_state::State;
use tree_core::Choice;

/// A side of a fork of which the budget of conflicts leaves open whether it has an assignment.
pub struct Asked {
    /// The run with the side's term asserted last.
    pub run: State,
    /// The side.
    pub choice: Choice,
}

impl Drop for Asked {
    fn drop(self) {
        let Self {
            run: _run,
            choice: _choice,
        } = self;
    }
}

/// The side of a fork that has all values of a term but some.
pub struct Others {
    /// The run that parts.
    pub fork: State,
    pub term: usize,
    /// The values of the other sides, by increasing value.
    pub values: Vec<u32>,
    /// The run where the term has none of them.
    pub rest: State,
}

impl Drop for Others {
    fn drop(self) {
        let Self {
            fork: _fork,
            term: _term,
            values: _values,
            rest: _rest,
        } = self;
    }
}

/// What the walk comes to: a node of the tree, or a side of a fork that is cut.
#[derive(Drop)]
pub enum Todo {
    Node(State),
    Conflicts(Asked),
    Targets(Others),
}
