//! What shows the budget that was spent on a leaf.

use bv_dag::Query;
use cnf_form::Log;
use fork_spec::Found;
use std::marker::Model;

/// The values on which the budget of targets was spent, by increasing value.
#[derive(Debug)]
pub struct Spent {
    /// The term that takes them.
    pub term: usize,
    pub found: Vec<Found>,
}

impl Drop for Spent {
    fn drop(self) {
        let Self {
            term: _term,
            found: _found,
        } = self;
    }
}

impl Model for Spent {
    ghost use Rattle.fork_spec.specs.Evidence as spec;

    ghost Value = { spec.Spent };

    ghost view = { λ s. record { term = s.term; found = s.found.items } };
}

/// A question on which the budget of conflicts was spent, and the clauses that were learnt for it.
#[derive(Debug)]
pub struct Learnt {
    /// The part of a leaf's condition that matters for its last assertion.
    pub question: Query,
    pub log: Log,
}

impl Drop for Learnt {
    fn drop(self) {
        let Self {
            question: _question,
            log: _log,
        } = self;
    }
}

impl Model for Learnt {
    ghost use Rattle.fork_spec.specs.Evidence as spec;

    ghost Value = { spec.Learnt };

    ghost view = { λ l. record { question = l.question; log = l.log } };
}

/// What shows the budget that was spent, where steps alone don't.
#[derive(Debug, Drop)]
pub enum Evidence {
    /// The values on which the budget of targets was spent.
    Targets(Spent),
    /// The question on which the budget of conflicts was spent.
    Conflicts(Learnt),
    /// How many nodes there were where the leaf was cut for want of them.
    Nodes(u32),
}
