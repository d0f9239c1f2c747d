//! What answers questions, where lines are to be found that a certificate lacks. An audit asks nothing.

use bv_dag::Query;
use byte_list::Bytes;
use cnf_form::Log;
use std::alloc::{AllocError as NoMemory, Global};

/// What was found of a question.
#[derive(Debug, Drop)]
pub enum Solved {
    /// These bytes meet it.
    Found(Bytes),
    /// These clauses refute it.
    Refuted(Log),
    /// Neither was found.
    Open,
}

/// What answers questions. Nothing rests on its answers: what they make of a certificate is audited.
pub trait Solver {
    fn solve(&self, alloc: Global, question: &Query) -> Result<Solved, NoMemory>;
}
