//! The answer to a question.

use bv_dag::Query;
use byte_list::Bytes;
use cnf_form::Log;

/// Whether a condition and one more term can hold.
#[derive(Debug, Drop)]
pub enum Asked {
    /// On these bytes: they meet the condition, and the term is 1.
    Sat(Bytes),
    /// On no bytes.
    Unsat,
    /// The budget was spent on these clauses, with no answer. They were learnt for this question, the part of the condition
    /// that matters for the term.
    Spent(Query, Log),
}
