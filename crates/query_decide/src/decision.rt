//! The answer to a question.

use byte_list::Bytes;
use cnf_form::Log;

/// Whether some input bytes meet a condition.
#[derive(Debug, Drop)]
pub enum Decision {
    /// These do.
    Sat(Bytes),
    /// None do.
    Unsat,
    /// The budget was spent on these clauses, with no answer.
    Spent(Log),
}
