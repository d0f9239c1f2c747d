//! What a search proposes.

use cnf_form::{Log, Val};

/// What a search makes of a formula. Nothing of this is promised.
#[derive(Debug, Drop)]
pub enum Proposal {
    /// A valuation that should satisfy the formula.
    Found(Val),
    /// A log that should refute the formula.
    Refuted(Log),
    /// Clauses that were learnt until the budget was spent, each of which should follow and be new.
    Spent(Log),
}
