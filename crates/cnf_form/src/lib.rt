//! Formulas in conjunctive normal form, valuations, and logs of clauses that follow by unit propagation.
#![tactic(auto)]

mod clause;
mod clauses;
mod formula;
pub mod laws;
mod literal;
mod log;
mod valuation;

pub use clause::Clause;
pub use clauses::Clauses;
pub use formula::Cnf;
pub use literal::Lit;
pub use log::{Log, LogStep};
pub use valuation::Val;
