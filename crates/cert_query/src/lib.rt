//! Questions in a certificate, and the clauses behind them: the question that lines give, clauses that refute it, and those that were
//! learnt for it. Nothing here searches: each clause is checked by its hints.
//!
//! - `fault`: why a line may not stand where it does
//! - `heading`: how many inputs and nodes a question has, and its inputs
//! - `terms`: its nodes
//! - `assertions`: the nodes that are to be 1, and its end
//! - `question`: the whole of it
//! - `giving`: the lines of a question
//! - `clause_lines`: lines of clauses
//! - `refutation`: the clauses that refute a question
//! - `variables`: the variables that occur in a formula
//! - `spent_log`: the clauses on which a budget was spent
#![tactic(auto)]

mod assertions;
mod clause_lines;
mod fault;
mod giving;
mod heading;
mod question;
mod refutation;
mod spent_log;
mod terms;
mod variables;

pub use fault::{Fault, Reason};
pub use giving::push_question;
pub use question::{Question, take_question};
pub use refutation::take_refutation;
pub use spent_log::{SpentLog, take_spent_log};
