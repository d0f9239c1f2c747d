//! A fast search for a valuation of a formula: conflict-driven clause learning with two watched literals a clause, as in
//! MiniSat. Nothing is promised of what it proposes but that it comes to an end: whoever uses a proposal checks it, which costs
//! little beside finding it. So no proof is owed that a place is there that is read: one that isn't is read as some other.
//!
//! - `engine`: the search: it propagates until a clause is false, learns from that, goes back, and goes on
//! - `proposal`: what a search proposes
//! - `code`: literals as numbers, which tables are read by
//! - `clause_store`: the clauses, the watched literals of each in front
//! - `watches`: for each literal, the clauses that it is watched in
//! - `assignment`: the values of literals, what made each true, and the trail
//! - `propagation`: what follows from the literals that have become true
//! - `analysis`: the first point through which all led to a conflict
//! - `minimising`: literals of a learnt clause that follow from the others
//! - `fixed_literals`: literals that were false before any decision and follow from others that were
//! - `history`: by what each learnt clause follows, kept until the search ends
//! - `needed`: which of them the empty clause rests on
//! - `log_making`: the log of the clauses that are wanted, made at the end
//! - `heap`, `activity`, `restarts`: what to choose, when to begin again
#![tactic(auto)]

mod activity;
mod analysis;
mod assignment;
mod clause_store;
mod code;
mod engine;
mod fixed_literals;
mod heap;
mod history;
mod log_making;
mod minimising;
mod needed;
mod propagation;
mod proposal;
mod restarts;
mod watches;

pub use activity::Activity;
pub use engine::propose;
pub use proposal::Proposal;
pub use restarts::Restarts;
