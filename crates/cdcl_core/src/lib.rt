//! A conflict-driven search for a valuation of a formula. Every answer carries what shows it: a valuation that satisfies
//! the formula, a log that ends in the empty clause, or a log of as many clauses as the budget allows.
//!
//! - `proposals`: what the fast search of `watched_search` proposes, checked. Where it proposes nothing that stands the check, the
//!   search here answers, all of which is proved
//! - `occurrences`: the variables that occur in a formula
//! - `solver`: the search: it runs until a clause is false, learns from that, goes back, and runs again
//! - `descent`: choices and propagation in turn
//! - `propagation`: what a clause is while some variables have values
//! - `clause_list`: the clauses, with the places in which each literal stands
//! - `following`: what follows from literals that have become true, by the clauses in which their negations stand
//! - `spots`: where to look at a clause first
//! - `trail`: the literals that are true, in their order, with the clauses that forced them
//! - `lesson`: what is learnt: the clause that the analysis found, if it follows and is new, or the negated decisions
//! - `analysis`: the first point through which all led to a conflict
//! - `backjump`: how far to go back, so that each clause but the learnt one is calm there
//! - `order`: what to choose. No answer rests on it
//!
//! Literals that were false before any decision are kept in a clause that is learnt, so that its hints need not force
//! them again.
#![tactic(auto)]

mod analysis;
mod backjump;
mod clause_list;
mod descent;
mod following;
mod lesson;
mod occurrences;
mod order;
mod propagation;
mod proposals;
mod solver;
mod spots;
mod trail;

pub use solver::{Answer, search};
