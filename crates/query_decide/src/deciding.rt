//! Deciding a question.

ghost use Rattle.std.specs.Prelude.{ℕ, IfOk};
ghost use Rattle.bv_dag.specs.Graphs.{IsDag};
ghost use Rattle.bv_dag.specs.Queries.{AreBits};
ghost use Rattle.query_decide.specs.Decisions.{IsDecided};
ghost use Rattle.bv_dag.specs.Inputs.{asserted_inputs, HasTwo};
ghost use Rattle.query_pick.specs.Occurring.{IsAlone};

use crate::decision::Decision;
use bit_blast::encode;
use bv_dag::Query;
use byte_list::Bytes;
use cdcl_core::{Answer, search};
use query_pick::{Occurrence, occurring, try_byte};
use std::alloc::{AllocError as NoMemory, Global};

// The answer of a question that rests on this byte alone, or on none: no budget is spent.
fn decide_byte(
    alloc: Global,
    query: &Query,
    place: usize,
    near: &[u8],
) -> Result<Decision, NoMemory>
    requires { IsAlone (asserted_inputs query.now) place }
    ensures { (budget : ℕ) → IfOk result (IsDecided query.now budget) }
{
    let first = near.get(place).copied().unwrap_or(0);
    match try_byte(alloc, query, place, first)? {
        Some(input) => Ok(Decision::Sat(Bytes::from_vec(input))),
        None => Ok(Decision::Unsat),
    }
}

// The answer of the search for a valuation of the question's clauses.
fn decide_by_clauses(alloc: Global, query: &Query, budget: u32) -> Result<Decision, NoMemory>
    requires dag { IsDag query.now.graph }
    requires bits { AreBits query.now.graph query.now.asserted }
    requires wide { HasTwo (asserted_inputs query.now) }
    ensures { IfOk result (IsDecided query.now budget) }
{
    let encoding = encode(alloc, query)?;
    match search(alloc, encoding.formula(), budget)? {
        Answer::Found(values) => Ok(Decision::Sat(encoding.bytes(alloc, &values)?)),
        Answer::Refuted(_) => Ok(Decision::Unsat),
        Answer::Spent(log) => Ok(Decision::Spent(log)),
    }
}

/// Whether some input bytes meet the condition. One that rests on one input byte at most is decided by the values of
/// that byte, from the one that it has in `near` on, and else by its clauses and a search that derives at most so many.
pub fn decide(alloc: Global, query: &Query, near: &[u8], budget: u32) -> Result<Decision, NoMemory>
    ensures { IfOk result (IsDecided query.now budget) }
{
    match occurring(alloc, query.dag().nodes(), query.asserted())? {
        Occurrence::NoInput => decide_byte(alloc, query, 0, near),
        Occurrence::OneInput(place) => decide_byte(alloc, query, place, near),
        Occurrence::MoreInputs => decide_by_clauses(alloc, query, budget),
    }
}
