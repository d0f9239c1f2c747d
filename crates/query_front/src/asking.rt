//! Asking a question.

ghost use Rattle.std.specs.Prelude.{◌≡◌, ℕ, true, IfOk, IfSome, length};
ghost use Rattle.bv_dag.specs.Graphs.{width_of};
ghost use Rattle.bv_dag.specs.Queries.{AreBits, Condition, holds};
ghost use Rattle.circuit_spec.specs.Budgets.{IsSpent};
ghost use Rattle.query_cache.specs.Answers.{IsAnswer};
ghost use Rattle.query_front.specs.Asks.{IsAsked};
ghost use Rattle.query_front.specs.Parts.{IsPartOfQuery};

use crate::asked::Asked;
use crate::part::part_of;
use crate::shared::Shared;
use bv_dag::{Query, Table};
use byte_list::Bytes;
use cnf_form::Log;
use query_cache::{Fingerprinted, Satisfiability, Solved};
use query_decide::{Decision, decide};
use query_pick::{Occurrence, occurring};
use query_slice::merge;
use std::alloc::{AllocError as NoMemory, Global};
use std::sync::Wait;

// Whether it may cost less to try samples than to decide a question: it does where a search decides it, and not the values of
// one input byte.
fn is_worth_trying(alloc: Global, part: &Query) -> Result<bool, NoMemory> {
    let occurrence = occurring(alloc, part.dag().nodes(), part.asserted())?;
    Ok(matches!(occurrence, Occurrence::MoreInputs))
}

// An answer to a question that need not be decided: one that was given before, or a sample that meets it.
fn known(
    rt: &impl Wait,
    alloc: Global,
    shared: &Shared,
    part: &Fingerprinted,
    sample: &Bytes,
) -> Result<Option<Satisfiability>, NoMemory>
    ensures { IfOk result (λ found. IfSome found (IsAnswer part.now)) }
{
    let found = shared.look(rt, alloc, part)?;
    if found.is_some() || !is_worth_trying(alloc, part.query())? {
        return Ok(found);
    }
    match shared.sample(rt, alloc, part, sample)? {
        Some(input) => Ok(Some(Satisfiability::Sat(input))),
        None => Ok(None),
    }
}

// That the budget was spent on a part, with what was learnt.
fn spent_on(part: Fingerprinted, log: Log) -> Asked
    ensures { (q : Condition) (new budget : ℕ) → IsPartOfQuery q new part
        → IsSpent part budget log → IsAsked q new budget result }
{
    // That its graph fits and its assertions are bits is known of its parts.
    let part = part.into_query();
    let _ = part.dag().nodes();
    let _ = part.asserted();
    Asked::Spent(part, log)
}

// Decides a question that is the part of a condition which a sample meets, and keeps the answer.
fn decided(
    rt: &impl Wait,
    alloc: Global,
    shared: &Shared,
    part: Fingerprinted,
    sample: &Bytes,
    budget: u32,
) -> Result<Asked, NoMemory>
    requires { length sample.now ≡ part.graph.inputs }
    ensures { IfOk result (λ asked. (q : Condition) (new : ℕ) → IsPartOfQuery q new part
        → holds q sample.now ≡ true → IsAsked q new budget asked) }
{
    if let Some(log) = shared.look_spent(rt, &part, budget)? {
        return Ok(spent_on(part, log));
    }
    shared.count_decided();
    match decide(alloc, part.query(), sample.as_slice(), budget)? {
        Decision::Sat(input) => {
            let merged = merge(alloc, sample, &input, part.query())?;
            shared.offer(rt, alloc, &part, &input);
            shared.keep(rt, Solved::new(part, Satisfiability::Sat(input)));
            Ok(Asked::Sat(merged))
        }
        Decision::Unsat => {
            shared.keep(rt, Solved::new(part, Satisfiability::Unsat));
            Ok(Asked::Unsat)
        }
        Decision::Spent(log) => {
            shared.keep_spent(rt, &part, &log);
            Ok(spent_on(part, log))
        }
    }
}

// The answer to a question that is the part of a condition which a sample meets: one that is known, or else decided.
fn answered(
    rt: &impl Wait,
    alloc: Global,
    shared: &Shared,
    part: Fingerprinted,
    sample: &Bytes,
    budget: u32,
) -> Result<Asked, NoMemory>
    requires { length sample.now ≡ part.graph.inputs }
    ensures { IfOk result (λ asked. (q : Condition) (new : ℕ) → IsPartOfQuery q new part
        → holds q sample.now ≡ true → IsAsked q new budget asked) }
{
    match known(rt, alloc, shared, &part, sample)? {
        Some(Satisfiability::Sat(input)) => {
            Ok(Asked::Sat(merge(alloc, sample, &input, part.query())?))
        }
        Some(Satisfiability::Unsat) => Ok(Asked::Unsat),
        None => decided(rt, alloc, shared, part, sample, budget),
    }
}

/// Whether a condition and one more term can hold, from the part that matters for the term, and from a sample that meets
/// the condition. A question that needs a search may cost `budget` learnt clauses.
pub fn ask_part(
    rt: &impl Wait,
    alloc: Global,
    shared: &Shared,
    part: Query,
    sample: &Bytes,
    budget: u32,
) -> Result<Asked, NoMemory>
    requires { length sample.now ≡ part.graph.inputs }
    ensures { IfOk result (λ asked. (q : Condition) (new : ℕ) → IsPartOfQuery q new part
        → holds q sample.now ≡ true → IsAsked q new budget asked) }
{
    let fingerprinted = Fingerprinted::new(alloc, part)?;
    answered(rt, alloc, shared, fingerprinted, sample, budget)
}

/// Whether a condition on a table of terms and one more term can hold, from a sample that meets the condition. A question that needs
/// a search may cost `budget` learnt clauses.
pub fn ask<T: Table>(
    rt: &impl Wait,
    alloc: Global,
    shared: &Shared,
    terms: &T,
    condition: Vec<usize>,
    sample: &Bytes,
    new: usize,
    budget: u32,
) -> Result<Asked, NoMemory>
    requires condition { AreBits (T.graph terms.now) condition.items }
    requires bit { width_of (T.graph terms.now) new ≡ 1 }
    requires sampled { holds
        (record { graph = T.graph terms.now; asserted = condition.items }) sample.now ≡ true }
    ensures { IfOk result (IsAsked
        (record { graph = T.graph terms.now; asserted = condition.items }) new budget) }
{
    let part = part_of(alloc, terms, condition, new)?;
    ask_part(rt, alloc, shared, part, sample, budget)
}
