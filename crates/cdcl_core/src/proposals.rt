//! Proposals of the fast search, which promises nothing of them: each is checked, and one that fails is no answer. A valuation is
//! evaluated; of a log it is checked that each clause follows and has no variable but the formula's, and that it ends in the empty
//! clause, or that it has as many clauses as the budget, none empty and each new.

ghost use Rattle.std.specs.Prelude.{◌≡◌, All, IfOk, IfSome, IsTrue};
ghost use Rattle.cnf_form.specs.Clauses.{IsClause};
ghost use Rattle.cnf_form.specs.Refutations.{has_no_empty, is_empty_clause};
ghost use Rattle.cdcl_core.specs.Searches.{IsAnswer, IsRefutation, IsExhaustion};

use crate::occurrences::are_over;
use crate::solver::Answer;
use cnf_form::{Cnf, Lit, Log, LogStep, Val};
use proof_check::{check, ends_empty, fresh};
use std::alloc::{AllocError as NoMemory, Global};
use watched_search::{Proposal, propose};

fn is_empty(clause: &[Lit]) -> bool
    ensures { result ≡ is_empty_clause clause.now }
{
    clause.is_empty()
}

// Whether no clause of the steps is empty.
#[tactic(auto, unfolding(cnf_form::specs::Refutations::has_no_empty))]
fn has_no_empty(steps: &[LogStep]) -> bool
    ensures { result ≡ has_no_empty steps.now }
{
    steps.iter().all(|s| !is_empty(s.clause().literals()))
}

// Whether the log refutes the formula within the budget.
fn is_refutation(alloc: Global, formula: &Cnf, log: &Log, budget: u32) -> Result<bool, NoMemory>
    requires { All (λ s. IsClause s.clause) log.now }
    ensures { IfOk result (λ yes. IsTrue yes → IsRefutation formula.now budget log.now) }
{
    if log.steps().len() > budget as usize || !ends_empty(log) {
        return Ok(false);
    }
    Ok(check(alloc, formula, log)? && are_over(alloc, formula, log.steps())?)
}

// Whether the log shows that the budget is spent.
fn is_exhaustion(alloc: Global, formula: &Cnf, log: &Log, budget: u32) -> Result<bool, NoMemory>
    requires { All (λ s. IsClause s.clause) log.now }
    ensures { IfOk result (λ yes. IsTrue yes → IsExhaustion formula.now budget log.now) }
{
    if log.steps().len() != budget as usize || !has_no_empty(log.steps()) {
        return Ok(false);
    }
    Ok(
        check(alloc, formula, log)?
            && fresh(alloc, formula, log)?
            && are_over(alloc, formula, log.steps())?,
    )
}

// The valuation as an answer, if it satisfies the formula.
fn found(formula: &Cnf, values: Val, budget: u32) -> Option<Answer>
    ensures { IfSome result (IsAnswer formula.now budget) }
{
    if values.satisfies(formula) {
        Some(Answer::Found(values))
    } else {
        None
    }
}

// The log as an answer, if it refutes the formula.
fn refuted(
    alloc: Global,
    formula: &Cnf,
    proposed: Log,
    budget: u32,
) -> Result<Option<Answer>, NoMemory>
    ensures { IfOk result (λ found. IfSome found (IsAnswer formula.now budget)) }
{
    let mut proposed = proposed;
    let log = proposed.take(alloc);
    if is_refutation(alloc, formula, &log, budget)? {
        Ok(Some(Answer::Refuted(log)))
    } else {
        Ok(None)
    }
}

// The log as an answer, if it shows that the budget is spent.
fn spent(
    alloc: Global,
    formula: &Cnf,
    proposed: Log,
    budget: u32,
) -> Result<Option<Answer>, NoMemory>
    ensures { IfOk result (λ found. IfSome found (IsAnswer formula.now budget)) }
{
    let mut proposed = proposed;
    let log = proposed.take(alloc);
    if is_exhaustion(alloc, formula, &log, budget)? {
        Ok(Some(Answer::Spent(log)))
    } else {
        Ok(None)
    }
}

/// The answer of the fast search, where it stands the check.
pub(crate) fn proposed(
    alloc: Global,
    formula: &Cnf,
    budget: u32,
) -> Result<Option<Answer>, NoMemory>
    ensures { IfOk result (λ found. IfSome found (IsAnswer formula.now budget)) }
{
    match propose(alloc, formula, budget)? {
        Some(Proposal::Found(values)) => Ok(found(formula, values, budget)),
        Some(Proposal::Refuted(log)) => refuted(alloc, formula, log, budget),
        Some(Proposal::Spent(log)) => spent(alloc, formula, log, budget),
        None => Ok(None),
    }
}
