//! Which variables occur in a formula, noted once for the clauses of a log that are to have no others.

ghost use Rattle.std.specs.Prelude.{◌≡◌, ℕ, ◌==◌, ◌⊎◌, false, true, IfOk, IsTrue, slice_index_or};
ghost use Rattle.std.specs.List.{list_all, list_any};
ghost use Rattle.cnf_form.specs.Refutations.{clauses_of};
ghost use Rattle.cnf_form.specs.Variables.{is_over};
ghost use Rattle.cdcl_core.specs.Occurrences.{AreSeen};

use cnf_form::{Cnf, Lit, LogStep};
use std::alloc::{AllocError as NoMemory, Global};

// Notes a variable.
fn note(seen: &mut Vec<bool>, variable: u32)
    ensures { (v : ℕ) → slice_index_or seen.new.items v false ≡ true
        → (slice_index_or seen.old.items v false ≡ true) ⊎ (v ≡ variable) }
{
    let place = variable as usize;
    if place < seen.len() {
        seen[place] = true;
    }
}

// Notes the variables of a clause.
fn note_clause(seen: &mut Vec<bool>, clause: &[Lit])
    ensures { (v : ℕ) → slice_index_or seen.new.items v false ≡ true
        → (slice_index_or seen.old.items v false ≡ true)
        ⊎ (list_any (λ l. l.variable == v) clause.now ≡ true) }
{
    for literal in clause {
        note(seen, literal.variable());
    }
}

/// Whether each variable occurs, by variable.
fn occurrences(alloc: Global, formula: &Cnf) -> Result<Vec<bool>, NoMemory>
    ensures { IfOk result (λ seen. AreSeen formula.now seen.items) }
{
    let mut seen = vec![in alloc; false; formula.variables() as usize + 1]?;
    let clauses = formula.clauses();
    for place in 0..clauses.len() {
        note_clause(&mut seen, clauses.at(place));
    }
    Ok(seen)
}

fn is_seen(seen: &[bool], literal: Lit) -> bool
    ensures { result ≡ slice_index_or seen.now literal.variable false }
{
    match seen.get(literal.variable() as usize) {
        Some(is_seen) => *is_seen,
        None => false,
    }
}

fn are_seen(seen: &[bool], clause: &[Lit]) -> bool
    ensures { result ≡ list_all (λ l. slice_index_or seen.now l.variable false) clause.now }
{
    clause.iter().all(|l| is_seen(seen, *l))
}

fn are_all_seen(seen: &[bool], steps: &[LogStep]) -> bool
    ensures { result ≡ list_all
        (λ s. list_all (λ l. slice_index_or seen.now l.variable false) s.clause) steps.now }
{
    steps.iter().all(|s| are_seen(seen, s.clause().literals()))
}

/// Whether each variable of the steps' clauses is seen to occur in the formula.
pub(crate) fn are_over(alloc: Global, formula: &Cnf, steps: &[LogStep]) -> Result<bool, NoMemory>
    ensures { IfOk result (λ yes. IsTrue yes
        → list_all (is_over formula.now) (clauses_of steps.now) ≡ true) }
{
    let seen = occurrences(alloc, formula)?;
    Ok(are_all_seen(&seen, steps))
}
