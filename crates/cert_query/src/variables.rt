//! Which variables occur in a formula.

ghost use Rattle.std.specs.Prelude.{◌≡◌, ◌||◌, ◌==◌, ◌<◌, ◌+◌, ℕ, true, false, IfOk, length};
ghost use Rattle.std.specs.List.{list_any};
ghost use Rattle.cnf_form.specs.Variables.{is_below};
ghost use Rattle.cert_query.specs.Variables.{AreOccurring, are_noted, is_noted};

use cnf_form::{Clause, Cnf, Lit};
use std::alloc::{AllocError as NoMemory, Global};

// Notes a variable.
fn note(seen: &mut Vec<bool>, variable: u32)
    requires { variable < length seen.old.items }
    ensures there { (v : ℕ) → is_noted seen.new.items v ≡ (is_noted seen.old.items v || (variable == v)) }
    ensures size { length seen.new.items ≡ length seen.old.items }
{
    seen[variable as usize] = true;
}

// Notes the variables of a clause.
fn note_clause(seen: &mut Vec<bool>, clause: &[Lit])
    requires { is_below (length seen.old.items) clause.now ≡ true }
    ensures there { (v : ℕ) → is_noted seen.new.items v
        ≡ (is_noted seen.old.items v || list_any (λ l. l.variable == v) clause.now) }
    ensures size { length seen.new.items ≡ length seen.old.items }
{
    for literal in clause {
        note(seen, literal.variable());
    }
}

/// Whether each variable occurs, by variable.
pub(crate) fn occurring(alloc: Global, formula: &Cnf) -> Result<Vec<bool>, NoMemory>
    ensures { IfOk result (λ seen. AreOccurring formula.now seen.items) }
{
    let mut seen = vec![in alloc; false; formula.variables() as usize + 1]?;
    let clauses = formula.clauses();
    for place in 0..clauses.len() {
        note_clause(&mut seen, clauses.at(place));
    }
    Ok(seen)
}

fn is_noted(seen: &[bool], literal: Lit) -> bool
    ensures { result ≡ is_noted seen.now literal.variable }
{
    match seen.get(literal.variable() as usize) {
        Some(noted) => *noted,
        None => false,
    }
}

/// Whether each variable of the clause is noted.
pub(crate) fn are_noted(seen: &[bool], clause: &Clause) -> bool
    ensures { result ≡ are_noted seen.now clause.now }
{
    clause.literals().iter().all(|l| is_noted(seen, *l))
}
