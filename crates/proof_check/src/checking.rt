//! Whether the clauses of a log follow by their hints.

ghost use Rattle.std.specs.Prelude.{◌≡◌, ◌++◌, IfOk, OnOk, option_copied};
ghost use Rattle.cnf_form.specs.Propagation.{is_true, is_false, is_falsified, falsify, unit_literal, unit_of_hint, hint_is_falsified, numbered, follows};
ghost use Rattle.cnf_form.specs.Refutations.{clauses_of, follows_all, ends_empty};
ghost use Rattle.proof_check.specs.Marking.{marked};

use crate::marks::Marks;
use cnf_form::{Clauses, Cnf, Lit, Log, LogStep};
use std::alloc::{AllocError as NoMemory, Global};

fn is_true(marks: &Marks, literal: Lit) -> bool
    ensures { result ≡ is_true (marked marks.now) literal }
{
    match marks.value(literal.variable()) {
        Some(value) => value == literal.is_positive(),
        None => false,
    }
}

fn is_false(marks: &Marks, literal: Lit) -> bool
    ensures { result ≡ is_false (marked marks.now) literal }
{
    match marks.value(literal.variable()) {
        Some(value) => value == !literal.is_positive(),
        None => false,
    }
}

/// Whether each literal is false.
#[tactic(auto, unfolding(cnf_form::specs::Propagation::is_falsified))]
pub(crate) fn is_falsified(marks: &Marks, clause: &[Lit]) -> bool
    ensures { result ≡ is_falsified (marked marks.now) clause.now }
{
    clause.iter().all(|l| is_false(marks, *l))
}

// The only literal that isn't false, if it isn't true already.
fn unit_literal(marks: &Marks, clause: &[Lit]) -> Option<Lit>
    ensures { result ≡ unit_literal (marked marks.now) clause.now }
{
    let mut open = None;
    for literal in clause {
        if !is_false(marks, *literal) {
            if open.is_some() {
                return None;
            }
            open = Some(*literal);
        }
    }
    match open {
        Some(literal) if !is_true(marks, literal) => Some(literal),
        _ => None,
    }
}

// The clause of a number, from 1.
fn numbered<'a>(formula: &'a Clauses, earlier: &'a [LogStep], number: usize) -> Option<&'a [Lit]>
    ensures { option_copied result ≡ numbered (formula.now ++ clauses_of earlier.now) number }
{
    if number == 0 {
        return None;
    }
    let place = number - 1;
    if place < formula.len() {
        return Some(formula.at(place));
    }
    let step = place - formula.len();
    if step < earlier.len() {
        Some(earlier[step].clause().literals())
    } else {
        None
    }
}

fn unit_of_hint(marks: &Marks, formula: &Clauses, earlier: &[LogStep], hint: usize) -> Option<Lit>
    ensures { result ≡ unit_of_hint (marked marks.now)
        (numbered (formula.now ++ clauses_of earlier.now) hint) }
{
    match numbered(formula, earlier, hint) {
        Some(clause) => unit_literal(marks, clause),
        None => None,
    }
}

fn hint_is_falsified(marks: &Marks, formula: &Clauses, earlier: &[LogStep], hint: usize) -> bool
    ensures { result ≡ hint_is_falsified (marked marks.now)
        (numbered (formula.now ++ clauses_of earlier.now) hint) }
{
    match numbered(formula, earlier, hint) {
        Some(clause) => is_falsified(marks, clause),
        None => false,
    }
}

/// Makes each literal of a clause false, and gives no other variable a value.
pub(crate) fn falsify(marks: &mut Marks, clause: &[Lit]) -> Result<(), NoMemory>
    ensures { OnOk result (marked marks.new ≡ falsify clause.now) }
{
    marks.clear();
    for literal in clause {
        marks.assign(literal.negated())?;
    }
    Ok(())
}

/// Whether the step's clause follows by its hints from the formula and the earlier steps.
pub fn follows(
    marks: &mut Marks,
    formula: &Clauses,
    earlier: &[LogStep],
    step: &LogStep,
) -> Result<bool, NoMemory>
    ensures { IfOk result (λ yes. yes
        ≡ follows (formula.now ++ clauses_of earlier.now) step.now.clause step.now.hints) }
{
    falsify(marks, step.clause().literals())?;
    let hints = step.hints();
    if hints.len() == 0 {
        return Ok(false);
    }
    let last = hints.len() - 1;
    for i in 0..last {
        match unit_of_hint(marks, formula, earlier, hints[i]) {
            Some(literal) => marks.assign(literal)?,
            None => return Ok(false),
        }
    }
    Ok(hint_is_falsified(marks, formula, earlier, hints[last]))
}

/// Whether each clause of the log follows by its hints from the formula and the log's clauses before it.
pub fn check(alloc: Global, formula: &Cnf, log: &Log) -> Result<bool, NoMemory>
    ensures { IfOk result (λ yes. yes ≡ follows_all formula.now log.now) }
{
    let mut marks = Marks::new(alloc);
    let steps = log.steps();
    for i in 0..steps.len() {
        if !follows(&mut marks, formula.clauses(), &steps[..i], &steps[i])? {
            return Ok(false);
        }
    }
    Ok(true)
}

/// Whether the log's last clause is empty.
pub fn ends_empty(log: &Log) -> bool
    ensures { result ≡ ends_empty log.now }
{
    match log.steps().last() {
        Some(step) => step.clause().literals().is_empty(),
        None => false,
    }
}
