//! Logs without the clauses that their last one doesn't need.

use cnf_form::{Log, LogStep};
use std::alloc::{AllocError as NoMemory, Global};

// Marks what a step's hints name, of clauses behind so many of the formula's.
fn mark_hints(needed: &mut [bool], formula: usize, hints: &[usize]) {
    for hint in hints {
        if let Some(place) = hint.checked_sub(formula.saturating_add(1)) {
            if let Some(mark) = needed.get_mut(place) {
                *mark = true;
            }
        }
    }
}

// Which steps the last one needs, itself among them.
fn needed_in(alloc: Global, formula: usize, steps: &[LogStep]) -> Result<Vec<bool>, NoMemory> {
    let mut needed = vec![in alloc; false; steps.len()]?;
    if let Some(last) = needed.last_mut() {
        *last = true;
    }
    for place in (0..steps.len()).rev() {
        if let (Some(true), Some(step)) = (needed.get(place).copied(), steps.get(place)) {
            mark_hints(&mut needed, formula, step.hints());
        }
    }
    Ok(needed)
}

// The numbers of clauses once only the needed steps are left, by the steps' places.
fn numbers_of(alloc: Global, formula: usize, needed: &[bool]) -> Result<Vec<usize>, NoMemory> {
    let mut numbers = Vec::with_capacity(alloc, needed.len())?;
    let mut next = formula.saturating_add(1);
    for is_needed in needed {
        numbers.push(next)?;
        if *is_needed {
            next = next.saturating_add(1);
        }
    }
    Ok(numbers)
}

// A step with its hints by their new numbers.
fn renumbered(
    alloc: Global,
    formula: usize,
    numbers: &[usize],
    step: &LogStep,
) -> Result<LogStep, NoMemory> {
    let mut hints = Vec::with_capacity(alloc, step.hints().len())?;
    for hint in step.hints() {
        let place = hint.checked_sub(formula.saturating_add(1));
        hints.push(place.and_then(|p| numbers.get(p).copied()).unwrap_or(*hint))?;
    }
    Ok(LogStep::new(step.clause().clone()?, hints))
}

/// A log for a formula of so many clauses, without the clauses that its last one doesn't need.
pub fn trimmed(alloc: Global, formula: usize, log: &Log) -> Result<Log, NoMemory> {
    let steps = log.steps();
    let needed = needed_in(alloc, formula, steps)?;
    let numbers = numbers_of(alloc, formula, &needed)?;
    let mut kept = Log::new(alloc);
    for (step, is_needed) in steps.iter().zip(needed.iter()) {
        if *is_needed {
            kept.push(renumbered(alloc, formula, &numbers, step)?)?;
        }
    }
    Ok(kept)
}
