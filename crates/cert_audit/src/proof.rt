//! Proofs that a run stands for no assignment.

ghost use Rattle.std.specs.Prelude.{◌≡◌, ◌↔◌, ℕ, List, Contains, IfOk, IfErr, IsTrue, false};
ghost use Rattle.bv_dag.specs.Inputs.{asserted_inputs};
ghost use Rattle.bv_dag.specs.Queries.{IsUnsatisfiable};
ghost use Rattle.query_pick.specs.Occurring.{IsAlone};
ghost use Rattle.query_slice.specs.Slices.{IsCut};
ghost use Rattle.sym_state.specs.Symbolic.{condition_of, stands_for};
ghost use Rattle.term_trees.specs.Subsets.{AsksNoMore};
ghost use Rattle.cert_audit.specs.Asking.{IsLast};
ghost use Rattle.cert_audit.specs.ProofFaults.{IsMet, IsNotExcluded, IsNotTried, IsProofFault, IsRefutedFault, IsWellFormed};
ghost use Rattle.cert_audit.specs.Shown.{IsShownEmpty};

use crate::sampling::are_bytes;
use bv_dag::Query;
use cert_form::CertLine;
use cert_query::{Fault, Question, Reason, take_question, take_refutation};
use query_pick::{Occurrence, asks_no_more, occurring, pick, try_byte};
use query_slice::slice;
use std::alloc::{AllocError as NoMemory, Global};
use sym_state::{State, listed};

/// The terms of a question fit, and its assertions are bits.
pub(crate) fn is_formed(query: &Query)
    ensures { IsWellFormed query.now }
{
    let _ = query.dag().nodes();
    let _ = query.asserted();
}

// Whether no value of the one byte that a question rests on, or of any where it rests on none, meets it.
fn has_no_value(alloc: Global, question: &Query, place: usize) -> Result<bool, NoMemory>
    requires { IsAlone (asserted_inputs question.now) place }
    ensures excluded { IfOk result (λ yes. IsTrue yes → IsUnsatisfiable question.now) }
    ensures met { IfOk result (λ yes. yes ≡ false → IsMet question.now) }
{
    match try_byte(alloc, question, place, 0)? {
        Some(input) => {
            are_bytes(&input);
            Ok(false)
        }
        None => Ok(true),
    }
}

/// Whether a question rests on one byte at most, and no value of that meets it.
pub fn is_excluded(alloc: Global, question: &Query) -> Result<bool, NoMemory>
    ensures excluded { IfOk result (λ yes. IsTrue yes → IsUnsatisfiable question.now) }
    ensures not_excluded { IfOk result (λ yes. yes ≡ false → IsNotExcluded question.now) }
{
    match occurring(alloc, question.dag().nodes(), question.asserted())? {
        Occurrence::NoInput => has_no_value(alloc, question, 0),
        Occurrence::OneInput(place) => has_no_value(alloc, question, place),
        Occurrence::MoreInputs => Ok(false),
    }
}

/// The part of a run's condition that matters for this of its terms. Where nothing meets it, the run stands for no assignment.
pub fn part_of(alloc: Global, run: &State, new: usize) -> Result<Query, NoMemory>
    requires { Contains run.now.condition new }
    ensures cut { IfOk result (IsCut (condition_of run.now) new) }
    ensures none { IfOk result (λ part. IsUnsatisfiable part
        → (input : List ℕ) → stands_for run.now input ≡ false) }
{
    let condition = listed(alloc, run.condition())?;
    slice(alloc, run.terms(), &condition, new)
}

// Whether the part of a run's condition that matters for this of its terms rests on one byte at most, and no value of that meets it.
fn is_tried(alloc: Global, run: &State, new: usize) -> Result<bool, NoMemory>
    requires { Contains run.now.condition new }
    ensures tried { IfOk result (λ yes. IsTrue yes
        → (input : List ℕ) → stands_for run.now input ≡ false) }
    ensures not_tried { IfOk result (λ yes. yes ≡ false → IsLast run.now.condition new
        → IsNotTried (condition_of run.now)) }
{
    let part = part_of(alloc, run, new)?;
    is_excluded(alloc, &part)
}

// Whether a question asks no more than a run's condition does.
fn is_of_run(alloc: Global, run: &State, question: &Query) -> Result<bool, NoMemory>
    ensures less { IfOk result (λ yes. IsTrue yes
        ↔ AsksNoMore question.now (condition_of run.now)) }
    ensures none { IfOk result (λ yes. IsTrue yes → IsUnsatisfiable question.now
        → (input : List ℕ) → stands_for run.now input ≡ false) }
{
    let condition = listed(alloc, run.condition())?;
    let asked = pick(alloc, run.terms(), &condition)?;
    asks_no_more(alloc, question, &asked)
}

// Takes a question that asks no more than a run's condition, and clauses that refute it.
fn take_refuted<'a>(
    alloc: Global,
    run: &State,
    lines: &'a [CertLine],
) -> Result<Result<&'a [CertLine], Fault>, NoMemory>
    ensures taken { IfOk result (λ taken. IfOk taken (λ rest.
        IsShownEmpty run.now lines.now rest.now)) }
    ensures cause { IfOk result (λ taken. IfErr taken (IsRefutedFault (condition_of run.now) lines.now)) }
{
    let Question { query, rest } = match take_question(alloc, lines)? {
        Ok(question) => question,
        Err(fault) => return Ok(Err(fault)),
    };
    is_formed(&query);
    if is_of_run(alloc, run, &query)? {
        take_refutation(alloc, &query, rest)
    } else {
        Ok(Err(Fault::at(lines, Reason::Query)))
    }
}

/// Takes lines that show that a run stands for no assignment: that the values of one byte were tried on the part of its condition that
/// matters for the term asserted last, which is `new`; or a question and clauses that refute it.
pub(crate) fn take_proof<'a>(
    alloc: Global,
    run: &State,
    new: usize,
    lines: &'a [CertLine],
) -> Result<Result<&'a [CertLine], Fault>, NoMemory>
    requires { Contains run.now.condition new }
    ensures taken { IfOk result (λ taken. IfOk taken (λ rest.
        IsShownEmpty run.now lines.now rest.now)) }
    ensures cause { IsLast run.now.condition new → IfOk result (λ taken. IfErr taken
        (IsProofFault (condition_of run.now) lines.now)) }
{
    let [CertLine::Tried, rest @ ..] = lines else {
        return take_refuted(alloc, run, lines);
    };
    if is_tried(alloc, run, new)? {
        Ok(Ok(rest))
    } else {
        Ok(Err(Fault::at(lines, Reason::Tried)))
    }
}
