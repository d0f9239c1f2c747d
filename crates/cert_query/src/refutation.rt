//! Taking the clauses that refute a question.

ghost use Rattle.std.specs.Prelude.{◌≡◌, ◌≤◌, false, IfOk, IfErr, length};
ghost use Rattle.cnf_form.specs.Refutations.{refutes};
ghost use Rattle.circuit_spec.specs.Circuits.{clauses};
ghost use Rattle.cert_query.specs.ClauseFaults.{IsRefutingFault};
ghost use Rattle.cert_query.specs.ClauseLines.{clauses_at};
ghost use Rattle.cert_query.specs.Refuting.{IsNoted, IsRefutation, IsRefutedBy};

use crate::clause_lines::first_clause;
use crate::fault::{Fault, Reason};
use bit_blast::encode;
use bv_dag::Query;
use cert_form::CertLine;
use cnf_form::LogStep;
use proof_check::Checker;
use std::alloc::{AllocError as NoMemory, Global};

// Puts the step's clause behind the others, if it follows, and answers whether it does.
fn note_following(checker: &mut Checker, step: &LogStep) -> Result<bool, NoMemory>
    ensures { IfOk result (IsNoted checker.old checker.new step.now) }
{
    if !checker.follows(step)? {
        return Ok(false);
    }
    checker.note(step.clause().literals())?;
    Ok(true)
}

// Takes all clauses that come next. Each follows from those that the checker has and those before it, and the last is empty.
fn take_following<'a>(
    checker: &mut Checker,
    lines: &'a [CertLine],
) -> Result<Result<&'a [CertLine], Fault>, NoMemory>
    ensures taken { IfOk result (λ taken. IfOk taken
        (λ rest. IsRefutation checker.old lines.now rest.now)) }
    ensures refused { IfOk result (λ taken. IfErr taken
        (λ _. refutes checker.old (clauses_at lines.now) ≡ false)) }
    ensures left { IfOk result (λ taken. IfErr taken (λ fault. fault.left ≤ length lines.now)) }
    ensures cause { IfOk result (λ taken. IfErr taken (IsRefutingFault checker.old lines.now)) }
{
    let mut rest = lines;
    let mut is_closed = false;
    'lines: while let Some((step, more)) = first_clause(rest) {
        if !note_following(checker, step)? {
            return Ok(Err(Fault::at(rest, Reason::Log)));
        }
        is_closed = step.clause().literals().is_empty();
        rest = more;
    }
    if is_closed {
        Ok(Ok(rest))
    } else {
        Ok(Err(Fault::at(rest, Reason::Log)))
    }
}

/// The lines behind clauses that refute the question: all clauses that come next. Each follows by its hints from the clauses of the
/// question and those before it, and the last is empty.
pub fn take_refutation<'a>(
    alloc: Global,
    query: &Query,
    lines: &'a [CertLine],
) -> Result<Result<&'a [CertLine], Fault>, NoMemory>
    ensures taken { IfOk result (λ taken. IfOk taken
        (λ rest. IsRefutedBy query.now lines.now rest.now)) }
    ensures refused { IfOk result (λ taken. IfErr taken
        (λ _. refutes (clauses query.now) (clauses_at lines.now) ≡ false)) }
    ensures left { IfOk result (λ taken. IfErr taken (λ fault. fault.left ≤ length lines.now)) }
    ensures cause { IfOk result (λ taken. IfErr taken
        (IsRefutingFault (clauses query.now) lines.now)) }
{
    // That its terms fit, and those that are asserted are bits, is known where they are read.
    let _ = query.dag().nodes();
    let _ = query.asserted();
    let encoding = encode(alloc, query)?;
    let mut checker = Checker::new(alloc, encoding.formula())?;
    take_following(&mut checker, lines)
}
