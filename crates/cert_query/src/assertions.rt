//! Taking the lines of the nodes that a question asserts, and its end.

ghost use Rattle.std.specs.Prelude.{◌≡◌, ◌↔◌, ◌++◌, ◌∷◌, ◌≤◌, ℕ, false, IfOk, IfErr, IsTrue, length, map};
ghost use Rattle.bv_dag.specs.Graphs.{Graph, width_of};
ghost use Rattle.bv_dag.specs.Queries.{AreBits};
ghost use Rattle.cert_query.specs.QuestionFaults.{IsAssertedFault, IsAssertionFault, begins_with_assert, reason_for_no_end};
ghost use Rattle.cert_form.specs.declared.line.CertLine.TheVariants as line;

use crate::fault::{Fault, Reason};
use bv_dag::Dag;
use cert_form::CertLine;
use std::alloc::{AllocError as NoMemory, Global};

// Whether the term is there, and of one bit.
fn is_bit(dag: &Dag, id: usize) -> bool
    ensures { IsTrue result ↔ width_of dag.now id ≡ 1 }
{
    id < dag.len() && dag.width_of(id) == 1
}

/// The terms that are asserted, and the lines behind them.
pub(crate) fn take_asserted<'a>(
    alloc: Global,
    dag: &Dag,
    lines: &'a [CertLine],
) -> Result<Result<(Vec<usize>, &'a [CertLine]), Fault>, NoMemory>
    ensures bits { IfOk result (λ taken. IfOk taken
        (λ asserted. AreBits dag.now asserted.0.items)) }
    ensures taken { IfOk result (λ taken. IfOk taken
        (λ asserted. lines.now ≡ map line.Assert asserted.0.items ++ asserted.1.now)) }
    ensures all { IfOk result (λ taken. IfOk taken
        (λ asserted. begins_with_assert asserted.1.now ≡ false)) }
    ensures refused { IfOk result (λ taken. IfErr taken (λ fault. fault.left ≤ length lines.now)) }
    ensures cause { IfOk result (λ taken. IfErr taken (IsAssertedFault dag.now lines.now)) }
{
    let mut asserted = Vec::new(alloc);
    let mut rest = lines;
    'lines: while let [CertLine::Assert(id), more @ ..] = rest {
        let id = *id as usize;
        if !is_bit(dag, id) {
            return Ok(Err(Fault::at(rest, Reason::Text)));
        }
        asserted.push(id)?;
        rest = more;
    }
    Ok(Ok((asserted, rest)))
}

// Why the question may not end where this line stands: a node says that there are more than was said.
fn reason_for(lines: &[CertLine]) -> Reason
    ensures { result ≡ reason_for_no_end lines.now }
{
    match lines {
        [CertLine::Node(_), ..] => Reason::Text,
        _ => Reason::Place,
    }
}

/// The lines behind a question's end.
pub(crate) fn take_end(lines: &[CertLine]) -> Result<&[CertLine], Fault>
    ensures taken { IfOk result (λ rest. lines.now ≡ line.Check ∷ line.Exit ∷ rest.now) }
    ensures refused { IfErr result (λ fault. fault.left ≤ length lines.now) }
    ensures cause { IfErr result (λ fault. begins_with_assert lines.now ≡ false
        → (graph : Graph) → IsAssertionFault graph lines.now fault) }
{
    let [CertLine::Check, rest @ ..] = lines else {
        return Err(Fault::at(lines, reason_for(lines)));
    };
    let [CertLine::Exit, rest @ ..] = rest else {
        return Err(Fault::at(rest, Reason::Place));
    };
    Ok(rest)
}
