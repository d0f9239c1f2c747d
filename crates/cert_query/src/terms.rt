//! Taking the lines of a question's nodes.

ghost use Rattle.std.specs.Prelude.{◌≡◌, ◌++◌, ◌≤◌, [], IfOk, IfErr, IsTrue, false, length};
ghost use Rattle.bv_dag.specs.Graphs.{IsDag};
ghost use Rattle.cert_query.specs.QuestionFaults.{IsNext, IsNodeFault, IsNodesFault, reason_for_no_node};
ghost use Rattle.cert_query.specs.QuestionLines.{node_lines};
ghost use Rattle.cert_query.specs.Terms.{IsPushed, IsTakenNode};

use crate::fault::{Fault, Reason};
use bv_dag::Dag;
use cert_form::{CertLine, DefinedNode};
use std::alloc::{AllocError as NoMemory, Global};

// Puts the node behind the others, if it is the next and fits, and answers whether it is that wide.
fn push_node(dag: &mut Dag, defined: DefinedNode) -> Result<bool, NoMemory>
    ensures pushed { IfOk result (λ yes. IsTrue yes → IsPushed dag.old dag.new defined) }
    ensures refused { IfOk result (λ yes. yes ≡ false → IsNext dag.old defined → ⊥) }
{
    let id = dag.len();
    if defined.id as usize != id || !dag.fits(&defined.node) {
        return Ok(false);
    }
    dag.push(defined.node)?;
    Ok(u64::from(dag.width_of(id)) == defined.width)
}

// Why no node may stand where this line is to be one.
fn reason_for(lines: &[CertLine]) -> Reason
    ensures { result ≡ reason_for_no_node lines.now }
{
    match lines {
        [CertLine::Assert(_) | CertLine::Check, ..] => Reason::Text,
        _ => Reason::Place,
    }
}

// Puts the next node behind the others.
fn take_node<'a>(
    dag: &mut Dag,
    lines: &'a [CertLine],
) -> Result<Result<&'a [CertLine], Fault>, NoMemory>
    ensures taken { IfOk result (λ taken. IfOk taken
        (λ rest. IsTakenNode dag.old dag.new lines.now rest.now)) }
    ensures refused { IfOk result (λ taken. IfErr taken (λ fault. fault.left ≤ length lines.now)) }
    ensures cause { IfOk result (λ taken. IfErr taken (IsNodeFault dag.old lines.now)) }
{
    let [CertLine::Node(node), rest @ ..] = lines else {
        return Ok(Err(Fault::at(lines, reason_for(lines))));
    };
    if push_node(dag, node.defined())? {
        Ok(Ok(rest))
    } else {
        Ok(Err(Fault::at(lines, Reason::Text)))
    }
}

// Takes so many nodes into a table that has none.
fn take_nodes<'a>(
    dag: &mut Dag,
    count: u64,
    lines: &'a [CertLine],
) -> Result<Result<&'a [CertLine], Fault>, NoMemory>
    requires { dag.old.nodes ≡ [] }
    ensures inputs { IfOk result (λ taken. IfOk taken (λ _. dag.new.inputs ≡ dag.old.inputs)) }
    ensures dag { IfOk result (λ taken. IfOk taken (λ _. IsDag dag.new)) }
    ensures count { IfOk result (λ taken. IfOk taken (λ _. length dag.new.nodes ≡ count)) }
    ensures taken { IfOk result (λ taken. IfOk taken
        (λ rest. lines.now ≡ node_lines dag.new ++ rest.now)) }
    ensures refused { IfOk result (λ taken. IfErr taken (λ fault. fault.left ≤ length lines.now)) }
    ensures cause { IfOk result (λ taken. IfErr taken (IsNodesFault dag.old.inputs count lines.now)) }
{
    let mut rest = lines;
    for _ in 0..count {
        match take_node(dag, rest)? {
            Ok(more) => rest = more,
            Err(fault) => return Ok(Err(fault)),
        }
    }
    Ok(Ok(rest))
}

/// The terms of so many nodes over so many inputs, and the lines behind them.
pub(crate) fn take_terms(
    alloc: Global,
    inputs: u32,
    count: u64,
    lines: &[CertLine],
) -> Result<Result<(Dag, &[CertLine]), Fault>, NoMemory>
    ensures inputs { IfOk result (λ taken. IfOk taken (λ terms. terms.0.inputs ≡ inputs)) }
    ensures dag { IfOk result (λ taken. IfOk taken (λ terms. IsDag terms.0)) }
    ensures count { IfOk result (λ taken. IfOk taken (λ terms. length terms.0.nodes ≡ count)) }
    ensures taken { IfOk result (λ taken. IfOk taken
        (λ terms. lines.now ≡ node_lines terms.0 ++ terms.1.now)) }
    ensures refused { IfOk result (λ taken. IfErr taken (λ fault. fault.left ≤ length lines.now)) }
    ensures cause { IfOk result (λ taken. IfErr taken (IsNodesFault inputs count lines.now)) }
{
    let mut dag = Dag::new(alloc, inputs as usize);
    match take_nodes(&mut dag, count, lines)? {
        Ok(rest) => Ok(Ok((dag, rest))),
        Err(fault) => Ok(Err(fault)),
    }
}
