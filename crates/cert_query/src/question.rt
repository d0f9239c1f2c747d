//! Taking the question that lines give.

ghost use Rattle.std.specs.Prelude.{◌≡◌, ◌++◌, ◌≤◌, IfOk, IfErr, length};
ghost use Rattle.bv_dag.specs.Graphs.{IsDag};
ghost use Rattle.cert_query.specs.QuestionFaults.{IsAssertedFault, IsBodyFault, IsQuestionFault};
ghost use Rattle.cert_query.specs.QuestionLines.{assertion_lines, body_lines, question_lines};

use crate::assertions::{take_asserted, take_end};
use crate::fault::Fault;
use crate::heading::take_heading;
use crate::terms::take_terms;
use bv_dag::{Dag, Query};
use cert_form::CertLine;
use std::alloc::{AllocError as NoMemory, Global};

/// What stands at the beginning of some lines, and the lines behind it.
#[derive(Debug, Drop)]
pub struct Question<'a> {
    pub query: Query,
    pub rest: &'a [CertLine],
}

// The question that asserts some of these terms.
fn ask<'a>(
    alloc: Global,
    dag: Dag,
    lines: &'a [CertLine],
) -> Result<Result<Question<'a>, Fault>, NoMemory>
    ensures graph { IfOk result (λ taken. IfOk taken (λ q. q.query.graph ≡ dag)) }
    ensures taken { IfOk result (λ taken. IfOk taken
        (λ q. lines.now ≡ assertion_lines q.query.asserted ++ q.rest.now)) }
    ensures refused { IfOk result (λ taken. IfErr taken (λ fault. fault.left ≤ length lines.now)) }
    ensures cause { IfOk result (λ taken. IfErr taken (IsAssertedFault dag lines.now)) }
{
    let (asserted, rest) = match take_asserted(alloc, &dag, lines)? {
        Ok(taken) => taken,
        Err(fault) => return Ok(Err(fault)),
    };
    match take_end(rest) {
        Ok(rest) => Ok(Ok(Question {
            query: Query::new(dag, asserted),
            rest,
        })),
        Err(fault) => Ok(Err(fault)),
    }
}

// The question of so many inputs and nodes.
fn take_body<'a>(
    alloc: Global,
    inputs: u32,
    nodes: u64,
    lines: &'a [CertLine],
) -> Result<Result<Question<'a>, Fault>, NoMemory>
    ensures inputs { IfOk result (λ taken. IfOk taken (λ q. q.query.graph.inputs ≡ inputs)) }
    ensures nodes { IfOk result (λ taken. IfOk taken (λ q. length q.query.graph.nodes ≡ nodes)) }
    ensures taken { IfOk result (λ taken. IfOk taken
        (λ q. lines.now ≡ body_lines q.query ++ q.rest.now)) }
    ensures refused { IfOk result (λ taken. IfErr taken (λ fault. fault.left ≤ length lines.now)) }
    ensures cause { IfOk result (λ taken. IfErr taken (IsBodyFault inputs nodes lines.now)) }
{
    match take_terms(alloc, inputs, nodes, lines)? {
        Ok((dag, rest)) => ask(alloc, dag, rest),
        Err(fault) => Ok(Err(fault)),
    }
}

/// The question that the first lines give.
pub fn take_question<'a>(
    alloc: Global,
    lines: &'a [CertLine],
) -> Result<Result<Question<'a>, Fault>, NoMemory>
    ensures taken { IfOk result (λ taken. IfOk taken
        (λ q. lines.now ≡ question_lines q.query ++ q.rest.now)) }
    ensures refused { IfOk result (λ taken. IfErr taken (λ fault. fault.left ≤ length lines.now)) }
    ensures cause { IfOk result (λ taken. IfErr taken (IsQuestionFault lines.now)) }
{
    match take_heading(lines) {
        Ok((inputs, nodes, rest)) => take_body(alloc, inputs, nodes, rest),
        Err(fault) => Ok(Err(fault)),
    }
}
