//! Proofs that a run stands for no assignment, as far as a solver finds them, and their lines.

ghost use Rattle.std.specs.Prelude.{Contains};

use crate::solving::{Solved, Solver};
use bv_dag::Query;
use cert_audit::{is_excluded, part_of};
use cert_form::{CertLine, LearntClause};
use cert_query::push_question;
use cnf_form::Log;
use std::alloc::{AllocError as NoMemory, Global};
use sym_state::State;

/// What was found of a run.
#[derive(Drop)]
pub(crate) enum Proof {
    /// The values of one byte show that it stands for no assignment.
    Tried,
    /// These clauses refute the question.
    Refuted(Query, Log),
    /// It stands for an assignment.
    Met,
    /// This question is to be refuted.
    Open(Query),
}

// What a solver makes of a question. One over as many inputs as no line can say stays open.
fn solved<S: Solver>(alloc: Global, solver: &S, question: Query) -> Result<Proof, NoMemory> {
    match solver.solve(alloc, &question)? {
        Solved::Found(_) => Ok(Proof::Met),
        Solved::Refuted(log) => Ok(Proof::Refuted(question, log)),
        Solved::Open => Ok(Proof::Open(question)),
    }
}

/// What is found of a run, of which this term was asserted last.
pub(crate) fn prove<S: Solver>(
    alloc: Global,
    solver: &S,
    run: &State,
    new: usize,
) -> Result<Proof, NoMemory>
    requires { Contains run.now.condition new }
{
    let part = part_of(alloc, run, new)?;
    if is_excluded(alloc, &part)? {
        return Ok(Proof::Tried);
    }
    solved(alloc, solver, part)
}

// Appends the lines of clauses.
fn push_clauses(alloc: Global, lines: &mut Vec<CertLine>, log: &Log) -> Result<(), NoMemory> {
    for step in log.steps() {
        let learnt = LearntClause::new(alloc, step.clone()?)?;
        lines.push(CertLine::Clause(learnt))?;
    }
    Ok(())
}

/// The line of a fork and, behind it, those of a question and of clauses that refute it.
pub(crate) fn refuted_lines(
    alloc: Global,
    line: CertLine,
    question: &Query,
    log: &Log,
) -> Result<Vec<CertLine>, NoMemory> {
    let mut lines = vec![in alloc; line]?;
    if question.inputs() <= u32::MAX as usize {
        push_question(alloc, &mut lines, question)?;
        push_clauses(alloc, &mut lines, log)?;
    }
    Ok(lines)
}
