//! What lines lack at a fork: that it has one way only, or a proof that its way or its values are all.

ghost use Rattle.std.specs.Prelude.{Contains};
ghost use Rattle.cert_complete.specs.Stopping.{IsStoppedAt};
ghost use Rattle.sym_state.specs.Values.{IsUnknown};

use crate::left_out::{LeftOut, choice_by, left_out, other_values, term_of};
use crate::proving::{Proof, prove, refuted_lines};
use crate::solving::Solver;
use crate::worth::{Worth, worth_at};
use bv_dag::Query;
use cert_audit::take_values;
use cert_form::{CertLine, Side, Sides};
use std::alloc::{AllocError as NoMemory, Global};
use sym_machine::Stop;
use sym_state::State;
use tree_core::Choice;

/// Lines that are to stand at a fork, in the place of so many.
#[derive(Drop)]
pub(crate) struct Filling {
    pub lines: Vec<CertLine>,
    pub taken: usize,
}

/// A fork's line, which is to stand in the place of so many, and the question that has to be refuted for it.
#[derive(Drop)]
pub(crate) struct Unproved {
    pub line: CertLine,
    pub taken: usize,
    pub question: Query,
}

/// What lines lack at a fork.
#[derive(Drop)]
pub(crate) enum Gap {
    Nothing,
    Lines(Filling),
    Proof(Unproved),
}

// Whether a proof begins with the first line.
fn begins_proof(lines: &[CertLine]) -> bool {
    matches!(lines, [CertLine::Tried | CertLine::Inputs(_), ..])
}

fn begins_split(lines: &[CertLine]) -> bool {
    matches!(lines, [CertLine::Split(_), ..])
}

// A fork's line and a proof behind it, as far as one is found.
fn with_proof<S: Solver>(
    alloc: Global,
    solver: &S,
    left: &LeftOut,
    line: CertLine,
    taken: usize,
) -> Result<Gap, NoMemory>
    requires { Contains left.now.run.condition left.now.last }
{
    let lines = match prove(alloc, solver, &left.run, left.last)? {
        Proof::Met => return Ok(Gap::Nothing),
        Proof::Tried => vec![in alloc; line, CertLine::Tried]?,
        Proof::Refuted(question, log) => refuted_lines(alloc, line, &question, &log)?,
        Proof::Open(question) => {
            return Ok(Gap::Proof(Unproved {
                line,
                taken,
                question,
            }));
        }
    };
    Ok(Gap::Lines(Filling { lines, taken }))
}

// What lacks where a run is to go on one way, by a line in the place of so many.
fn gap_of_way<S: Solver>(
    alloc: Global,
    solver: &S,
    run: &State,
    stop: Stop,
    choice: Choice,
    taken: usize,
) -> Result<Gap, NoMemory>
    requires { IsStoppedAt run.now stop }
{
    match left_out(run, stop, choice)? {
        Some(left) => with_proof(alloc, solver, &left, CertLine::One(choice), taken),
        None => Ok(Gap::Nothing),
    }
}

// What lacks where a run parts by these sides, without a proof that they are all.
fn gap_of_values<S: Solver>(
    alloc: Global,
    solver: &S,
    run: &State,
    term: usize,
    sides: &[Side],
) -> Result<Gap, NoMemory>
    requires unknown { IsUnknown run.now.terms 32 term }
{
    let (values, others) = take_values(alloc, sides)?;
    if values.is_empty() || !others.is_empty() {
        return Ok(Gap::Nothing);
    }
    let left = other_values(run, term, &values)?;
    let line = CertLine::Split(Sides::from_vec(Vec::from_slice(alloc, sides)?));
    with_proof(alloc, solver, &left, line, 1)
}

// What lacks behind the line of a split.
fn gap_behind_split<S: Solver>(
    alloc: Global,
    solver: &S,
    run: &State,
    stop: Stop,
    lines: &[CertLine],
) -> Result<Gap, NoMemory>
    requires { IsStoppedAt run.now stop }
{
    match (stop, lines) {
        (Stop::Pin { term, .. }, [CertLine::Split(sides), rest @ ..]) if !begins_proof(rest) => {
            gap_of_values(alloc, solver, run, term, sides.as_slice())
        }
        _ => Ok(Gap::Nothing),
    }
}

// What lacks at a fork whose term is worth so much. Where it has two numbers the run parts; where a split stands next, and it isn't
// known to have one, the split may be this fork's.
fn gap_by_worth<S: Solver>(
    alloc: Global,
    solver: &S,
    run: &State,
    stop: Stop,
    worth: Worth,
    lines: &[CertLine],
) -> Result<Gap, NoMemory>
    requires { IsStoppedAt run.now stop }
{
    let choice = match (choice_by(stop, worth.first), worth.second) {
        (Some(choice), None) => choice,
        (Some(choice), Some(second)) if second == worth.first => choice,
        _ => return gap_behind_split(alloc, solver, run, stop, lines),
    };
    match gap_of_way(alloc, solver, run, stop, choice, 0)? {
        Gap::Proof(_) if begins_split(lines) && worth.second.is_none() => {
            gap_behind_split(alloc, solver, run, stop, lines)
        }
        Gap::Nothing => gap_behind_split(alloc, solver, run, stop, lines),
        gap => Ok(gap),
    }
}

/// What lines lack at the fork at which a run has stopped. A line of a split may be a later fork's.
pub(crate) fn gap_at<S: Solver>(
    alloc: Global,
    solver: &S,
    run: &State,
    stop: Stop,
    lines: &[CertLine],
) -> Result<Gap, NoMemory>
    requires { IsStoppedAt run.now stop }
{
    let Some(term) = term_of(run, stop) else {
        return Ok(Gap::Nothing);
    };
    match lines {
        [] | [CertLine::CutNodes, ..] => return Ok(Gap::Nothing),
        [CertLine::One(_), rest @ ..] if begins_proof(rest) => return Ok(Gap::Nothing),
        [CertLine::One(choice), ..] => {
            return gap_of_way(alloc, solver, run, stop, *choice, 1);
        }
        _ => {}
    }
    match worth_at(alloc, solver, run, term, lines)? {
        Some(worth) => gap_by_worth(alloc, solver, run, stop, worth, lines),
        None => gap_behind_split(alloc, solver, run, stop, lines),
    }
}
