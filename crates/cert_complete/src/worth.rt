//! What the term of a fork is worth on assignments of its run.

ghost use Rattle.std.specs.Prelude.{◌<◌, length};

use crate::ahead::{input_ahead, second_input};
use crate::solving::{Solved, Solver};
use byte_list::Bytes;
use cert_form::CertLine;
use query_pick::{Picked, pick, pick_terms};
use std::alloc::{AllocError as NoMemory, Global};
use sym_state::{State, listed};

/// What a fork's term is worth on an assignment of its run, and on another that a split by the term would have on its second side.
#[derive(Clone, Copy, Debug)]
pub(crate) struct Worth {
    pub first: u64,
    pub second: Option<u64>,
}

// What a term is worth on an assignment, which has to have a byte for each input.
fn number_on(alloc: Global, run: &State, term: usize, input: &[u8]) -> Result<Option<u64>, NoMemory>
    requires { term < length run.now.terms.nodes }
{
    let Picked { graph, ids } = pick_terms(alloc, run.terms(), &[term])?;
    if input.len() != graph.inputs() {
        return Ok(None);
    }
    Ok(Some(graph.eval(alloc, ids[0], input)?))
}

/// An assignment that a run stands for, if one is found.
pub(crate) fn find_input<S: Solver>(
    alloc: Global,
    solver: &S,
    run: &State,
) -> Result<Option<Bytes>, NoMemory> {
    let condition = listed(alloc, run.condition())?;
    let question = pick(alloc, run.terms(), &condition)?;
    match solver.solve(alloc, &question)? {
        Solved::Found(input) => Ok(Some(input)),
        Solved::Refuted(_) | Solved::Open => Ok(None),
    }
}

// What a term is worth on an assignment that lines ahead give, or that is found.
fn first_number<S: Solver>(
    alloc: Global,
    solver: &S,
    run: &State,
    term: usize,
    lines: &[CertLine],
) -> Result<Option<u64>, NoMemory>
    requires { term < length run.now.terms.nodes }
{
    if let Some(input) = input_ahead(lines) {
        return number_on(alloc, run, term, input.as_slice());
    }
    match find_input(alloc, solver, run)? {
        Some(input) => number_on(alloc, run, term, input.as_slice()),
        None => Ok(None),
    }
}

/// What the term of a fork is worth, if an assignment of its run is known.
pub(crate) fn worth_at<S: Solver>(
    alloc: Global,
    solver: &S,
    run: &State,
    term: usize,
    lines: &[CertLine],
) -> Result<Option<Worth>, NoMemory>
    requires { term < length run.now.terms.nodes }
{
    let Some(first) = first_number(alloc, solver, run, term, lines)? else {
        return Ok(None);
    };
    let second = match second_input(lines) {
        Some(input) => number_on(alloc, run, term, input.as_slice())?,
        None => None,
    };
    Ok(Some(Worth { first, second }))
}
