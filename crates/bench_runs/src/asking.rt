//! Questions asked term by term, as a run comes to them: each after those before it, over answers and samples that all share.

use crate::files::read_question;
use anyhow::{Result, bail};
use bv_dag::Query;
use byte_list::Bytes;
use query_front::{Asked, Shared, ask_part, part_of};
use smt_text::LeafText;
use std::alloc::Global;
use std::rt;
use std::sync::Wait;

/// How a question ended.
#[derive(Clone, Copy, Debug, PartialEq, Eq)]
enum Ended {
    Found,
    Refuted,
    Spent,
}

// What is answered to one more term of a condition that the sample meets.
fn ask_term(
    rt: &impl Wait,
    alloc: Global,
    shared: &Shared,
    condition: &Query,
    sample: &Bytes,
    term: usize,
    budget: u32,
) -> Result<Asked> {
    if term >= condition.dag().len() || condition.dag().width_of(term) != 1 {
        bail!("a term is no bit");
    }
    let asserted = Vec::from_slice(alloc, condition.asserted())?;
    let part = part_of(alloc, condition.dag(), asserted, term)?;
    if sample.len() != part.inputs() {
        bail!("a sample has other bytes");
    }
    Ok(ask_part(rt, alloc, shared, part, sample, budget)?)
}

// Asserts one more term.
fn assert_term(condition: &mut Query, term: usize) -> Result<()> {
    if term >= condition.dag().len() || condition.dag().width_of(term) != 1 {
        bail!("a term is no bit");
    }
    condition.assert(term)?;
    Ok(())
}

// Asks these terms in their order, until one can't hold.
fn ask_terms(
    rt: &impl Wait,
    alloc: Global,
    shared: &Shared,
    condition: &mut Query,
    sample: &mut Bytes,
    terms: &[usize],
    budget: u32,
) -> Result<Ended> {
    for term in terms {
        match ask_term(rt, alloc, shared, condition, sample, *term, budget)? {
            Asked::Sat(bytes) => *sample = bytes,
            Asked::Unsat => return Ok(Ended::Refuted),
            Asked::Spent(_, _) => return Ok(Ended::Spent),
        }
        assert_term(condition, *term)?;
    }
    Ok(Ended::Found)
}

// Asks the terms of a question.
fn ask_in_turn(
    rt: &impl Wait,
    alloc: Global,
    shared: &Shared,
    question: &Query,
    budget: u32,
) -> Result<Ended> {
    let mut sample = Bytes::from_vec(vec![in alloc; 0; question.inputs()]?);
    let mut condition = Query::new(question.dag().clone()?, Vec::new(alloc));
    let terms = question.asserted();
    ask_terms(
        rt,
        alloc,
        shared,
        &mut condition,
        &mut sample,
        terms,
        budget,
    )
}

// How the questions end, each asked so many times.
fn ends_of(
    rt: &impl Wait,
    alloc: Global,
    shared: &Shared,
    questions: &[LeafText],
    budget: u32,
    rounds: u32,
) -> Result<Vec<Ended>> {
    let mut ends = Vec::new(alloc);
    for _ in 0..rounds {
        for question in questions {
            ends.push(ask_in_turn(rt, alloc, shared, &question.condition, budget)?)?;
        }
    }
    Ok(ends)
}

fn count(ends: &[Ended], end: Ended) -> usize {
    ends.iter().filter(|e| **e == end).count()
}

// How many questions ended in each way, and by what they were answered: a question that was asked in turn was answered once
// for each of its terms.
fn print_ends(rt: &impl Print, shared: &Shared, ends: &[Ended]) -> Result<()> {
    let counts = shared.counts();
    println!(rt;
        "found {} refuted {} spent {} cached {} sampled {} decided {}",
        count(ends, Ended::Found),
        count(ends, Ended::Refuted),
        count(ends, Ended::Spent),
        counts.cached,
        counts.sampled,
        counts.decided
    )?;
    Ok(())
}

fn ask_all<R: Print + AllocGlobal + Wait>(
    rt: &R,
    questions: &[LeafText],
    budget: u32,
    rounds: u32,
) -> Result<()> {
    let shared = Shared::new(rt.alloc())?;
    let ends = ends_of(rt, rt.alloc(), &shared, questions, budget, rounds)?;
    print_ends(rt, &shared, &ends)
}

fn read_questions<R: rt::Files + Print + AllocGlobal>(
    rt: &R,
    files: &[String],
) -> Result<Vec<LeafText>> {
    let mut questions = Vec::new(rt.alloc());
    for file in files {
        questions.push(read_question(rt, file)?)?;
    }
    Ok(questions)
}

/// Asks the questions in these files so many times, and prints how they ended and by what they were answered.
pub fn print_asked<R: rt::Files + Print + AllocGlobal + Wait>(
    rt: &R,
    budget: u32,
    rounds: u32,
    files: &[String],
) -> Result<()> {
    let questions = read_questions(rt, files)?;
    ask_all(rt, &questions, budget, rounds)
}
