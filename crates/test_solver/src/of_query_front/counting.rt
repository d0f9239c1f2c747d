//! Questions about one term each, and by what they are answered, as the counts tell it.

use crate::of_query_front::terms::Term::{Byte, Is, Longer, Num, Of, Wide};
use crate::of_query_front::terms::{Term, push_term};
use bv_dag::BinaryOp::Add;
use bv_dag::Comparison::Eq;
use bv_dag::{Dag, Query};
use byte_list::Bytes;
use query_front::{Asked, Counts, Shared, ask_part, part_of};
use std::alloc::{AllocError as NoMemory, Global};
use std::process::Abort;
use std::sync::Wait;
use std::test::Fail;

/// What is answered.
#[derive(Clone, Copy, Debug, PartialEq, Eq)]
enum Reply {
    Sat,
    Unsat,
    Spent,
}

/// A term over four input bytes, the sample of the run that asks for it to be 1, the budget, and the reply.
type Question = (Term, [u8; 4], u32, Reply);

const B0: Term = Byte(0);

const B1: Term = Byte(1);

const IS_ZERO: Term = Is(Eq, &B0, &Num(0));

const ARE_ALIKE: Term = Is(Eq, &B0, &B1);

const B1_IS_5: Term = Is(Eq, &B1, &Num(5));

const SUM_IS_5: Term = Is(Eq, &Of(Add, &B0, &B1), &Num(5));

// Two bytes are 510 at most.
const SUM_IS_511: Term = Is(
    Eq,
    &Of(Add, &Longer(8, &B0), &Longer(8, &B1)),
    &Wide(16, 511),
);

// The part of a condition of one term that matters for it.
fn part_for(rt: &impl Abort, alloc: Global, term: &Term) -> Result<Query, NoMemory> {
    let mut dag = Dag::new(alloc, 4);
    let new = push_term(rt, &mut dag, term)?;
    assert!(rt; new < dag.len() && dag.width_of(new) == 1);
    part_of(alloc, &dag, Vec::new(alloc), new)
}

// The reply to a question that is asked of a run with no condition yet.
fn reply_to(
    rt: &(impl Abort + Wait),
    alloc: Global,
    shared: &Shared,
    question: &Question,
) -> Result<Reply, NoMemory> {
    let (term, sample, budget, _) = question;
    let part = part_for(rt, alloc, term)?;
    let sample = Bytes::from_slice(alloc, sample)?;
    assert!(rt; sample.len() == part.inputs());
    Ok(match ask_part(rt, alloc, shared, part, &sample, *budget)? {
        Asked::Sat(_) => Reply::Sat,
        Asked::Unsat => Reply::Unsat,
        Asked::Spent(_, _) => Reply::Spent,
    })
}

// Asks the questions one after the other.
fn check_replies(
    rt: &(impl Abort + Wait),
    alloc: Global,
    shared: &Shared,
    questions: &[Question],
) -> Result<(), NoMemory> {
    for (at, question) in questions.iter().enumerate() {
        let reply = reply_to(rt, alloc, shared, question)?;
        assert_eq!(rt; reply, question.3, "question {at}");
    }
    Ok(())
}

// By what the questions are answered, asked one after the other.
fn counted(
    rt: &(impl Abort + Wait),
    alloc: Global,
    questions: &[Question],
) -> Result<Counts, NoMemory> {
    let shared = Shared::new(alloc)?;
    check_replies(rt, alloc, &shared, questions)?;
    Ok(shared.counts())
}

const ONE_BYTE: &[Question] = &[(IS_ZERO, [0; 4], 0, Reply::Sat)];

#[test]
fn one_byte_is_decided_by_its_values(rt: HostRuntime) -> Result<(), Fail> {
    let counts = Counts {
        cached: 0,
        sampled: 0,
        decided: 1,
        spent: 0,
    };
    assert_eq!(rt; counted(&rt, rt.alloc(), ONE_BYTE)?, counts);
    Ok(())
}

/// The run's own sample meets the first. The second is decided, and its byte, put into the sample of the third's run, meets the third.
const SAMPLED: &[Question] = &[
    (ARE_ALIKE, [0; 4], 0, Reply::Sat),
    (B1_IS_5, [9; 4], 0, Reply::Sat),
    (SUM_IS_5, [0; 4], 0, Reply::Sat),
];

#[test]
fn samples_answer(rt: HostRuntime) -> Result<(), Fail> {
    let counts = Counts {
        cached: 0,
        sampled: 2,
        decided: 1,
        spent: 0,
    };
    assert_eq!(rt; counted(&rt, rt.alloc(), SAMPLED)?, counts);
    Ok(())
}

/// A budget of no clause leaves it open. So it is decided again, and from then on it is known that no bytes meet it.
const REFUTED: &[Question] = &[
    (SUM_IS_511, [0; 4], 0, Reply::Spent),
    (SUM_IS_511, [0; 4], 1000, Reply::Unsat),
    (SUM_IS_511, [0; 4], 0, Reply::Unsat),
    (SUM_IS_511, [0; 4], 0, Reply::Unsat),
    (SUM_IS_511, [0; 4], 0, Reply::Unsat),
];

#[test]
fn what_no_bytes_meet_is_kept(rt: HostRuntime) -> Result<(), Fail> {
    let counts = Counts {
        cached: 3,
        sampled: 0,
        decided: 2,
        spent: 1,
    };
    assert_eq!(rt; counted(&rt, rt.alloc(), REFUTED)?, counts);
    Ok(())
}

/// The same budget isn't spent twice on a question.
const SPENT: &[Question] = &[
    (SUM_IS_511, [0; 4], 0, Reply::Spent),
    (SUM_IS_511, [0; 4], 0, Reply::Spent),
    (SUM_IS_511, [1; 4], 0, Reply::Spent),
];

#[test]
fn what_a_budget_was_spent_on_is_kept(rt: HostRuntime) -> Result<(), Fail> {
    let counts = Counts {
        cached: 2,
        sampled: 0,
        decided: 1,
        spent: 1,
    };
    assert_eq!(rt; counted(&rt, rt.alloc(), SPENT)?, counts);
    Ok(())
}
