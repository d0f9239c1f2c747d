//! Answers that are offered, and what is found by them.

use bv_dag::{Comparison, Dag, Node, Query};
use byte_list::Bytes;
use model_pool::{BLOCK_SIZE, MOST_BLOCKS, Pool, TRIED_BLOCKS};
use std::alloc::{AllocError as NoMemory, Global};
use std::process::Abort;
use std::sync::Wait;
use std::test::Fail;

/// Whether the first input byte is 65, and whether the second is 7.
const TESTS: &[Node] = &[
    Node::Input(0),
    Node::Num {
        width: 8,
        value: 65,
    },
    Node::Compare(Comparison::Eq, 0, 1),
    Node::Input(1),
    Node::Num { width: 8, value: 7 },
    Node::Compare(Comparison::Eq, 3, 4),
];

/// Where the first test stands.
const IS_65: usize = 2;

/// Where the second does.
const IS_7: usize = 5;

/// The digest of the question whose answer is looked for.
const OFFERED: u64 = 1;

/// The digest of a question to which no answer is offered.
const OTHER: u64 = 2;

/// A pool keeps so many answers.
const KEPT: u64 = (BLOCK_SIZE * MOST_BLOCKS) as u64;

/// So many of them, the newest, are tried on any question.
const TRIED: u64 = (BLOCK_SIZE * TRIED_BLOCKS) as u64;

fn push_all(rt: &impl Abort, dag: &mut Dag, nodes: &[Node]) -> Result<(), NoMemory> {
    for node in nodes {
        assert!(rt; dag.fits(node));
        dag.push(*node)?;
    }
    Ok(())
}

// Asks for a term to be 1.
fn ask(rt: &impl Abort, query: &mut Query, id: usize) -> Result<(), NoMemory> {
    assert!(rt; id < query.dag().len() && query.dag().width_of(id) == 1);
    query.assert(id)
}

// The question whether the first byte is 65, which names no other.
fn of_one(rt: &impl Abort, alloc: Global) -> Result<Query, NoMemory> {
    let mut dag = Dag::new(alloc, 2);
    push_all(rt, &mut dag, &TESTS[..=IS_65])?;
    let mut query = Query::new(dag, Vec::new(alloc));
    ask(rt, &mut query, IS_65)?;
    Ok(query)
}

// The question whether both tests hold.
fn of_both(rt: &impl Abort, alloc: Global) -> Result<Query, NoMemory> {
    let mut dag = Dag::new(alloc, 2);
    push_all(rt, &mut dag, TESTS)?;
    let mut query = Query::new(dag, Vec::new(alloc));
    ask(rt, &mut query, IS_7)?;
    ask(rt, &mut query, IS_65)?;
    Ok(query)
}

// What workers share is `Send` and `Sync`.
fn takes_shared<T: Send + Sync>(_value: &T) {}

// Offers the same answer to so many questions: their digests are this one and those after it.
fn offer(
    rt: &impl Wait,
    alloc: Global,
    pool: &Pool,
    query: &Query,
    digest: u64,
    count: u64,
    answer: [u8; 2],
) -> Result<(), NoMemory> {
    let answer = Bytes::from_slice(alloc, &answer)?;
    for later in 0..count {
        pool.offer(rt, alloc, query, digest.wrapping_add(later), &answer);
    }
    Ok(())
}

// Whether just this is found for a question with this digest and a sample.
fn is_found(
    rt: &impl Wait,
    alloc: Global,
    pool: &Pool,
    query: &Query,
    digest: u64,
    sample: [u8; 2],
    want: Option<&[u8]>,
) -> Result<bool, NoMemory> {
    let sample = Bytes::from_slice(alloc, &sample)?;
    let found = pool.find(rt, alloc, query, digest, &sample)?;
    let bytes = match &found {
        Some(found) => Some(found.as_slice()),
        None => None,
    };
    Ok(bytes == want)
}

// The byte that one question names is put into the sample of the other, and the one that it doesn't name isn't.
fn check_put(rt: &(impl Abort + Wait), alloc: Global) -> Result<(), NoMemory> {
    let (one, both, pool) = (of_one(rt, alloc)?, of_both(rt, alloc)?, Pool::new(alloc)?);
    takes_shared(&pool);
    assert!(rt; is_found(rt, alloc, &pool, &both, OTHER, [0, 7], None)?);
    offer(rt, alloc, &pool, &one, 10, 1, [66, 7])?;
    assert!(rt; is_found(rt, alloc, &pool, &both, OTHER, [0, 7], None)?);
    offer(rt, alloc, &pool, &one, OFFERED, 1, [65, 0])?;
    assert!(rt; is_found(rt, alloc, &pool, &both, OTHER, [0, 7], Some(&[65, 7]))?);
    assert!(rt; is_found(rt, alloc, &pool, &both, OTHER, [0, 0], None)?);
    Ok(())
}

#[test]
fn an_answer_is_put_into_a_sample(rt: HostRuntime) -> Result<(), Fail> {
    check_put(&rt, rt.alloc())?;
    Ok(())
}

// A full pool takes another answer, tries it on another question until some came after it, and lets it go once as many did as it
// keeps.
fn check_renewed(rt: &(impl Abort + Wait), alloc: Global) -> Result<(), NoMemory> {
    let (one, pool) = (of_one(rt, alloc)?, Pool::new(alloc)?);
    offer(rt, alloc, &pool, &one, 10_000, KEPT, [66, 0])?;
    offer(rt, alloc, &pool, &one, OFFERED, 1, [65, 0])?;
    assert!(rt; is_found(rt, alloc, &pool, &one, OTHER, [0, 0], Some(&[65, 0]))?);
    offer(rt, alloc, &pool, &one, 20_000, TRIED, [66, 0])?;
    assert!(rt; is_found(rt, alloc, &pool, &one, OTHER, [0, 0], None)?);
    assert!(rt; is_found(rt, alloc, &pool, &one, OFFERED, [0, 0], Some(&[65, 0]))?);
    offer(rt, alloc, &pool, &one, 30_000, KEPT, [66, 0])?;
    assert!(rt; is_found(rt, alloc, &pool, &one, OFFERED, [0, 0], None)?);
    Ok(())
}

#[test]
fn a_pool_renews(rt: HostRuntime) -> Result<(), Fail> {
    check_renewed(&rt, rt.alloc())?;
    Ok(())
}

// However often one question is answered anew, an answer before it is still tried on others. An answer that went is taken again.
fn check_offered_again(rt: &(impl Abort + Wait), alloc: Global) -> Result<(), NoMemory> {
    let (one, pool) = (of_one(rt, alloc)?, Pool::new(alloc)?);
    offer(rt, alloc, &pool, &one, OFFERED, 1, [65, 0])?;
    for _ in 0..KEPT {
        offer(rt, alloc, &pool, &one, 10, 1, [66, 0])?;
    }
    assert!(rt; is_found(rt, alloc, &pool, &one, OTHER, [0, 0], Some(&[65, 0]))?);
    offer(rt, alloc, &pool, &one, 10_000, KEPT, [66, 0])?;
    assert!(rt; is_found(rt, alloc, &pool, &one, OFFERED, [0, 0], None)?);
    offer(rt, alloc, &pool, &one, OFFERED, 1, [65, 0])?;
    assert!(rt; is_found(rt, alloc, &pool, &one, OFFERED, [0, 0], Some(&[65, 0]))?);
    Ok(())
}

#[test]
fn the_same_question_pushes_none_out(rt: HostRuntime) -> Result<(), Fail> {
    check_offered_again(&rt, rt.alloc())?;
    Ok(())
}
