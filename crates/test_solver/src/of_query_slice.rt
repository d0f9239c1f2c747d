//! A question whose slice leaves out one of its terms, and an answer to it, merged into a sample.

use bv_dag::{BinaryOp, Comparison, Dag, Node, Query};
use byte_list::Bytes;
use query_slice::{merge, slice};
use std::alloc::{AllocError as NoMemory, Global};
use std::process::Abort;
use std::test::Fail;

/// Where the number stands, behind the four input bytes.
const NUMBER: usize = 4;

/// Four input bytes, the number, and a sum on which nothing asserted stands.
const TERMS: &[Node] = &[
    Node::Input(0),
    Node::Input(1),
    Node::Input(2),
    Node::Input(3),
    Node::Num {
        width: 8,
        value: 0xf0,
    },
    Node::Binary(BinaryOp::Add, 2, 3),
];

fn push(rt: &impl Abort, dag: &mut Dag, node: Node) -> Result<usize, NoMemory> {
    assert!(rt; dag.fits(&node));
    dag.push(node)
}

fn push_terms(rt: &impl Abort, dag: &mut Dag) -> Result<(), NoMemory> {
    for node in TERMS {
        push(rt, dag, *node)?;
    }
    Ok(())
}

/// The places of two bytes, of which the first is below the second.
type Pair = (usize, usize);

fn push_comparisons(rt: &impl Abort, dag: &mut Dag, pairs: &[Pair]) -> Result<(), NoMemory> {
    for (low, high) in pairs {
        push(rt, dag, Node::Compare(Comparison::Ult, *low, *high))?;
    }
    Ok(())
}

// Asks for each term from a place on to be 1.
fn ask_from(rt: &impl Abort, query: &mut Query, first: usize) -> Result<(), NoMemory> {
    for place in first..query.dag().len() {
        assert!(rt; place < query.dag().len() && query.dag().width_of(place) == 1);
        query.assert(place)?;
    }
    Ok(())
}

// The terms, and comparisons of these, which are asserted.
fn question(rt: &impl Abort, alloc: Global, pairs: &[Pair]) -> Result<Query, NoMemory> {
    let mut dag = Dag::new(alloc, 4);
    push_terms(rt, &mut dag)?;
    push_comparisons(rt, &mut dag, pairs)?;
    let mut query = Query::new(dag, Vec::new(alloc));
    ask_from(rt, &mut query, TERMS.len())?;
    Ok(query)
}

// The slice for the asserted term at a place of the list.
fn sliced(rt: &impl Abort, alloc: Global, query: &Query, index: usize) -> Result<Query, NoMemory> {
    assert!(rt; index < query.asserted().len());
    let asserted = query.asserted();
    slice(alloc, query.dag(), asserted, asserted[index])
}

// How many terms the slice asserts, and how many there are in its graph.
fn size(query: &Query) -> (usize, usize) {
    (query.asserted().len(), query.dag().len())
}

// The size of that slice.
fn sliced_size(
    rt: &impl Abort,
    alloc: Global,
    query: &Query,
    index: usize,
) -> Result<(usize, usize), NoMemory> {
    let part = sliced(rt, alloc, query, index)?;
    Ok(size(&part))
}

/// The bytes 0; 0 and 1; 1 and 2; 3; and, for the new term, 2.
const ROW: &[Pair] = &[(0, NUMBER), (0, 1), (1, 2), (3, NUMBER), (2, NUMBER)];

// An answer to a slice, merged into a sample.
fn merged(rt: &impl Abort, alloc: Global, part: &Query) -> Result<Bytes, NoMemory> {
    let sample = Bytes::from_slice(alloc, &[0x10, 0x20, 0x30, 0x40])?;
    let answer = Bytes::from_slice(alloc, &[0x01, 0x02, 0x03, 0x00])?;
    assert!(rt; part.inputs() == 4 && sample.len() == 4 && answer.len() == 4);
    merge(alloc, &sample, &answer, part)
}

// Three bytes, the number and four comparisons are reached, so the answer's first three bytes are taken.
fn check_row(rt: &impl Abort, alloc: Global, query: &Query, part: &Query) -> Result<(), NoMemory> {
    assert_eq!(rt; size(part), (4, 8));
    let merged = merged(rt, alloc, part)?;
    assert_eq!(rt; merged.as_slice(), [0x01, 0x02, 0x03, 0x40].as_slice());
    assert!(rt; query.holds(alloc, merged.as_slice())?);
    Ok(())
}

#[test]
fn all_but_the_fourth_byte_is_reached(rt: HostRuntime) -> Result<(), Fail> {
    let query = question(&rt, rt.alloc(), ROW)?;
    let part = sliced(&rt, rt.alloc(), &query, 4)?;
    check_row(&rt, rt.alloc(), &query, &part)?;
    Ok(())
}

#[test]
fn a_term_on_no_byte_reaches_only_itself(rt: HostRuntime) -> Result<(), Fail> {
    let pairs = [(NUMBER, NUMBER), (0, 1), (NUMBER, NUMBER)];
    let query = question(&rt, rt.alloc(), &pairs)?;
    for (index, want) in [(2, (1, 2)), (1, (1, 3))] {
        assert_eq!(rt; sliced_size(&rt, rt.alloc(), &query, index)?, want);
    }
    Ok(())
}

// Three bytes, the number and three comparisons: what nothing asserted stands on isn't picked.
#[test]
fn where_each_term_is_reached_each_is_asserted(rt: HostRuntime) -> Result<(), Fail> {
    let query = question(&rt, rt.alloc(), &[(0, NUMBER), (0, 1), (1, 2)])?;
    assert_eq!(rt; sliced_size(&rt, rt.alloc(), &query, 2)?, (3, 7));
    Ok(())
}
