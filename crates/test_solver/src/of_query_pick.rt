//! Terms and a question picked from a table in which other terms stand too.

use bv_dag::{BinaryOp, Comparison, Node, Query};
use query_pick::{Picked, pick, pick_terms};
use std::alloc::{AllocError as NoMemory, Global};
use std::process::Abort;
use std::test::Fail;
use term_table::Terms;

// Puts these behind the others.
fn push_all(rt: &impl Abort, terms: &mut Terms, nodes: &[Node]) -> Result<(), NoMemory> {
    for node in nodes {
        assert!(rt; terms.fits(node));
        terms.push(*node)?;
    }
    Ok(())
}

/// Of the first of two bytes, at 4 that it is the letter, and at 6 that it isn't above it; and a product of the second.
const TESTS: &[Node] = &[
    Node::Input(0),
    Node::Input(1),
    Node::Num {
        width: 8,
        value: 65,
    },
    Node::Binary(BinaryOp::Mul, 1, 2),
    Node::Compare(Comparison::Eq, 0, 2),
    Node::Compare(Comparison::Ult, 2, 0),
    Node::Not(5),
];

// A question of two terms of one bit, of which the first is asked twice.
fn picked(
    rt: &impl Abort,
    alloc: Global,
    terms: &Terms,
    first: usize,
    second: usize,
) -> Result<Query, NoMemory> {
    assert!(rt; first < terms.len() && terms.width_of(first) == 1);
    assert!(rt; second < terms.len() && terms.width_of(second) == 1);
    pick(alloc, terms, &[first, second, first])
}

// The question has the input byte, the letter, the two tests and the negation, and holds on the letter.
fn is_of_tests(alloc: Global, query: &Query) -> Result<bool, NoMemory> {
    Ok(
        query.inputs() == 2
            && query.dag().len() == 5
            && query.asserted().len() == 3
            && query.holds(alloc, &[65, 0])?
            && !query.holds(alloc, &[64, 0])?
            && !query.holds(alloc, &[66, 0])?,
    )
}

fn picks_tests(rt: &impl Abort, alloc: Global, terms: &Terms) -> Result<bool, NoMemory> {
    let query = picked(rt, alloc, terms, 6, 4)?;
    is_of_tests(alloc, &query)
}

// Whether the question in which nothing is asked has no terms, and holds.
fn picks_nothing(alloc: Global, terms: &Terms) -> Result<bool, NoMemory> {
    let query = pick(alloc, terms, &[])?;
    Ok(query.inputs() == 2 && query.dag().is_empty() && query.holds(alloc, &[7, 0])?)
}

#[test]
fn only_what_is_asked_for_is_picked(rt: HostRuntime) -> Result<(), Fail> {
    let mut terms = Terms::new(rt.alloc(), 2);
    push_all(&rt, &mut terms, TESTS)?;
    assert!(rt; picks_tests(&rt, rt.alloc(), &terms)? && picks_nothing(rt.alloc(), &terms)?);
    Ok(())
}

/// Of the first of two bytes, at 3 the word that it is, and at 5 its sum with the letter; and the complement of the second.
const WORDS: &[Node] = &[
    Node::Input(1),
    Node::Not(0),
    Node::Input(0),
    Node::Extend {
        by: 24,
        signed: true,
        operand: 2,
    },
    Node::Num {
        width: 8,
        value: 65,
    },
    Node::Binary(BinaryOp::Add, 2, 4),
];

// Whether a picked term is so wide, and worth this on two bytes.
fn is_worth(
    alloc: Global,
    picked: &Picked,
    index: usize,
    width: u32,
    want: u64,
) -> Result<bool, NoMemory> {
    let Some(id) = picked.ids.get(index) else {
        return Ok(false);
    };
    let id = *id;
    if id >= picked.graph.len() || picked.graph.inputs() != 2 {
        return Ok(false);
    }
    let number = picked.graph.eval(alloc, id, &[0xc8, 7])?;
    Ok(picked.graph.width_of(id) == width && number == want)
}

// The graph has the input byte, the word, the letter and the sum.
fn is_of_words(alloc: Global, picked: &Picked) -> Result<bool, NoMemory> {
    Ok(
        picked.graph.len() == 4
            && picked.ids.len() == 2
            && is_worth(alloc, picked, 0, 8, 9)?
            && is_worth(alloc, picked, 1, 32, 0xffff_ffc8)?,
    )
}

fn picks_words(rt: &impl Abort, alloc: Global, terms: &Terms) -> Result<bool, NoMemory> {
    assert!(rt; 5 < terms.len());
    let picked = pick_terms(alloc, terms, &[5, 3])?;
    is_of_words(alloc, &picked)
}

#[test]
fn terms_of_other_widths_are_picked_together(rt: HostRuntime) -> Result<(), Fail> {
    let mut terms = Terms::new(rt.alloc(), 2);
    push_all(&rt, &mut terms, WORDS)?;
    assert!(rt; picks_words(&rt, rt.alloc(), &terms)?);
    Ok(())
}
