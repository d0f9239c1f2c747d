//! What terms of a table are worth: values from outside.

use bv_dag::{BinaryOp, Node};
use std::alloc::{AllocError as NoMemory, Global};
use std::process::Abort;
use std::test::Fail;
use term_table::Terms;

/// An input byte, a number, their sum and their difference.
const TERMS: &[Node] = &[
    Node::Input(0),
    Node::Num { width: 8, value: 3 },
    Node::Binary(BinaryOp::Add, 0, 1),
    Node::Binary(BinaryOp::Sub, 1, 0),
];

fn push_all(rt: &impl Abort, terms: &mut Terms) -> Result<(), NoMemory> {
    for node in TERMS {
        assert!(rt; terms.fits(node));
        terms.push(*node)?;
    }
    Ok(())
}

// Whether a term is worth this on a byte.
fn is_worth(
    alloc: Global,
    terms: &Terms,
    id: usize,
    input: u8,
    want: u64,
) -> Result<bool, NoMemory> {
    if id >= terms.len() || terms.inputs() != 1 {
        return Ok(false);
    }
    Ok(terms.value_of(alloc, id, &[input])? == want)
}

#[test]
fn terms_are_worth_what_the_standard_says(rt: HostRuntime) -> Result<(), Fail> {
    let mut terms = Terms::new(rt.alloc(), 1);
    push_all(&rt, &mut terms)?;
    assert!(rt;
        is_worth(rt.alloc(), &terms, 2, 254, 1)? && is_worth(rt.alloc(), &terms, 3, 5, 254)?
    );
    Ok(())
}
