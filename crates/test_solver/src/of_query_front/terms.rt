//! Terms as trees, as the rows of a table have them.

use bv_dag::{BinaryOp, Comparison, Dag, Node};
use std::alloc::{AllocError as NoMemory, Global};
use std::process::Abort;

/// A term over input bytes.
#[derive(Clone, Copy)]
pub enum Term {
    /// The input byte at this place.
    Byte(usize),
    /// A number of eight bits.
    Num(u64),
    /// A number of so many bits.
    Wide(u32, u64),
    /// One bit, turned.
    Not(&'static Term),
    Of(BinaryOp, &'static Term, &'static Term),
    Is(Comparison, &'static Term, &'static Term),
    /// The second where the first is 1, else the third.
    If(&'static Term, &'static Term, &'static Term),
    /// So many bits more, which are 0.
    Longer(u32, &'static Term),
    /// So many bits more, which are as the top bit.
    Signed(u32, &'static Term),
    /// The lowest bits, up to this one.
    Low(u32, &'static Term),
    /// The first above the second.
    Join(&'static Term, &'static Term),
}

/// The place of a term's node, behind those of its parts.
pub fn push_term(rt: &impl Abort, dag: &mut Dag, term: &Term) -> Result<usize, NoMemory> {
    let node = match *term {
        Term::Byte(place) => Node::Input(place),
        Term::Num(value) => Node::Num { width: 8, value },
        Term::Wide(width, value) => Node::Num { width, value },
        Term::Not(a) => Node::Not(push_term(rt, dag, a)?),
        Term::Of(op, a, b) => Node::Binary(op, push_term(rt, dag, a)?, push_term(rt, dag, b)?),
        Term::Is(op, a, b) => Node::Compare(op, push_term(rt, dag, a)?, push_term(rt, dag, b)?),
        Term::If(c, a, b) => Node::Ite {
            condition: push_term(rt, dag, c)?,
            yes: push_term(rt, dag, a)?,
            no: push_term(rt, dag, b)?,
        },
        Term::Longer(by, a) => Node::Extend {
            by,
            signed: false,
            operand: push_term(rt, dag, a)?,
        },
        Term::Signed(by, a) => Node::Extend {
            by,
            signed: true,
            operand: push_term(rt, dag, a)?,
        },
        Term::Low(high, a) => Node::Extract {
            high,
            low: 0,
            operand: push_term(rt, dag, a)?,
        },
        Term::Join(a, b) => Node::Concat {
            high: push_term(rt, dag, a)?,
            low: push_term(rt, dag, b)?,
        },
    };
    assert!(rt; dag.fits(&node));
    dag.push(node)
}

// Puts these terms behind the others, and notes their places.
fn push_terms(
    rt: &impl Abort,
    dag: &mut Dag,
    places: &mut Vec<usize>,
    terms: &[Term],
) -> Result<(), NoMemory> {
    for term in terms {
        let place = push_term(rt, dag, term)?;
        places.push(place)?;
    }
    Ok(())
}

/// A graph over so many input bytes that has these terms, and the places where they stand.
pub fn graph_of(
    rt: &impl Abort,
    alloc: Global,
    inputs: usize,
    terms: &[Term],
) -> Result<(Dag, Vec<usize>), NoMemory> {
    let mut dag = Dag::new(alloc, inputs);
    let mut places = Vec::new(alloc);
    push_terms(rt, &mut dag, &mut places, terms)?;
    Ok((dag, places))
}
