//! Operations of which few low bits tell the result: they are made of as many low bits of their operands, and widened.

mod bits;
mod divisions;
mod intervals;
mod joints;
mod offsets;
mod products;
mod sums;
mod tests;
mod zeros;

use crate::of_term_simplify::calls::{build, is_node};
use crate::of_term_simplify::narrow::bits::{BITWISE, FULL, SETTLED};
use crate::of_term_simplify::narrow::divisions::{POWERS, STAGES};
use crate::of_term_simplify::narrow::intervals::{HALVES, INTERVALS};
use crate::of_term_simplify::narrow::joints::JOINTS;
use crate::of_term_simplify::narrow::offsets::OFFSETS;
use crate::of_term_simplify::narrow::products::{PRODUCTS, QUOTIENTS, REMAINDERS};
use crate::of_term_simplify::narrow::sums::{DIFFERENCES, SUMS};
use crate::of_term_simplify::narrow::tests::{ALIKE, CHOICES, TESTS};
use crate::of_term_simplify::narrow::zeros::ZEROS;
use bv_dag::{BinaryOp, Comparison, Node};
use std::alloc::AllocError as NoMemory;
use std::process::Abort;
use std::test::Fail;
use term_simplify::Builder;

/// A term, by its node.
pub(crate) enum New {
    /// A number of so many bits.
    Number(u32, u64),
    /// So many zeros above the term at a place.
    Zeros(u32, usize),
    /// So many copies of its sign above the term at a place.
    Signs(u32, usize),
    /// The term at the first place above that at the second.
    Above(usize, usize),
    /// So many low bits of the term at a place.
    Low(u32, usize),
    Is(Node),
}

/// Numbers of 32 bits in the places from `FIRST` on; nodes that are built in turn; all terms that these calls make, from behind
/// the numbers on; and the place that the last call answers.
pub(crate) type Row = (&'static [u64], &'static [Node], &'static [New], usize);

/// Operands of 32 bits, and some of which they are made: two bytes in 0 and 1, widened by zeros in 2 and 3 and by their signs
/// in 4 and 5; in 6 a term of all 32 bits; in 7 a term of one bit, and in 8 this bit widened by zeros.
const OPERANDS: &[New] = &[
    New::Is(Node::Input(0)),
    New::Is(Node::Input(1)),
    New::Zeros(24, 0),
    New::Zeros(24, 1),
    New::Signs(24, 0),
    New::Signs(24, 1),
    New::Is(Node::Binary(BinaryOp::Udiv, 4, 2)),
    New::Is(Node::Compare(Comparison::Ult, 1, 0)),
    New::Zeros(31, 7),
];

/// How many operands there are.
const FIRST: usize = 9;

fn extended(by: u32, signed: bool, operand: usize) -> Node {
    Node::Extend {
        by,
        signed,
        operand,
    }
}

fn node_of(rt: &impl Abort, term: &New) -> Node {
    match *term {
        New::Number(width, value) => Node::Num { width, value },
        New::Zeros(by, operand) => extended(by, false, operand),
        New::Signs(by, operand) => extended(by, true, operand),
        New::Above(high, low) => Node::Concat { high, low },
        New::Low(bits, operand) => {
            assert!(rt; bits > 0);
            Node::Extract {
                high: bits - 1,
                low: 0,
                operand,
            }
        }
        New::Is(node) => node,
    }
}

// Whether these terms stand from a place on, and none behind them.
fn stand(rt: &impl Abort, builder: &Builder, first: usize, terms: &[New]) -> bool {
    let mut place = first;
    for term in terms {
        if !is_node(builder, place, &node_of(rt, term)) {
            return false;
        }
        place = place.saturating_add(1);
    }
    builder.len() == place
}

// Puts the operands, each at its place, and numbers behind them.
fn put_operands(rt: &impl Abort, builder: &mut Builder, numbers: &[u64]) -> Result<(), NoMemory> {
    for (at, term) in OPERANDS.iter().enumerate() {
        let node = node_of(rt, term);
        assert!(rt; build(rt, builder, node)? == at, "operand {at}");
    }
    assert!(rt; builder.len() == FIRST);
    for value in numbers {
        let node = Node::Num {
            width: 32,
            value: *value,
        };
        build(rt, builder, node)?;
    }
    Ok(())
}

// Whether a row's last node is answered by its place, and makes these terms alone with those before it.
fn is_made(rt: &impl Abort, builder: &mut Builder, row: &Row) -> Result<bool, NoMemory> {
    let (numbers, asked, new, want) = row;
    put_operands(rt, builder, numbers)?;
    let first = builder.len();
    let mut answer = first;
    for node in *asked {
        answer = build(rt, builder, *node)?;
    }
    Ok(answer == *want && stand(rt, builder, first, new))
}

#[test]
fn few_low_bits_tell_a_result(rt: HostRuntime) -> Result<(), Fail> {
    let tables = [
        SUMS,
        DIFFERENCES,
        PRODUCTS,
        QUOTIENTS,
        REMAINDERS,
        BITWISE,
        TESTS,
        ALIKE,
        CHOICES,
        SETTLED,
        FULL,
        JOINTS,
        OFFSETS,
        POWERS,
        STAGES,
        INTERVALS,
        HALVES,
        ZEROS,
    ];
    for (table, rows) in tables.iter().enumerate() {
        for (at, row) in rows.iter().enumerate() {
            let mut builder = Builder::new(rt.alloc(), 2);
            assert!(rt; is_made(&rt, &mut builder, row)?, "table {table}, row {at}");
        }
    }
    Ok(())
}
