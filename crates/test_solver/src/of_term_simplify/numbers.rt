//! Calls on numbers, which are folded.

use crate::of_term_simplify::calls::{Call, build, called};
use bv_dag::{BinaryOp, Comparison, Node};
use rv_decode::Test;
use std::alloc::AllocError as NoMemory;
use std::process::Abort;
use std::test::Fail;
use term_simplify::Builder;

/// How many bits numbers have, these numbers in the places from 0 on, a call, and the number that it is folded to.
type Row = (u32, &'static [u64], Call, u64);

const ROWS: &[Row] = &[
    (
        8,
        &[200, 100],
        Call::Node(Node::Binary(BinaryOp::Add, 0, 1)),
        44,
    ),
    (
        8,
        &[3, 5],
        Call::Node(Node::Binary(BinaryOp::Sub, 0, 1)),
        254,
    ),
    (
        8,
        &[16, 17],
        Call::Node(Node::Binary(BinaryOp::Mul, 0, 1)),
        16,
    ),
    (
        8,
        &[5, 0],
        Call::Node(Node::Binary(BinaryOp::Udiv, 0, 1)),
        255,
    ),
    (
        8,
        &[5, 0],
        Call::Node(Node::Binary(BinaryOp::Urem, 0, 1)),
        5,
    ),
    (
        8,
        &[12, 10],
        Call::Node(Node::Binary(BinaryOp::And, 0, 1)),
        8,
    ),
    (
        8,
        &[12, 10],
        Call::Node(Node::Binary(BinaryOp::Or, 0, 1)),
        14,
    ),
    (
        8,
        &[12, 10],
        Call::Node(Node::Binary(BinaryOp::Xor, 0, 1)),
        6,
    ),
    (8, &[1, 8], Call::Node(Node::Binary(BinaryOp::Shl, 0, 1)), 0),
    (
        8,
        &[128, 7],
        Call::Node(Node::Binary(BinaryOp::Lshr, 0, 1)),
        1,
    ),
    (
        8,
        &[128, 200],
        Call::Node(Node::Binary(BinaryOp::Ashr, 0, 1)),
        255,
    ),
    (
        8,
        &[128, 1],
        Call::Node(Node::Compare(Comparison::Ult, 0, 1)),
        0,
    ),
    (
        8,
        &[128, 1],
        Call::Node(Node::Compare(Comparison::Slt, 0, 1)),
        1,
    ),
    (
        8,
        &[128, 1],
        Call::Node(Node::Compare(Comparison::Eq, 0, 1)),
        0,
    ),
    (
        8,
        &[2, 1],
        Call::Node(Node::Concat { high: 0, low: 1 }),
        513,
    ),
    (8, &[254, 0], Call::Node(Node::Not(0)), 1),
    (8, &[128, 0], Call::Node(Node::Neg(0)), 128),
    (
        8,
        &[254, 0],
        Call::Node(Node::Extract {
            high: 0,
            low: 0,
            operand: 0,
        }),
        0,
    ),
    (
        8,
        &[128, 0],
        Call::Node(Node::Extend {
            by: 8,
            signed: true,
            operand: 0,
        }),
        65408,
    ),
    // Branches, on words.
    (32, &[7], Call::Passes(Test::Beq, 0, 0), 1),
    (32, &[7], Call::Passes(Test::Bne, 0, 0), 0),
    // -2^31 is below 0, and as a number without sign above it.
    (32, &[0x8000_0000, 0], Call::Passes(Test::Blt, 0, 1), 1),
    (32, &[0x8000_0000, 0], Call::Passes(Test::Bge, 0, 1), 0),
    (32, &[7], Call::Passes(Test::Bge, 0, 0), 1),
    (32, &[0x8000_0000, 0], Call::Passes(Test::Bltu, 0, 1), 0),
    (32, &[0x8000_0000, 0], Call::Passes(Test::Bgeu, 0, 1), 1),
    // Bytes and half words, with their sign or zeros.
    (8, &[0x7F], Call::Widened(8, true, 0), 0x7F),
    (8, &[0x80], Call::Widened(8, true, 0), 0xFFFF_FF80),
    (8, &[0x80], Call::Widened(8, false, 0), 0x80),
    (16, &[0x8000], Call::Widened(16, true, 0), 0xFFFF_8000),
    (16, &[0x8000], Call::Widened(16, false, 0), 0x8000),
    // Words are made of bytes, the lowest first.
    (8, &[0x79, 0x56], Call::Half(0, 1), 0x5679),
    (
        8,
        &[0x79, 0x56, 0x34, 0x12],
        Call::Word(0, 1, 2, 3),
        0x1234_5679,
    ),
    (32, &[0x1234_5679], Call::Byte(0, 0), 0x79),
    (32, &[0x1234_5679], Call::Byte(0, 3), 0x12),
    (32, &[0x1234_5679], Call::Even(0), 0x1234_5678),
];

// Whether a row's call is folded to its number.
fn is_folded(rt: &impl Abort, builder: &mut Builder, row: &Row) -> Result<bool, NoMemory> {
    let (width, numbers, call, want) = row;
    for value in *numbers {
        let node = Node::Num {
            width: *width,
            value: *value,
        };
        build(rt, builder, node)?;
    }
    let id = called(rt, builder, call)?;
    if id >= builder.len() {
        return Ok(false);
    }
    match builder.terms().node(id) {
        Node::Num { value, .. } => Ok(value == *want),
        _ => Ok(false),
    }
}

#[test]
fn numbers_are_folded_as_the_standard_has_them(rt: HostRuntime) -> Result<(), Fail> {
    for (at, row) in ROWS.iter().enumerate() {
        let mut builder = Builder::new(rt.alloc(), 0);
        assert!(rt; is_folded(&rt, &mut builder, row)?, "row {at}");
    }
    Ok(())
}
