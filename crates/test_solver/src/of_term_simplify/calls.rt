//! The builder's calls. Terms are named by their places.

ghost use Rattle.std.specs.Prelude.{◌≡◌, IsTrue};
ghost use Rattle.bv_dag.specs.Graphs.{width_of};

use bv_dag::{BinaryOp, Comparison, Node};
use rv_decode::Test;
use std::alloc::AllocError as NoMemory;
use std::process::Abort;
use term_simplify::Builder;

// Each kind of node by its own call.
pub(crate) fn build(rt: &impl Abort, builder: &mut Builder, node: Node) -> Result<usize, NoMemory> {
    assert!(rt; builder.terms().fits(&node));
    match node {
        Node::Num { width, value } => builder.num(width, value),
        Node::Input(index) => builder.input(index),
        Node::Not(a) => builder.not(a),
        Node::Neg(a) => builder.neg(a),
        Node::Binary(BinaryOp::Add, a, b) => builder.add(a, b),
        Node::Binary(BinaryOp::Sub, a, b) => builder.sub(a, b),
        Node::Binary(BinaryOp::Mul, a, b) => builder.mul(a, b),
        Node::Binary(BinaryOp::Udiv, a, b) => builder.udiv(a, b),
        Node::Binary(BinaryOp::Urem, a, b) => builder.urem(a, b),
        Node::Binary(BinaryOp::And, a, b) => builder.and(a, b),
        Node::Binary(BinaryOp::Or, a, b) => builder.or(a, b),
        Node::Binary(BinaryOp::Xor, a, b) => builder.xor(a, b),
        Node::Binary(BinaryOp::Shl, a, b) => builder.shl(a, b),
        Node::Binary(BinaryOp::Lshr, a, b) => builder.lshr(a, b),
        Node::Binary(BinaryOp::Ashr, a, b) => builder.ashr(a, b),
        Node::Compare(Comparison::Ult, a, b) => builder.ult(a, b),
        Node::Compare(Comparison::Slt, a, b) => builder.slt(a, b),
        Node::Compare(Comparison::Eq, a, b) => builder.eq(a, b),
        Node::Ite { condition, yes, no } => builder.ite(condition, yes, no),
        Node::Extract { high, low, operand } => builder.extract(high, low, operand),
        Node::Extend {
            by,
            signed,
            operand,
        } => builder.extend(by, signed, operand),
        Node::Concat { high, low } => builder.concat(high, low),
    }
}

fn is_wide(builder: &Builder, a: usize, width: u32) -> bool
    ensures { IsTrue result → width_of builder.now a ≡ width }
{
    a < builder.len() && builder.terms().width_of(a) == width
}

pub(crate) fn is_node(builder: &Builder, id: usize, want: &Node) -> bool {
    id < builder.len() && builder.terms().node(id) == *want
}

/// A call of the builder. Terms are named by their places.
pub(crate) enum Call {
    /// That of a node of this kind.
    Node(Node),
    Rem(usize, usize),
    Remu(usize, usize),
    Passes(Test, usize, usize),
    Widened(u32, bool, usize),
    Half(usize, usize),
    Word(usize, usize, usize, usize),
    Byte(usize, u32),
    Even(usize),
}

// The place that a call on two words answers.
fn called_on_words(
    rt: &impl Abort,
    builder: &mut Builder,
    call: &Call,
    a: usize,
    b: usize,
) -> Result<usize, NoMemory> {
    assert!(rt; is_wide(builder, a, 32) && is_wide(builder, b, 32));
    match *call {
        Call::Rem(..) => builder.rem(a, b),
        Call::Remu(..) => builder.remu(a, b),
        Call::Passes(test, ..) => builder.passes(test, a, b),
        _ => builder.even(a),
    }
}

// The place that a call on bytes answers: the half word of two, or the word of four.
fn called_on_bytes(
    rt: &impl Abort,
    builder: &mut Builder,
    is_half: bool,
    bytes: [usize; 4],
) -> Result<usize, NoMemory> {
    let [b0, b1, b2, b3] = bytes;
    assert!(rt; is_wide(builder, b0, 8) && is_wide(builder, b1, 8));
    if is_half {
        return builder.half(b0, b1);
    }
    assert!(rt; is_wide(builder, b2, 8) && is_wide(builder, b3, 8));
    builder.word(b0, b1, b2, b3)
}

// The place that a call answers.
pub(crate) fn called(
    rt: &impl Abort,
    builder: &mut Builder,
    call: &Call,
) -> Result<usize, NoMemory> {
    match *call {
        Call::Node(node) => build(rt, builder, node),
        Call::Rem(a, b) | Call::Remu(a, b) | Call::Passes(_, a, b) => {
            called_on_words(rt, builder, call, a, b)
        }
        Call::Even(a) => called_on_words(rt, builder, call, a, a),
        Call::Half(b0, b1) => called_on_bytes(rt, builder, true, [b0, b1, b0, b1]),
        Call::Word(b0, b1, b2, b3) => called_on_bytes(rt, builder, false, [b0, b1, b2, b3]),
        Call::Widened(bits, signed, a) => {
            assert!(rt; 0 < bits && bits < 32 && is_wide(builder, a, bits));
            builder.widened(bits, signed, a)
        }
        Call::Byte(a, at) => {
            assert!(rt; at < 4 && is_wide(builder, a, 32));
            builder.byte(a, at)
        }
    }
}
