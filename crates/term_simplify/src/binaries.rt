//! Operations of two operands.

ghost use Rattle.std.specs.Prelude.{◌≡◌, ◌<◌, ◌≤◌, ◌-◌, ◌^◌, length};
ghost use Rattle.bv_dag.specs.Graphs.{Graph, IsDag};
ghost use Rattle.bv_dag.specs.Nodes.{Fits, widths_of};
ghost use Rattle.term_trees.specs.Trees.{tree_of};
ghost use Rattle.term_simplify.specs.Plans.{Makes, AreAsWide};
ghost use Rattle.term_simplify.specs.Plain.{is_ones, number_first, number_second, binary_by, plain_binary};

use crate::known::Known;
use crate::masks::masked;
use crate::plan::{Plan, number, number_at, number_if, term_if, zero};
use bv_dag::{BinaryOp, Node, Word};

/// The word of this width whose every bit is 1.
#[tactic(auto, unfolding(bv_dag::specs::BitVectors::bvnot))]
pub(crate) fn ones(width: u32) -> Word
    requires not_empty { 0 < width }
    requires at_most_64 { width ≤ 64 }
    ensures { result ≡ record { width = width; number = 2 ^ width - 1 } }
{
    Word::new(width, 0).complement()
}

/// Whether every bit is 1.
fn is_ones(word: Word) -> bool
    ensures { result ≡ is_ones word }
{
    word.number() == ones(word.width()).number()
}

/// A number and then a term.
fn number_first(op: BinaryOp, x: Word, a: usize, b: usize) -> Plan
    ensures { (graph : Graph) → a < length graph.nodes → b < length graph.nodes
        → Fits graph.inputs (widths_of graph.nodes) (Node.Binary op a b)
        → Makes graph result (number_first op x (tree_of graph a) (tree_of graph b)) }
{
    let value = x.number();
    let plain = Plan::Push(Node::Binary(op, a, b));
    match op {
        BinaryOp::Add | BinaryOp::Xor => term_if(value == 0, b, plain),
        BinaryOp::Mul => term_if(value == 0, a, term_if(value == 1, b, plain)),
        BinaryOp::And => term_if(value == 0, a, term_if(is_ones(x), b, plain)),
        BinaryOp::Or => term_if(value == 0, b, term_if(is_ones(x), a, plain)),
        BinaryOp::Shl | BinaryOp::Lshr | BinaryOp::Ashr => term_if(value == 0, a, plain),
        BinaryOp::Sub => {
            if value == 0 {
                Plan::Push(Node::Neg(b))
            } else {
                plain
            }
        }
        BinaryOp::Udiv | BinaryOp::Urem => plain,
    }
}

/// A term and then a number.
fn number_second(op: BinaryOp, y: Word, a: usize, b: usize) -> Plan
    ensures { (graph : Graph) → a < length graph.nodes → b < length graph.nodes
        → Fits graph.inputs (widths_of graph.nodes) (Node.Binary op a b)
        → Makes graph result (number_second op y (tree_of graph a) (tree_of graph b)) }
{
    let value = y.number();
    let width = y.width();
    let plain = Plan::Push(Node::Binary(op, a, b));
    match op {
        BinaryOp::Add | BinaryOp::Sub | BinaryOp::Xor | BinaryOp::Ashr => {
            term_if(value == 0, a, plain)
        }
        BinaryOp::Mul => term_if(value == 0, b, term_if(value == 1, a, plain)),
        BinaryOp::Udiv => number_if(value == 0, ones(width), term_if(value == 1, a, plain)),
        BinaryOp::Urem => term_if(value == 0, a, number_if(value == 1, zero(width), plain)),
        BinaryOp::And => term_if(value == 0, b, term_if(is_ones(y), a, plain)),
        BinaryOp::Or => term_if(value == 0, a, term_if(is_ones(y), b, plain)),
        BinaryOp::Shl | BinaryOp::Lshr => {
            term_if(
                value == 0,
                a,
                number_if(value >= u64::from(width), zero(width), plain),
            )
        }
    }
}

/// By the numbers that the operands are.
fn binary_by(op: BinaryOp, left: Option<Word>, right: Option<Word>, a: usize, b: usize) -> Plan
    requires { AreAsWide left right }
    ensures { (graph : Graph) → a < length graph.nodes → b < length graph.nodes
        → Fits graph.inputs (widths_of graph.nodes) (Node.Binary op a b)
        → Makes graph result (binary_by op left right (tree_of graph a) (tree_of graph b)) }
{
    match (left, right) {
        (Some(x), Some(y)) => number(op.apply(x, y)),
        (Some(x), None) => number_first(op, x, a, b),
        (None, Some(y)) => number_second(op, y, a, b),
        (None, None) => Plan::Push(Node::Binary(op, a, b)),
    }
}

/// An operation of two terms.
#[tactic(auto, using(crate::proofs::Reading::placing))]
pub(crate) fn binary(terms: &Known, op: BinaryOp, a: usize, b: usize) -> Plan
    requires { Fits terms.now.inputs (widths_of terms.now.nodes) (Node.Binary op a b) }
    ensures makes { Makes terms.now result
        (plain_binary op (tree_of terms.now a) (tree_of terms.now b)) }
    ensures fit { IsDag terms.now }
{
    let plain = binary_by(op, number_at(terms, a), number_at(terms, b), a, b);
    masked(terms, op, a, b, masked(terms, op, b, a, plain))
}
