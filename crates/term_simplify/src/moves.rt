//! Shifts of a term by a number: they move its bits, which takes a term for those that stay and one for those that come in.

ghost use Rattle.std.specs.Prelude.{◌≡◌, ◌<◌, ℕ, All, IfOk, IfSome, List, None, OnErr, OnOk, length};
ghost use Rattle.bv_dag.specs.Graphs.{IsDag};
ghost use Rattle.bv_dag.specs.Nodes.{Fits, widths_of};
ghost use Rattle.term_trees.specs.Growth.{Continues};
ghost use Rattle.term_trees.specs.Trees.{tree_of, tree_value, node_tree, IsTerm};
ghost use Rattle.term_simplify.specs.Moves.{IsMove, move_tree, unshifted, unvalued, way_of};
ghost use Rattle.term_simplify.specs.Simplified.{moves};

use crate::builder::Builder;
use crate::known::Known;
use crate::plan::number_at;
use bv_dag::{BinaryOp, Node, Word};
use std::alloc::AllocError as NoMemory;

/// Which way bits are moved, and what comes in: zeros below, or zeros or copies of the sign above.
#[derive(Clone, Copy, Debug)]
pub(crate) enum Way {
    Up,
    Down { signed: bool },
}

/// A term of this width whose bits are moved by so many places.
#[derive(Clone, Copy, Debug)]
pub(crate) struct Move {
    operand: usize,
    width: u32,
    by: u32,
    way: Way,
}

/// The way of a shift.
fn way_of(op: BinaryOp) -> Option<Way>
    ensures { result ≡ way_of op }
{
    match op {
        BinaryOp::Shl => Some(Way::Up),
        BinaryOp::Lshr => Some(Way::Down { signed: false }),
        BinaryOp::Ashr => Some(Way::Down { signed: true }),
        BinaryOp::Add
        | BinaryOp::Sub
        | BinaryOp::Mul
        | BinaryOp::Udiv
        | BinaryOp::Urem
        | BinaryOp::And
        | BinaryOp::Or
        | BinaryOp::Xor => None,
    }
}

/// Whether a shift by this number moves some bits, but not all of them out.
fn moves(by: Word) -> bool
    ensures { result ≡ moves by }
{
    0 < by.number() && by.number() < u64::from(by.width())
}

/// The bits that an operation moves, if it is a shift of a term by a number below its width.
fn move_by(terms: &Known, op: BinaryOp, a: usize, b: usize) -> Option<Move>
    requires { Fits terms.now.inputs (widths_of terms.now.nodes) (Node.Binary op a b) }
    ensures some { IfSome result (λ m. IsMove terms.now m) }
    ensures tree { IfSome result (λ m. unvalued (tree_of terms.now) (Node.Binary op a b)
        ≡ move_tree terms.now m) }
    ensures worth { IfSome result (λ m. (input : List ℕ) → All (λ b. b < 256) input
        → IsTerm terms.now.inputs (node_tree (tree_of terms.now) (Node.Binary op a b))
        → tree_value input (move_tree terms.now m)
        ≡ tree_value input (node_tree (tree_of terms.now) (Node.Binary op a b))) }
    ensures none { result ≡ None → unvalued (tree_of terms.now) (Node.Binary op a b)
        ≡ unshifted (tree_of terms.now) (Node.Binary op a b) }
    ensures fit { IfSome result (λ _. IsDag terms.now) }
{
    let (None, Some(y), Some(way)) = (number_at(terms, a), number_at(terms, b), way_of(op)) else {
        return None;
    };
    if !moves(y) {
        return None;
    }
    Some(Move {
        operand: a,
        width: y.width(),
        by: y.number() as u32,
        way,
    })
}

/// The bits that a node moves.
pub(crate) fn move_of(terms: &Known, node: Node) -> Option<Move>
    requires { Fits terms.now.inputs (widths_of terms.now.nodes) node }
    ensures some { IfSome result (λ m. IsMove terms.now m) }
    ensures tree { IfSome result (λ m. unvalued (tree_of terms.now) node
        ≡ move_tree terms.now m) }
    ensures worth { IfSome result (λ m. (input : List ℕ) → All (λ b. b < 256) input
        → IsTerm terms.now.inputs (node_tree (tree_of terms.now) node)
        → tree_value input (move_tree terms.now m)
        ≡ tree_value input (node_tree (tree_of terms.now) node)) }
    ensures none { result ≡ None → unvalued (tree_of terms.now) node
        ≡ unshifted (tree_of terms.now) node }
    ensures fit { IfSome result (λ _. IsDag terms.now) }
{
    match node {
        Node::Binary(op, a, b) => move_by(terms, op, a, b),
        _ => None,
    }
}

impl Builder {
    /// The term whose bits are moved, or only some of those that it stands on.
    fn moved(&mut self, m: Move) -> Result<usize, NoMemory>
        requires { IsMove self.old m }
        ensures continues { Continues self.old self.new }
        ensures there { IfOk result (λ id. id < length self.new.nodes) }
        ensures tree { IfOk result (λ id. tree_of self.new id ≡ move_tree self.old m) }
    {
        match m.way {
            Way::Up => {
                let lower = self.plain_step(Node::Extract {
                    high: m.width - 1 - m.by,
                    low: 0,
                    operand: m.operand,
                })?;
                let zeros = self.plain_step(Node::Num {
                    width: m.by,
                    value: 0,
                })?;
                self.plain_step(Node::Concat {
                    high: lower,
                    low: zeros,
                })
            }
            Way::Down { signed } => {
                let upper = self.plain_step(Node::Extract {
                    high: m.width - 1,
                    low: m.by,
                    operand: m.operand,
                })?;
                self.plain_step(Node::Extend {
                    by: m.by,
                    signed,
                    operand: upper,
                })
            }
        }
    }

    /// The term whose bits are moved.
    pub(crate) fn move_bits(&mut self, m: Move) -> Result<usize, NoMemory>
        requires { IsMove self.old m }
        ensures there { IfOk result (λ id. id < length self.new.nodes) }
        ensures tree { IfOk result (λ id. tree_of self.new id ≡ move_tree self.old m) }
        ensures ok { OnOk result (Continues self.old self.new) }
        ensures err { OnErr result (self.new ≡ self.old) }
    {
        let len = self.len();
        let answer = self.moved(m);
        self.settled(len, answer)
    }
}
