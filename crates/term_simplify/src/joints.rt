//! Two terms without a bit in common, joined by or, xor or a sum: they are the one above the other, which takes no circuit.

ghost use Rattle.std.specs.Prelude.{◌≡◌, ◌<◌, IfOk, IfSome, None, length};
ghost use Rattle.bv_dag.specs.Graphs.{IsDag, val, width_of};
ghost use Rattle.bv_dag.specs.Nodes.{Fits, binary, widths_of};
ghost use Rattle.term_trees.specs.Growth.{Continues};
ghost use Rattle.term_trees.specs.Trees.{Tree, tree_of, node_tree, IsTerm};
ghost use Rattle.term_simplify.specs.Joints.{IsJoint, joins, joint_by, joint_of, joint_tree};
ghost use Rattle.term_simplify.specs.Steps.{Stands};
ghost use Rattle.term_simplify.specs.Zeros.{binary_over_zeros};

use crate::builder::Builder;
use crate::known::Known;
use crate::narrowing::is_zero;
use crate::plan::{number_at, under_zeros};
use bv_dag::{BinaryOp, Node};
use std::alloc::AllocError as NoMemory;

/// A term above another one, which is widened by so many zeros.
#[derive(Clone, Copy, Debug)]
pub(crate) struct Joint {
    upper: usize,
    lower: usize,
    by: u32,
}

/// Whether an operation joins bits of which no two are at one place.
fn joins(op: BinaryOp) -> bool
    ensures { result ≡ joins op }
{
    match op {
        BinaryOp::Add | BinaryOp::Or | BinaryOp::Xor => true,
        BinaryOp::Sub
        | BinaryOp::Mul
        | BinaryOp::Udiv
        | BinaryOp::Urem
        | BinaryOp::And
        | BinaryOp::Shl
        | BinaryOp::Lshr
        | BinaryOp::Ashr => false,
    }
}

/// A term above zeros, and one of no more bits than these.
fn joint_by(terms: &Known, a: usize, b: usize) -> Option<Joint>
    requires first { a < length terms.now.nodes }
    requires second { b < length terms.now.nodes }
    ensures some { IfSome result (λ j. IsJoint terms.now j) }
    ensures tree { IfSome result (λ j. (otherwise : Tree)
        → joint_by (tree_of terms.now a) (tree_of terms.now b) otherwise
        ≡ joint_tree terms.now j) }
    ensures none { result ≡ None → (otherwise : Tree)
        → joint_by (tree_of terms.now a) (tree_of terms.now b) otherwise ≡ otherwise }
    ensures fit { IsDag terms.now }
{
    let Some(lower) = under_zeros(terms, b) else {
        return None;
    };
    let Node::Concat { high, low } = terms.node(a) else {
        return None;
    };
    if !is_zero(number_at(terms, low)) {
        return None;
    }
    let zeros = terms.width_of(low);
    let bits = terms.width_of(lower);
    if zeros < bits {
        return None;
    }
    Some(Joint {
        upper: high,
        lower,
        by: zeros - bits,
    })
}

/// Such terms, either way round, where an operation joins them.
fn joint_of(terms: &Known, op: BinaryOp, a: usize, b: usize) -> Option<Joint>
    requires { Fits terms.now.inputs (widths_of terms.now.nodes) (Node.Binary op a b) }
    ensures some { IfSome result (λ j. IsJoint terms.now j) }
    ensures tree { IfSome result (λ j. (otherwise : Tree)
        → joint_of op (tree_of terms.now a) (tree_of terms.now b) otherwise
        ≡ joint_tree terms.now j) }
    ensures none { result ≡ None → (otherwise : Tree)
        → joint_of op (tree_of terms.now a) (tree_of terms.now b) otherwise ≡ otherwise }
    ensures fit { IfSome result (λ _. IsDag terms.now) }
{
    if !joins(op) {
        return None;
    }
    match joint_by(terms, a, b) {
        Some(joint) => Some(joint),
        None => joint_by(terms, b, a),
    }
}

impl Builder {
    /// The one term above the other.
    fn one_above(&mut self, j: Joint) -> Result<usize, NoMemory>
        requires { IsJoint self.old j }
        ensures continues { Continues self.old self.new }
        ensures there { IfOk result (λ id. id < length self.new.nodes) }
        ensures tree { IfOk result (λ id. tree_of self.new id ≡ joint_tree self.old j) }
    {
        let lower = self.further(j.by, false, j.lower)?;
        self.plain_step(Node::Concat {
            high: j.upper,
            low: lower,
        })
    }

    /// The term that an operation of two terms is at their own width.
    pub(crate) fn operation_step(
        &mut self,
        op: BinaryOp,
        a: usize,
        b: usize,
    ) -> Result<usize, NoMemory>
        requires { Fits self.old.inputs (widths_of self.old.nodes) (Node.Binary op a b) }
        ensures continues { Continues self.old self.new }
        ensures ok { IfOk result (λ id. Stands self.new id
            (joint_of op (tree_of self.old a) (tree_of self.old b)
            (binary_over_zeros op (tree_of self.old a) (tree_of self.old b))) (width_of self.old a)
            (λ input. binary op (val self.old a input) (val self.old b input))) }
        ensures term { IsTerm self.old.inputs (node_tree (tree_of self.old) (Node.Binary op a b)) }
    {
        match joint_of(self.known(), op, a, b) {
            Some(joint) => self.one_above(joint),
            None => self.over_zeros_step(op, a, b),
        }
    }
}
