//! Operations made of their operands' low bits, and widened to their width.

ghost use Rattle.std.specs.Prelude.{◌≡◌, ◌<◌, ◌≤◌, IfOk, OnErr, Some, length};
ghost use Rattle.bv_dag.specs.BitVectors.{bvneg, ite};
ghost use Rattle.bv_dag.specs.Graphs.{val, width_of};
ghost use Rattle.bv_dag.specs.Nodes.{Fits, binary, compare, node_value, node_width, widths_of};
ghost use Rattle.term_trees.specs.Growth.{Continues};
ghost use Rattle.term_trees.specs.Trees.{tree_of, node_tree, IsTerm};
ghost use Rattle.term_simplify.specs.Builds.{BuildsAs};
ghost use Rattle.term_simplify.specs.Narrowing.{IsFewer, binary_narrowing, node_narrowing};
ghost use Rattle.term_simplify.specs.Simplified as simplified;
ghost use Rattle.term_simplify.specs.Steps.{Stands, low_word, or_ones_word_at, widened_word};
ghost use Rattle.term_simplify.specs.Told.{unsummed};

use crate::binaries::ones;
use crate::builder::Builder;
use crate::ends::may_divide_by_zero;
use crate::narrowing::{Narrow, narrowing_of};
use bv_dag::{BinaryOp, Comparison, Node};
use std::alloc::AllocError as NoMemory;

/// The comparison of low bits: without sign where zeros alone are left out.
fn comparison_by_low(signed: bool, op: Comparison) -> Comparison
    ensures { result ≡ simplified.comparison_by_low signed op }
{
    match (signed, op) {
        (false, Comparison::Slt) => Comparison::Ult,
        (_, op) => op,
    }
}

impl Builder {
    /// The low bits of a term.
    fn low(&mut self, n: Narrow, a: usize) -> Result<usize, NoMemory>
        requires { IsFewer n (width_of self.old a) }
        ensures continues { Continues self.old self.new }
        ensures ok { IfOk result (λ id. Stands self.new id
            (simplified.low_of n (tree_of self.old a)) n.bits
            (λ input. low_word n (val self.old a input))) }
    {
        self.plain_step(Node::Extract {
            high: n.bits - 1,
            low: 0,
            operand: a,
        })
    }

    /// A term of so many bits, widened to a width.
    fn widened_to(&mut self, width: u32, n: Narrow, a: usize) -> Result<usize, NoMemory>
        requires low { width_of self.old a ≡ n.bits }
        requires fewer { IsFewer n width }
        requires at_most_64 { width ≤ 64 }
        ensures continues { Continues self.old self.new }
        ensures ok { IfOk result (λ id. Stands self.new id
            (simplified.widened_to width n (tree_of self.old a)) width
            (λ input. widened_word width n (val self.old a input))) }
    {
        self.plain_step(Node::Extend {
            by: width - n.bits,
            signed: n.signed,
            operand: a,
        })
    }

    /// The negative of a term.
    fn narrow_negative(&mut self, n: Narrow, a: usize) -> Result<usize, NoMemory>
        requires { IsFewer n (width_of self.old a) }
        ensures continues { Continues self.old self.new }
        ensures ok { IfOk result (λ id. Stands self.new id
            (simplified.negative_at (Some n) (tree_of self.old a)) (width_of self.old a)
            (λ input. widened_word (width_of self.old a) n
            (bvneg (low_word n (val self.old a input))))) }
    {
        let width = self.known().width_of(a);
        let low = self.low(n, a)?;
        let negative = self.plain_step(Node::Neg(low))?;
        self.widened_to(width, n, negative)
    }

    /// A test of two terms.
    fn narrow_test(
        &mut self,
        n: Narrow,
        op: Comparison,
        a: usize,
        b: usize,
    ) -> Result<usize, NoMemory>
        requires first { IsFewer n (width_of self.old a) }
        requires second { width_of self.old a ≡ width_of self.old b }
        ensures continues { Continues self.old self.new }
        ensures ok { IfOk result (λ id. Stands self.new id
            (simplified.comparison_at (Some n) op (tree_of self.old a) (tree_of self.old b)) 1
            (λ input. compare (simplified.comparison_by_low n.signed op)
            (low_word n (val self.old a input)) (low_word n (val self.old b input)))) }
    {
        let left = self.low(n, a)?;
        let right = self.low(n, b)?;
        self.own_step(Node::Compare(comparison_by_low(n.signed, op), left, right))
    }

    /// A choice between two terms.
    fn narrow_choice(
        &mut self,
        n: Narrow,
        condition: usize,
        a: usize,
        b: usize,
    ) -> Result<usize, NoMemory>
        requires condition { width_of self.old condition ≡ 1 }
        requires first { IsFewer n (width_of self.old a) }
        requires second { width_of self.old a ≡ width_of self.old b }
        ensures continues { Continues self.old self.new }
        ensures ok { IfOk result (λ id. Stands self.new id
            (simplified.choice_at (Some n) (tree_of self.old condition) (tree_of self.old a)
            (tree_of self.old b)) (width_of self.old a)
            (λ input. widened_word (width_of self.old a) n
            (ite (val self.old condition input) (low_word n (val self.old a input))
            (low_word n (val self.old b input))))) }
    {
        let width = self.known().width_of(a);
        let yes = self.low(n, a)?;
        let no = self.low(n, b)?;
        let chosen = self.plain_step(Node::Ite { condition, yes, no })?;
        self.widened_to(width, n, chosen)
    }

    /// A test of two terms, at as few bits as tell it.
    fn test_step(&mut self, op: Comparison, a: usize, b: usize) -> Result<usize, NoMemory>
        requires { Fits self.old.inputs (widths_of self.old.nodes) (Node.Compare op a b) }
        ensures continues { Continues self.old self.new }
        ensures ok { IfOk result (λ id. Stands self.new id
            (simplified.undecided op (tree_of self.old a) (tree_of self.old b)) 1
            (λ input. compare op (val self.old a input) (val self.old b input))) }
    {
        let node = Node::Compare(op, a, b);
        match narrowing_of(self.known(), node) {
            Some(n) => self.narrow_test(n, op, a, b),
            None => self.own_step(node),
        }
    }

    /// A choice between two terms, at as few bits as tell it.
    fn choice_step(&mut self, condition: usize, yes: usize, no: usize) -> Result<usize, NoMemory>
        requires { Fits self.old.inputs (widths_of self.old.nodes) (Node.Ite condition yes no) }
        ensures continues { Continues self.old self.new }
        ensures ok { IfOk result (λ id. Stands self.new id
            (simplified.choice_of (tree_of self.old condition) (tree_of self.old yes)
            (tree_of self.old no)) (width_of self.old yes)
            (λ input. ite (val self.old condition input) (val self.old yes input)
            (val self.old no input))) }
    {
        let node = Node::Ite { condition, yes, no };
        match narrowing_of(self.known(), node) {
            Some(n) => self.narrow_choice(n, condition, yes, no),
            None => self.own_step(node),
        }
    }

    /// A quotient, or all ones where the divisor is 0.
    fn or_ones_at(
        &mut self,
        width: u32,
        n: Narrow,
        divisor: usize,
        quotient: usize,
    ) -> Result<usize, NoMemory>
        requires divisor { width_of self.old divisor ≡ n.bits }
        requires quotient { width_of self.old quotient ≡ width }
        requires fewer { IsFewer n width }
        requires at_most_64 { width ≤ 64 }
        ensures continues { Continues self.old self.new }
        ensures ok { IfOk result (λ id. Stands self.new id
            (simplified.or_ones_at width n (tree_of self.old divisor) (tree_of self.old quotient))
            width
            (λ input. or_ones_word_at width n (val self.old divisor input)
            (val self.old quotient input))) }
    {
        let zero = self.plain_step(Node::Num {
            width: n.bits,
            value: 0,
        })?;
        let by_zero = self.test_step(Comparison::Eq, divisor, zero)?;
        let ones = self.plain_step(Node::Num {
            width,
            value: ones(width).number(),
        })?;
        self.choice_step(by_zero, ones, quotient)
    }

    /// An operation of two terms. Few bits tell a quotient where the divisor isn't 0; where it may be, that is tested.
    fn narrow_binary(
        &mut self,
        n: Narrow,
        op: BinaryOp,
        a: usize,
        b: usize,
    ) -> Result<usize, NoMemory>
        requires fits { Fits self.old.inputs (widths_of self.old.nodes) (Node.Binary op a b) }
        requires term { IsTerm self.old.inputs
            (node_tree (tree_of self.old) (Node.Binary op a b)) }
        requires is { binary_narrowing op (tree_of self.old a) (tree_of self.old b) ≡ Some n }
        ensures continues { Continues self.old self.new }
        ensures ok { IfOk result (λ id. Stands self.new id
            (simplified.narrowed op (tree_of self.old a) (tree_of self.old b))
            (width_of self.old a)
            (λ input. binary op (val self.old a input) (val self.old b input))) }
    {
        let width = self.known().width_of(a);
        let left = self.low(n, a)?;
        let right = self.low(n, b)?;
        let low = self.own_step(Node::Binary(op, left, right))?;
        let result = self.widened_to(width, n, low)?;
        if may_divide_by_zero(self.known(), op, right) {
            self.or_ones_at(width, n, right, result)
        } else {
            Ok(result)
        }
    }

    /// The term that a node is made to of fewer bits, or only some of those that it stands on.
    fn of_low_bits(&mut self, node: Node, n: Narrow) -> Result<usize, NoMemory>
        requires fits { Fits self.old.inputs (widths_of self.old.nodes) node }
        requires term { IsTerm self.old.inputs (node_tree (tree_of self.old) node) }
        requires is { node_narrowing (tree_of self.old) node ≡ Some n }
        ensures continues { Continues self.old self.new }
        ensures ok { IfOk result (λ id. Stands self.new id (unsummed (tree_of self.old) node)
            (node_width (widths_of self.old.nodes) node)
            (λ input. node_value input (λ k. val self.old k input) node)) }
    {
        match node {
            Node::Neg(a) => self.narrow_negative(n, a),
            Node::Binary(op, a, b) => self.narrow_binary(n, op, a, b),
            Node::Compare(op, a, b) => self.narrow_test(n, op, a, b),
            Node::Ite { condition, yes, no } => self.narrow_choice(n, condition, yes, no),
            _ => self.plain_step(node),
        }
    }

    /// The term that a node is made to of fewer bits.
    pub(crate) fn narrow(&mut self, node: Node, n: Narrow) -> Result<usize, NoMemory>
        requires fits { Fits self.old.inputs (widths_of self.old.nodes) node }
        requires term { IsTerm self.old.inputs (node_tree (tree_of self.old) node) }
        requires is { node_narrowing (tree_of self.old) node ≡ Some n }
        ensures ok { IfOk result
            (BuildsAs (unsummed (tree_of self.old) node) self.old self.new node) }
        ensures err { OnErr result (self.new ≡ self.old) }
    {
        let len = self.len();
        let answer = self.of_low_bits(node, n);
        self.settled(len, answer)
    }
}
