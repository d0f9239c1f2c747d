//! Zeros at the low end of terms, which sums, products and comparisons leave out: they are made of the bits above.

ghost use Rattle.std.specs.Prelude.{◌≡◌, ◌+◌, ◌-◌, ◌<◌, ◌≤◌, IfOk, IfSome, length, min};
ghost use Rattle.bv_dag.specs.Graphs.{IsDag, val, width_of};
ghost use Rattle.bv_dag.specs.Nodes.{Fits, binary, compare, widths_of};
ghost use Rattle.term_trees.specs.Growth.{Continues};
ghost use Rattle.term_trees.specs.Trees.{tree_of, node_tree, IsTerm};
ghost use Rattle.term_simplify.specs.Steps.{Stands};
ghost use Rattle.term_simplify.specs.Zeros as zeros;
ghost use Rattle.term_simplify.specs.Zeros.{LeavesSome};

use crate::builder::Builder;
use crate::known::Known;
use crate::narrowing::{is_settled, is_zero};
use crate::plan::number_at;
use bv_dag::{BinaryOp, Comparison, Node};
use std::alloc::AllocError as NoMemory;

/// How many low bits of two operands, and of what is made of them, are zeros.
#[derive(Clone, Copy, Debug)]
pub(crate) struct Zeros {
    first: u32,
    second: u32,
    result: u32,
}

/// How many zeros a term is known to have at its low end, where it is joined.
fn joined_zeros(terms: &Known, id: usize) -> u32
    requires { id < length terms.now.nodes }
    ensures is { result ≡ zeros.joined_zeros (tree_of terms.now id) }
    ensures few { result ≤ 64 }
    ensures fit { IsDag terms.now }
{
    let Node::Concat { low, .. } = terms.node(id) else {
        return 0;
    };
    if is_zero(number_at(terms, low)) {
        terms.width_of(low)
    } else {
        0
    }
}

/// How many zeros any term is known to have at its low end.
fn low_zeros(terms: &Known, id: usize) -> u32
    requires { id < length terms.now.nodes }
    ensures is { result ≡ zeros.low_zeros (tree_of terms.now id) }
    ensures few { result ≤ 64 }
    ensures fit { IsDag terms.now }
{
    match terms.node(id) {
        Node::Num { value, .. } => value.trailing_zeros(),
        Node::Extend { operand, .. } => joined_zeros(terms, operand),
        _ => joined_zeros(terms, id),
    }
}

/// Such zeros, where they leave some of so many bits.
fn leaving_some(width: u32, z: Zeros) -> Option<Zeros>
    ensures { result ≡ zeros.leaving_some width z }
{
    if 0 < z.result && z.result < width {
        Some(z)
    } else {
        None
    }
}

/// The zeros that two terms have in common.
fn common_zeros(terms: &Known, a: usize, b: usize) -> Option<Zeros>
    requires first { a < length terms.now.nodes }
    requires second { b < length terms.now.nodes }
    ensures is { result ≡ zeros.common_zeros (tree_of terms.now a) (tree_of terms.now b) }
    ensures fit { IsDag terms.now }
{
    let zeros = low_zeros(terms, a);
    if zeros == 0 {
        return None;
    }
    let few = zeros.min(low_zeros(terms, b));
    let common = Zeros {
        first: few,
        second: few,
        result: few,
    };
    leaving_some(terms.width_of(a), common)
}

/// Those of a sum or a difference.
fn sum_zeros(terms: &Known, op: BinaryOp, a: usize, b: usize) -> Option<Zeros>
    requires first { a < length terms.now.nodes }
    requires second { b < length terms.now.nodes }
    ensures is { result ≡ zeros.sum_zeros op (tree_of terms.now a) (tree_of terms.now b) }
    ensures fit { IsDag terms.now }
{
    match common_zeros(terms, a, b) {
        Some(z) => {
            if is_settled(terms, op, a, b) {
                None
            } else {
                Some(z)
            }
        }
        None => None,
    }
}

/// Those of a product.
fn product_zeros(terms: &Known, a: usize, b: usize) -> Option<Zeros>
    requires first { a < length terms.now.nodes }
    requires second { b < length terms.now.nodes }
    ensures is { result ≡ zeros.product_zeros (tree_of terms.now a) (tree_of terms.now b) }
    ensures fit { IsDag terms.now }
{
    if number_at(terms, a).is_some() || number_at(terms, b).is_some() {
        return None;
    }
    let first = low_zeros(terms, a);
    let second = low_zeros(terms, b);
    let product = Zeros {
        first,
        second,
        result: first + second,
    };
    leaving_some(terms.width_of(a), product)
}

/// Those of an operation.
fn binary_zeros(terms: &Known, op: BinaryOp, a: usize, b: usize) -> Option<Zeros>
    requires first { a < length terms.now.nodes }
    requires second { b < length terms.now.nodes }
    ensures is { result ≡ zeros.binary_zeros op (tree_of terms.now a) (tree_of terms.now b) }
    ensures fit { IfSome result (λ _. IsDag terms.now) }
{
    match op {
        BinaryOp::Add => sum_zeros(terms, BinaryOp::Add, a, b),
        BinaryOp::Sub => sum_zeros(terms, BinaryOp::Sub, a, b),
        BinaryOp::Mul => product_zeros(terms, a, b),
        BinaryOp::Udiv
        | BinaryOp::Urem
        | BinaryOp::And
        | BinaryOp::Or
        | BinaryOp::Xor
        | BinaryOp::Shl
        | BinaryOp::Lshr
        | BinaryOp::Ashr => None,
    }
}

/// Those of a comparison.
fn comparison_zeros(terms: &Known, a: usize, b: usize) -> Option<Zeros>
    requires first { a < length terms.now.nodes }
    requires second { b < length terms.now.nodes }
    ensures is { result ≡ zeros.comparison_zeros (tree_of terms.now a) (tree_of terms.now b) }
    ensures fit { IfSome result (λ _. IsDag terms.now) }
{
    if number_at(terms, a).is_some() && number_at(terms, b).is_some() {
        return None;
    }
    common_zeros(terms, a, b)
}

impl Builder {
    /// So many bits of a term, from one place up.
    fn bits_from(&mut self, low: u32, bits: u32, a: usize) -> Result<usize, NoMemory>
        requires some { 0 < bits }
        requires within { low + bits ≤ width_of self.old a }
        requires at_most_64 { width_of self.old a ≤ 64 }
        ensures continues { Continues self.old self.new }
        ensures ok { IfOk result (λ id. Stands self.new id
            (zeros.bits_from low bits (tree_of self.old a)) bits
            (λ input. zeros.word_from low bits (val self.old a input))) }
    {
        self.plain_step(Node::Extract {
            high: low + bits - 1,
            low,
            operand: a,
        })
    }

    /// An operation of what stands above zeros.
    fn binary_above(
        &mut self,
        z: Zeros,
        op: BinaryOp,
        a: usize,
        b: usize,
    ) -> Result<usize, NoMemory>
        requires leaves { LeavesSome (width_of self.old a) z }
        requires second { width_of self.old a ≡ width_of self.old b }
        requires at_most_64 { width_of self.old a ≤ 64 }
        ensures continues { Continues self.old self.new }
        ensures ok { IfOk result (λ id. Stands self.new id
            (zeros.binary_above (Some z) op (tree_of self.old a) (tree_of self.old b))
            (width_of self.old a)
            (λ input. zeros.word_above (width_of self.old a - z.result) z op (val self.old a input)
            (val self.old b input))) }
    {
        let bits = self.known().width_of(a) - z.result;
        let left = self.bits_from(z.first, bits, a)?;
        let right = self.bits_from(z.second, bits, b)?;
        let upper = self.plain_step(Node::Binary(op, left, right))?;
        let zeros = self.plain_step(Node::Num {
            width: z.result,
            value: 0,
        })?;
        self.plain_step(Node::Concat {
            high: upper,
            low: zeros,
        })
    }

    /// A test of what stands above zeros.
    fn comparison_above(
        &mut self,
        z: Zeros,
        op: Comparison,
        a: usize,
        b: usize,
    ) -> Result<usize, NoMemory>
        requires leaves { LeavesSome (width_of self.old a) z }
        requires second { width_of self.old a ≡ width_of self.old b }
        requires at_most_64 { width_of self.old a ≤ 64 }
        ensures continues { Continues self.old self.new }
        ensures ok { IfOk result (λ id. Stands self.new id
            (zeros.comparison_above (Some z) op (tree_of self.old a) (tree_of self.old b)) 1
            (λ input. zeros.test_above (width_of self.old a - z.result) z op (val self.old a input)
            (val self.old b input))) }
    {
        let bits = self.known().width_of(a) - z.result;
        let left = self.bits_from(z.first, bits, a)?;
        let right = self.bits_from(z.second, bits, b)?;
        self.plain_step(Node::Compare(op, left, right))
    }

    /// The term that an operation of two terms with a bit in common is at their own width.
    pub(crate) fn over_zeros_step(
        &mut self,
        op: BinaryOp,
        a: usize,
        b: usize,
    ) -> Result<usize, NoMemory>
        requires { Fits self.old.inputs (widths_of self.old.nodes) (Node.Binary op a b) }
        ensures continues { Continues self.old self.new }
        ensures ok { IfOk result (λ id. Stands self.new id
            (zeros.binary_over_zeros op (tree_of self.old a) (tree_of self.old b))
            (width_of self.old a)
            (λ input. binary op (val self.old a input) (val self.old b input))) }
        ensures term { IsTerm self.old.inputs (node_tree (tree_of self.old) (Node.Binary op a b)) }
    {
        match binary_zeros(self.known(), op, a, b) {
            Some(z) => self.binary_above(z, op, a, b),
            None => self.plain_step(Node::Binary(op, a, b)),
        }
    }

    /// The term that a test of two terms is at their own width.
    pub(crate) fn comparison_step(
        &mut self,
        op: Comparison,
        a: usize,
        b: usize,
    ) -> Result<usize, NoMemory>
        requires { Fits self.old.inputs (widths_of self.old.nodes) (Node.Compare op a b) }
        ensures continues { Continues self.old self.new }
        ensures ok { IfOk result (λ id. Stands self.new id
            (zeros.comparison_over_zeros op (tree_of self.old a) (tree_of self.old b)) 1
            (λ input. compare op (val self.old a input) (val self.old b input))) }
        ensures term { IsTerm self.old.inputs (node_tree (tree_of self.old) (Node.Compare op a b)) }
    {
        match comparison_zeros(self.known(), a, b) {
            Some(z) => self.comparison_above(z, op, a, b),
            None => self.plain_step(Node::Compare(op, a, b)),
        }
    }
}
