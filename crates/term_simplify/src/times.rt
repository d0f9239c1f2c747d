//! Products of a term by a number: sums of the term, moved up, one for each digit of the number's non-adjacent form.

ghost use Rattle.std.specs.Prelude.{◌≡◌, ◌+◌, ◌^◌, ◌<◌, ◌≤◌, ◌==◌, ℕ, IfOk, IfSome, List, None, OnErr};
ghost use Rattle.bv_dag.specs.Graphs.{IsDag, val, width_of};
ghost use Rattle.bv_dag.specs.Nodes.{Fits, node_value, node_width, widths_of};
ghost use Rattle.term_trees.specs.Growth.{Continues};
ghost use Rattle.term_trees.specs.Trees.{tree_of, node_tree, IsTerm};
ghost use Rattle.term_simplify.specs.Builds.{BuildsAs};
ghost use Rattle.term_simplify.specs.Divisions.{unmultiplied};
ghost use Rattle.term_simplify.specs.Steps.{Stands};
ghost use Rattle.term_simplify.specs.Times.{digit_op, other_digits, own, raised, raised_word, times, times_word, IsProduct};

use crate::binaries::ones;
use crate::builder::Builder;
use crate::known::Known;
use crate::plan::number_at;
use bv_dag::{BinaryOp, Node, Word};
use std::alloc::AllocError as NoMemory;

/// A term of this width that is multiplied by a number.
#[derive(Clone, Copy, Debug)]
pub(crate) struct Product {
    operand: usize,
    width: u32,
    number: u64,
}

/// Whether the last digit of an odd number is added or taken off.
fn digit_op(number: u64) -> BinaryOp
    ensures { result ≡ digit_op number }
{
    if number % 4 == 1 {
        BinaryOp::Add
    } else {
        BinaryOp::Sub
    }
}

/// What the digits of an odd number before the last one write.
fn other_digits(number: u64) -> u64
    ensures { result ≡ other_digits number }
{
    if number % 4 == 1 {
        number / 2
    } else {
        number / 2 + 1
    }
}

/// Whether a number of so many bits is -1.
fn is_minus_one(width: u32, number: u64) -> bool
    requires not_empty { 0 < width }
    requires at_most_64 { width ≤ 64 }
    ensures { result ≡ (number + 1 == 2 ^ width) }
{
    number == ones(width).number()
}

/// A term that is multiplied by this number, unless that is 0 or 1.
fn product_with(operand: usize, by: Word) -> Option<Product>
    ensures some { IfSome result (λ p. 1 < by.number) }
    ensures is { IfSome result (λ p. p
        ≡ record { operand = operand; width = by.width; number = by.number }) }
    ensures none { result ≡ None → by.number ≤ 1 }
    ensures in_range { by.number < 2 ^ by.width }
    ensures at_most_64 { by.width ≤ 64 }
{
    if by.number() > 1 {
        Some(Product {
            operand,
            width: by.width(),
            number: by.number(),
        })
    } else {
        None
    }
}

/// The term and the number that an operation multiplies, if one of its operands alone is a number, and not 0 or 1.
fn product_by(terms: &Known, op: BinaryOp, a: usize, b: usize) -> Option<Product>
    requires { Fits terms.now.inputs (widths_of terms.now.nodes) (Node.Binary op a b) }
    ensures some { IfSome result (λ p. IsProduct terms.now p) }
    ensures tree { IfSome result (λ p. own (tree_of terms.now) (Node.Binary op a b)
        ≡ times p.width 0 p.number (tree_of terms.now p.operand)) }
    ensures worth { IfSome result (λ p. (input : List ℕ)
        → times_word p.width 0 p.number (val terms.now p.operand input)
        ≡ node_value input (λ k. val terms.now k input) (Node.Binary op a b)) }
    ensures width { IfSome result (λ p. p.width
        ≡ node_width (widths_of terms.now.nodes) (Node.Binary op a b)) }
    ensures none { result ≡ None → own (tree_of terms.now) (Node.Binary op a b)
        ≡ unmultiplied (tree_of terms.now) (Node.Binary op a b) }
    ensures fit { IfSome result (λ _. IsDag terms.now) }
{
    match (op, number_at(terms, a), number_at(terms, b)) {
        (BinaryOp::Mul, Some(x), None) => product_with(b, x),
        (BinaryOp::Mul, None, Some(y)) => product_with(a, y),
        _ => None,
    }
}

/// The term and the number that a node multiplies.
fn product_of(terms: &Known, node: Node) -> Option<Product>
    requires { Fits terms.now.inputs (widths_of terms.now.nodes) node }
    ensures some { IfSome result (λ p. IsProduct terms.now p) }
    ensures tree { IfSome result (λ p. own (tree_of terms.now) node
        ≡ times p.width 0 p.number (tree_of terms.now p.operand)) }
    ensures worth { IfSome result (λ p. (input : List ℕ)
        → times_word p.width 0 p.number (val terms.now p.operand input)
        ≡ node_value input (λ k. val terms.now k input) node) }
    ensures width { IfSome result (λ p. p.width ≡ node_width (widths_of terms.now.nodes) node) }
    ensures none { result ≡ None → own (tree_of terms.now) node ≡ unmultiplied (tree_of terms.now) node }
    ensures fit { IfSome result (λ _. IsDag terms.now) }
{
    match node {
        Node::Binary(op, a, b) => product_by(terms, op, a, b),
        _ => None,
    }
}

impl Builder {
    /// A term above so many zeros.
    fn raised(&mut self, by: u32, a: usize) -> Result<usize, NoMemory>
        requires some { 0 < width_of self.old a }
        requires fits { width_of self.old a + by ≤ 64 }
        ensures continues { Continues self.old self.new }
        ensures ok { IfOk result (λ id. Stands self.new id (raised by (tree_of self.old a))
            (width_of self.old a + by) (λ input. raised_word by (val self.old a input))) }
    {
        if by == 0 {
            return Ok(a);
        }
        let zeros = self.plain_step(Node::Num {
            width: by,
            value: 0,
        })?;
        self.plain_step(Node::Concat {
            high: a,
            low: zeros,
        })
    }

    /// A number times the lower bits of a term, so many as the width, and moved up; or only some of the terms that it stands
    /// on.
    fn times(&mut self, width: u32, by: u32, number: u64, operand: usize) -> Result<usize, NoMemory>
        requires some { 0 < number }
        requires in_range { number < 2 ^ width }
        requires wide { width ≤ width_of self.old operand }
        requires fits { width + by ≤ 64 }
        ensures continues { Continues self.old self.new }
        ensures ok { IfOk result (λ id. Stands self.new id
            (times width by number (tree_of self.old operand)) (width + by)
            (λ input. times_word width by number (val self.old operand input))) }
    {
        if number % 2 == 0 {
            return self.times(width - 1, by + 1, number / 2, operand);
        }
        let low = self.plain_step(Node::Extract {
            high: width - 1,
            low: 0,
            operand,
        })?;
        if number == 1 {
            return self.raised(by, low);
        }
        if is_minus_one(width, number) {
            let negative = self.plain_step(Node::Neg(low))?;
            return self.raised(by, negative);
        }
        let others = self.times(width - 1, 1, other_digits(number), operand)?;
        let sum = self.plain_step(Node::Binary(digit_op(number), others, low))?;
        self.raised(by, sum)
    }

    /// The term that a node is at its own width, on the way to another.
    pub(crate) fn own_step(&mut self, node: Node) -> Result<usize, NoMemory>
        requires { Fits self.old.inputs (widths_of self.old.nodes) node }
        ensures continues { Continues self.old self.new }
        ensures ok { IfOk result (λ id. Stands self.new id (own (tree_of self.old) node)
            (node_width (widths_of self.old.nodes) node)
            (λ input. node_value input (λ k. val self.old k input) node)) }
        ensures term { IsTerm self.old.inputs (node_tree (tree_of self.old) node) }
    {
        match product_of(self.known(), node) {
            Some(p) => self.times(p.width, 0, p.number, p.operand),
            None => self.unmultiplied_step(node),
        }
    }

    /// The term that a node is at its own width.
    pub(crate) fn own(&mut self, node: Node) -> Result<usize, NoMemory>
        requires { Fits self.old.inputs (widths_of self.old.nodes) node }
        ensures ok { IfOk result (BuildsAs (own (tree_of self.old) node) self.old self.new node) }
        ensures err { OnErr result (self.new ≡ self.old) }
        ensures term { IsTerm self.old.inputs (node_tree (tree_of self.old) node) }
    {
        let len = self.len();
        let answer = self.own_step(node);
        self.settled(len, answer)
    }
}
