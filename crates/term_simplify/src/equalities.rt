//! Tests that another term tells: a term is below 0 by its sign, is a number where what it is made of is another, and as a sum
//! is below a number where its term lies between two.

ghost use Rattle.std.specs.Prelude.{◌≡◌, ◌<◌, ◌≤◌, ◌+◌, ◌⊎◌, ℕ, List, All, Some, None, IfOk, IfSome, OnErr, length, option_map};
ghost use Rattle.bv_dag.specs.Graphs.{IsDag, val, width_of};
ghost use Rattle.bv_dag.specs.Nodes.{Fits, node_value, node_width, widths_of};
ghost use Rattle.term_trees.specs.Growth.{Continues};
ghost use Rattle.term_trees.specs.Trees.{tree_of, node_tree, IsOfWidth, IsTerm};
ghost use Rattle.term_simplify.specs.Builds.{Builds};
ghost use Rattle.term_simplify.specs.Equalities as equalities;
ghost use Rattle.term_simplify.specs.Moves.{unmoved};
ghost use Rattle.term_simplify.specs.Plain.{tree_number};
ghost use Rattle.term_simplify.specs.Steps.{Stands};
ghost use Rattle.term_simplify.specs.Told.{IsEquality, IsTold, Tells, peeled_at, told_tree, told_word, untold};

use crate::balances::{WideBalance, balance_of};
use crate::builder::Builder;
use crate::extensions::extended;
use crate::intervals::{Between, interval_of};
use crate::known::Known;
use crate::plan::number_at;
use bv_dag::{BinaryOp, Comparison, Node, Word};
use std::alloc::AllocError as NoMemory;

/// A term and the number that it is compared with.
#[derive(Clone, Copy, Debug)]
pub(crate) struct Equality {
    pub term: usize,
    pub number: Word,
}

/// What tells a test: the sign of a term, or whether a term is a number, lies between two, or is another and a number.
#[derive(Clone, Copy, Debug)]
pub(crate) enum Told {
    Sign { operand: usize, width: u32 },
    Equal(Equality),
    Within(Between),
    Balanced(WideBalance),
}

/// What the first operand is where an operation of it and this number is `n`.
fn undone_second(op: BinaryOp, n: Word, y: Word) -> Option<Word>
    requires { y.width ≡ n.width }
    ensures { result ≡ equalities.undone_second op n y }
{
    match op {
        BinaryOp::Add => Some(BinaryOp::Sub.apply(n, y)),
        BinaryOp::Sub => Some(BinaryOp::Add.apply(n, y)),
        BinaryOp::Xor => Some(BinaryOp::Xor.apply(n, y)),
        BinaryOp::Mul
        | BinaryOp::Udiv
        | BinaryOp::Urem
        | BinaryOp::And
        | BinaryOp::Or
        | BinaryOp::Shl
        | BinaryOp::Lshr
        | BinaryOp::Ashr => None,
    }
}

/// What the second operand is where an operation of this number and it is `n`.
fn undone_first(op: BinaryOp, n: Word, x: Word) -> Option<Word>
    requires { x.width ≡ n.width }
    ensures { result ≡ equalities.undone_first op n x }
{
    match op {
        BinaryOp::Add => Some(BinaryOp::Sub.apply(n, x)),
        BinaryOp::Sub => Some(BinaryOp::Sub.apply(x, n)),
        BinaryOp::Xor => Some(BinaryOp::Xor.apply(n, x)),
        BinaryOp::Mul
        | BinaryOp::Udiv
        | BinaryOp::Urem
        | BinaryOp::And
        | BinaryOp::Or
        | BinaryOp::Shl
        | BinaryOp::Lshr
        | BinaryOp::Ashr => None,
    }
}

/// A term, where there is a number.
fn with_term(term: usize, number: Option<Word>) -> Option<Equality>
    ensures { result ≡ option_map (λ n. record { term = term; number = n }) number }
{
    match number {
        Some(number) => Some(Equality { term, number }),
        None => None,
    }
}

/// Which operand of an operation is which number, exactly where the operation is `n`.
fn undone_by(terms: &Known, op: BinaryOp, a: usize, b: usize, n: Word) -> Option<Equality>
    requires fits { Fits terms.now.inputs (widths_of terms.now.nodes) (Node.Binary op a b) }
    requires wide { n.width ≡ width_of terms.now a }
    ensures is { option_map (peeled_at terms.now) result
        ≡ equalities.undone (node_tree (tree_of terms.now) (Node.Binary op a b)) n }
    ensures there { IfSome result (λ e. (e.term ≡ a) ⊎ (e.term ≡ b)) }
{
    match (number_at(terms, a), number_at(terms, b)) {
        (None, Some(y)) => with_term(a, undone_second(op, n, y)),
        (Some(x), None) => with_term(b, undone_first(op, n, x)),
        _ => None,
    }
}

/// The operand of what widens it, and low bits of a number that are widened to it.
fn undone_widened(terms: &Known, by: u32, signed: bool, a: usize, n: Word) -> Option<Equality>
    requires there { a < length terms.now.nodes }
    requires some { 1 ≤ by }
    requires wide { n.width ≡ width_of terms.now a + by }
    requires at_most_64 { n.width ≤ 64 }
    ensures is { option_map (peeled_at terms.now) result
        ≡ equalities.undone (node_tree (tree_of terms.now) (Node.Extend by signed a)) n }
    ensures there { IfSome result (λ e. e.term ≡ a) }
{
    let low = n.extracted(terms.width_of(a) - 1, 0);
    if extended(low, by, signed).number() == n.number() {
        Some(Equality {
            term: a,
            number: low,
        })
    } else {
        None
    }
}

/// Which of two joined terms is which number, exactly where they are `n`, or tells by itself that they are not.
fn undone_joined(terms: &Known, a: usize, b: usize, n: Word) -> Option<Equality>
    requires fits { Fits terms.now.inputs (widths_of terms.now.nodes) (Node.Concat a b) }
    requires wide { n.width ≡ width_of terms.now a + width_of terms.now b }
    ensures is { option_map (peeled_at terms.now) result
        ≡ equalities.undone (node_tree (tree_of terms.now) (Node.Concat a b)) n }
    ensures there { IfSome result (λ e. (e.term ≡ a) ⊎ (e.term ≡ b)) }
{
    let width = terms.width_of(b);
    let upper = Equality {
        term: a,
        number: n.extracted(n.width() - 1, width),
    };
    let lower = Equality {
        term: b,
        number: n.extracted(width - 1, 0),
    };
    match (number_at(terms, a), number_at(terms, b)) {
        (None, Some(y)) => {
            if y.number() == lower.number.number() {
                Some(upper)
            } else {
                Some(lower)
            }
        }
        (Some(x), None) => {
            if x.number() == upper.number.number() {
                Some(lower)
            } else {
                Some(upper)
            }
        }
        _ => None,
    }
}

/// What is a number exactly where a term is one, by the term's top operation.
pub(crate) fn undone(terms: &Known, e: Equality) -> Option<Equality>
    requires { IsEquality terms.now e }
    ensures is { option_map (peeled_at terms.now) result
        ≡ equalities.undone (tree_of terms.now e.term) e.number }
    ensures there { IfSome result (λ f. f.term < length terms.now.nodes) }
    ensures earlier { IfSome result (λ f. f.term < e.term) }
    ensures fit { IsDag terms.now }
{
    match terms.node(e.term) {
        Node::Not(term) => Some(Equality {
            term,
            number: e.number.complement(),
        }),
        Node::Neg(term) => Some(Equality {
            term,
            number: e.number.negated(),
        }),
        Node::Binary(op, a, b) => undone_by(terms, op, a, b, e.number),
        Node::Extend {
            by,
            signed,
            operand,
        } => undone_widened(terms, by, signed, operand, e.number),
        Node::Concat { high, low } => undone_joined(terms, high, low, e.number),
        _ => None,
    }
}

/// The same as far as it goes.
fn peeled(terms: &Known, e: Equality) -> Equality
    requires { IsEquality terms.now e }
    ensures is_equality { IsEquality terms.now result }
    ensures is { peeled_at terms.now result
        ≡ equalities.peeled (tree_of terms.now e.term) e.number }
    ensures worth { (input : List ℕ) → All (λ b. b < 256) input
        → told_word terms.now (Told.Equal result) input ≡ told_word terms.now (Told.Equal e) input }
    ensures fit { IsDag terms.now }
{
    let mut term = e.term;
    let mut number = e.number;
    while let Some(inner) = undone(terms, Equality { term, number }) {
        term = inner.term;
        number = inner.number;
    }
    Equality { term, number }
}

/// A term that is below a number.
fn told_below(terms: &Known, a: usize, y: Word, b: usize) -> Option<Told>
    requires fits { Fits terms.now.inputs (widths_of terms.now.nodes)
        (Node.Compare Comparison.Ult a b) }
    requires first { tree_number (tree_of terms.now a) ≡ None }
    requires second { tree_number (tree_of terms.now b) ≡ Some y }
    requires dag { IsDag terms.now }
    ensures some { IfSome result (λ t. Tells terms.now (Node.Compare Comparison.Ult a b) t) }
    ensures none { result ≡ None → unmoved (tree_of terms.now) (Node.Compare Comparison.Ult a b)
        ≡ untold (tree_of terms.now) (Node.Compare Comparison.Ult a b) }
{
    match interval_of(terms, Equality { term: a, number: y }) {
        Some(interval) => Some(Told::Within(interval)),
        None => None,
    }
}

/// A term and then a number.
fn told_second(terms: &Known, op: Comparison, a: usize, y: Word, b: usize) -> Option<Told>
    requires fits { Fits terms.now.inputs (widths_of terms.now.nodes) (Node.Compare op a b) }
    requires first { tree_number (tree_of terms.now a) ≡ None }
    requires second { tree_number (tree_of terms.now b) ≡ Some y }
    requires dag { IsDag terms.now }
    ensures some { IfSome result (λ t. Tells terms.now (Node.Compare op a b) t) }
    ensures none { result ≡ None → unmoved (tree_of terms.now) (Node.Compare op a b)
        ≡ untold (tree_of terms.now) (Node.Compare op a b) }
{
    match op {
        Comparison::Ult => told_below(terms, a, y, b),
        Comparison::Slt => {
            if y.number() == 0 {
                Some(Told::Sign {
                    operand: a,
                    width: y.width(),
                })
            } else {
                None
            }
        }
        Comparison::Eq => match undone(terms, Equality { term: a, number: y }) {
            Some(inner) => Some(Told::Equal(peeled(terms, inner))),
            None => None,
        },
    }
}

/// A number and then a term.
fn told_first(terms: &Known, op: Comparison, x: Word, a: usize, b: usize) -> Option<Told>
    requires fits { Fits terms.now.inputs (widths_of terms.now.nodes) (Node.Compare op a b) }
    requires first { tree_number (tree_of terms.now a) ≡ Some x }
    requires second { tree_number (tree_of terms.now b) ≡ None }
    requires dag { IsDag terms.now }
    ensures some { IfSome result (λ t. Tells terms.now (Node.Compare op a b) t) }
    ensures none { result ≡ None → unmoved (tree_of terms.now) (Node.Compare op a b)
        ≡ untold (tree_of terms.now) (Node.Compare op a b) }
{
    match op {
        Comparison::Ult => None,
        Comparison::Slt => None,
        Comparison::Eq => Some(Told::Equal(peeled(terms, Equality { term: b, number: x }))),
    }
}

/// Two terms that are no numbers.
fn told_terms(terms: &Known, op: Comparison, a: usize, b: usize) -> Option<Told>
    requires fits { Fits terms.now.inputs (widths_of terms.now.nodes) (Node.Compare op a b) }
    requires first { tree_number (tree_of terms.now a) ≡ None }
    requires second { tree_number (tree_of terms.now b) ≡ None }
    requires dag { IsDag terms.now }
    ensures some { IfSome result (λ t. Tells terms.now (Node.Compare op a b) t) }
    ensures none { result ≡ None → unmoved (tree_of terms.now) (Node.Compare op a b)
        ≡ untold (tree_of terms.now) (Node.Compare op a b) }
{
    match op {
        Comparison::Ult => None,
        Comparison::Slt => None,
        Comparison::Eq => match balance_of(terms, a, b) {
            Some(balance) => Some(Told::Balanced(balance)),
            None => None,
        },
    }
}

/// What tells a test of two terms.
fn told_by(terms: &Known, op: Comparison, a: usize, b: usize) -> Option<Told>
    requires { Fits terms.now.inputs (widths_of terms.now.nodes) (Node.Compare op a b) }
    ensures some { IfSome result (λ t. Tells terms.now (Node.Compare op a b) t) }
    ensures none { result ≡ None → unmoved (tree_of terms.now) (Node.Compare op a b)
        ≡ untold (tree_of terms.now) (Node.Compare op a b) }
    ensures fit { IsDag terms.now }
{
    match (number_at(terms, a), number_at(terms, b)) {
        (None, Some(y)) => told_second(terms, op, a, y, b),
        (Some(x), None) => told_first(terms, op, x, a, b),
        (None, None) => told_terms(terms, op, a, b),
        (Some(_), Some(_)) => None,
    }
}

/// What tells a node, if it is such a test.
pub(crate) fn told_of(terms: &Known, node: Node) -> Option<Told>
    requires { Fits terms.now.inputs (widths_of terms.now.nodes) node }
    ensures some { IfSome result (λ t. Tells terms.now node t) }
    ensures none { result ≡ None → unmoved (tree_of terms.now) node
        ≡ untold (tree_of terms.now) node }
    ensures fit { IfSome result (λ _. IsDag terms.now) }
{
    match node {
        Node::Compare(op, a, b) => told_by(terms, op, a, b),
        _ => None,
    }
}

impl Builder {
    /// A term on the way that is no test which another tells.
    pub(crate) fn untold_step(&mut self, node: Node) -> Result<usize, NoMemory>
        requires { Fits self.old.inputs (widths_of self.old.nodes) node }
        ensures continues { Continues self.old self.new }
        ensures ok { IfOk result (λ id. Stands self.new id (untold (tree_of self.old) node)
            (node_width (widths_of self.old.nodes) node)
            (λ input. node_value input (λ k. val self.old k input) node)) }
    {
        self.untold(node)
    }

    /// The term that tells a test, or only some of those that it stands on.
    fn told(&mut self, told: Told) -> Result<usize, NoMemory>
        requires { IsTold self.old told }
        ensures continues { Continues self.old self.new }
        ensures ok { IfOk result (λ id. Stands self.new id (told_tree self.old told) 1
            (told_word self.old told)) }
    {
        match told {
            Told::Sign { operand, width } => {
                let top = width - 1;
                self.plain_step(Node::Extract {
                    high: top,
                    low: top,
                    operand,
                })
            }
            Told::Equal(e) => {
                let number = self.plain_step(Node::Num {
                    width: e.number.width(),
                    value: e.number.number(),
                })?;
                self.untold_step(Node::Compare(Comparison::Eq, e.term, number))
            }
            Told::Within(b) => self.between(b),
            Told::Balanced(b) => self.balance(b.width(), b),
        }
    }

    /// The term that tells a test.
    pub(crate) fn tell(&mut self, told: Told) -> Result<usize, NoMemory>
        requires { IsTold self.old told }
        ensures ok { IfOk result (λ id. Builds self.old self.new id (told_tree self.old told) 1
            (told_word self.old told)) }
        ensures err { OnErr result (self.new ≡ self.old) }
    {
        let len = self.len();
        let answer = self.told(told);
        self.settled(len, answer)
    }
}
