//! Sums and differences: the numbers of two are one, also of one that was widened, and what is negative is taken off.

ghost use Rattle.std.specs.Prelude.{◌≡◌, ◌⊎◌, ◌+◌, ◌<◌, ◌≤◌, ℕ, IfOk, IfSome, OnErr, false, length, option_map};
ghost use Rattle.bv_dag.specs.Graphs.{Graph, IsDag, val, width_of};
ghost use Rattle.bv_dag.specs.Nodes.{Fits, binary, node_value, node_width, widths_of};
ghost use Rattle.term_trees.specs.Growth.{Continues};
ghost use Rattle.term_trees.specs.Trees.{Tree, node_tree, tree_of, tree_value, IsOfWidth, IsTerm};
ghost use Rattle.term_simplify.specs.Builds.{BuildsAs};
ghost use Rattle.term_simplify.specs.Offsets as offsets;
ghost use Rattle.term_simplify.specs.Offsets.{IsSummand, offset_at, offset_in, offset_word, operation_at, sum_at, sum_of, wide_offset_at};
ghost use Rattle.term_simplify.specs.Plain.{further, tree_number};
ghost use Rattle.term_simplify.specs.Simplified.{summed};
ghost use Rattle.term_simplify.specs.Steps.{Stands};
ghost use Rattle.term_simplify.specs.Told.{unsummed, untold};
ghost use Rattle.term_simplify.specs.WideSums.{IsWideSummand, wide_term};

use crate::binaries::ones;
use crate::builder::Builder;
use crate::known::Known;
use crate::plan::{number_at, zero};
use crate::wide_sums::{WideSummand, wide_offset_of};
use bv_dag::{BinaryOp, Node, Word};
use std::alloc::AllocError as NoMemory;

/// A number that a term is added to, or taken from.
#[derive(Clone, Copy, Debug)]
pub(crate) struct Summand {
    pub taken: bool,
    pub term: usize,
    pub number: Word,
}

/// An operation of two terms.
#[derive(Clone, Copy, Debug)]
pub(crate) struct Operation {
    op: BinaryOp,
    first: usize,
    second: usize,
}

/// What an operation of two terms is of a term and a number, by the numbers that they are.
pub(crate) fn offset_from(
    op: BinaryOp,
    a: usize,
    x: Option<Word>,
    b: usize,
    y: Option<Word>,
) -> Option<Summand>
    ensures is { (term_at : ℕ → Tree) → option_map (offset_in term_at) result
        ≡ offsets.offset_by op x y (term_at a) (term_at b) }
    ensures term { IfSome result (λ o. (o.term ≡ a) ⊎ (o.term ≡ b)) }
    ensures number { (width : ℕ) → IfSome x (λ n. IsOfWidth width n)
        → IfSome y (λ n. IsOfWidth width n) → IfSome result (λ o. IsOfWidth width o.number) }
{
    match (op, x, y) {
        (BinaryOp::Add, None, Some(y)) => Some(Summand {
            taken: false,
            term: a,
            number: y,
        }),
        (BinaryOp::Sub, None, Some(y)) => Some(Summand {
            taken: false,
            term: a,
            number: y.negated(),
        }),
        (BinaryOp::Sub, Some(x), None) => Some(Summand {
            taken: true,
            term: b,
            number: x,
        }),
        _ => None,
    }
}

/// What an operation is of a term and a number, if it is a sum or difference of them.
fn offset_by(terms: &Known, op: BinaryOp, a: usize, b: usize) -> Option<Summand>
    requires { Fits terms.now.inputs (widths_of terms.now.nodes) (Node.Binary op a b) }
    ensures some { IfSome result (λ o. IsSummand terms.now (width_of terms.now a) o) }
    ensures is { option_map (offset_at terms.now) result
        ≡ offsets.offset_of (node_tree (tree_of terms.now) (Node.Binary op a b)) }
{
    offset_from(op, a, number_at(terms, a), b, number_at(terms, b))
}

/// What a term is of a term and a number, if it is a sum or difference of them.
pub(crate) fn offset_of(terms: &Known, id: usize) -> Option<Summand>
    requires { id < length terms.now.nodes }
    ensures some { IfSome result (λ o. IsSummand terms.now (width_of terms.now id) o) }
    ensures is { option_map (offset_at terms.now) result
        ≡ offsets.offset_of (tree_of terms.now id) }
{
    let width = terms.width_of(id);
    match terms.node(id) {
        Node::Not(term) => Some(Summand {
            taken: true,
            term,
            number: ones(width),
        }),
        Node::Neg(term) => Some(Summand {
            taken: true,
            term,
            number: zero(width),
        }),
        Node::Binary(op, a, b) => offset_by(terms, op, a, b),
        _ => None,
    }
}

/// It and a further number, or less one.
fn second_offset(op: BinaryOp, y: Word, o: WideSummand) -> Option<WideSummand>
    requires { o.number.width ≡ y.width }
    ensures is { (graph : Graph) → option_map (wide_offset_at graph) result
        ≡ offsets.second_offset op y (wide_offset_at graph o) }
    ensures some { (graph : Graph) (width : ℕ) → IsWideSummand graph width o → IsOfWidth width y
        → IfSome result (λ p. IsWideSummand graph width p) }
{
    match op {
        BinaryOp::Add | BinaryOp::Sub => Some(WideSummand {
            taken: o.taken,
            by: o.by,
            term: o.term,
            number: op.apply(o.number, y),
        }),
        _ => None,
    }
}

/// A further number and it, or a number less it.
fn first_offset(op: BinaryOp, x: Word, o: WideSummand) -> Option<WideSummand>
    requires { x.width ≡ o.number.width }
    ensures is { (graph : Graph) → option_map (wide_offset_at graph) result
        ≡ offsets.first_offset op x (wide_offset_at graph o) }
    ensures some { (graph : Graph) (width : ℕ) → IsWideSummand graph width o → IsOfWidth width x
        → IfSome result (λ p. IsWideSummand graph width p) }
{
    match op {
        BinaryOp::Add => Some(WideSummand {
            taken: o.taken,
            by: o.by,
            term: o.term,
            number: BinaryOp::Add.apply(o.number, x),
        }),
        BinaryOp::Sub => Some(WideSummand {
            taken: !o.taken,
            by: o.by,
            term: o.term,
            number: BinaryOp::Sub.apply(x, o.number),
        }),
        _ => None,
    }
}

/// The term and the number of which an operation is a sum or difference, where one of its operands alone is a number.
fn offset_sum(terms: &Known, op: BinaryOp, a: usize, b: usize) -> Option<WideSummand>
    requires { Fits terms.now.inputs (widths_of terms.now.nodes) (Node.Binary op a b) }
    ensures some { IfSome result (λ o. IsWideSummand terms.now (width_of terms.now a) o) }
    ensures is { option_map (wide_offset_at terms.now) result
        ≡ offsets.offset_sum op (tree_number (tree_of terms.now a))
        (tree_number (tree_of terms.now b)) (tree_of terms.now a) (tree_of terms.now b) }
    ensures fit { IsDag terms.now }
{
    match (number_at(terms, a), number_at(terms, b)) {
        (None, Some(y)) => match wide_offset_of(terms, a) {
            Some(o) => second_offset(op, y, o),
            None => None,
        },
        (Some(x), None) => match wide_offset_of(terms, b) {
            Some(o) => first_offset(op, x, o),
            None => None,
        },
        (None, None) => None,
        (Some(_), Some(_)) => None,
    }
}

/// The term of which a term is the negative.
fn under_negative(terms: &Known, id: usize) -> Option<usize>
    requires { id < length terms.now.nodes }
    ensures tree { option_map (tree_of terms.now) result
        ≡ offsets.under_negative (tree_of terms.now id) }
    ensures wide { IfSome result (λ k. width_of terms.now k ≡ width_of terms.now id) }
{
    match terms.node(id) {
        Node::Neg(term) => Some(term),
        _ => None,
    }
}

/// An operation with a number on the right of a sum, and with what is negative taken off.
fn turned(terms: &Known, op: BinaryOp, a: usize, b: usize) -> Operation
    requires { Fits terms.now.inputs (widths_of terms.now.nodes) (Node.Binary op a b) }
    ensures fits { Fits terms.now.inputs (widths_of terms.now.nodes)
        (Node.Binary result.op result.first result.second) }
    ensures is { operation_at terms.now result ≡ offsets.turned op
        (tree_number (tree_of terms.now a)) (offsets.under_negative (tree_of terms.now a))
        (offsets.under_negative (tree_of terms.now b)) (tree_of terms.now a) (tree_of terms.now b) }
{
    let (op, first, second) = match (op, number_at(terms, a)) {
        (BinaryOp::Add, Some(_)) => (BinaryOp::Add, b, a),
        (BinaryOp::Add, None) => match (under_negative(terms, a), under_negative(terms, b)) {
            (_, Some(v)) => (BinaryOp::Sub, a, v),
            (Some(u), None) => (BinaryOp::Sub, b, u),
            (None, None) => (BinaryOp::Add, a, b),
        },
        (BinaryOp::Sub, _) => match under_negative(terms, b) {
            Some(v) => (BinaryOp::Add, a, v),
            None => (BinaryOp::Sub, a, b),
        },
        _ => (op, a, b),
    };
    Operation { op, first, second }
}

impl Builder {
    /// A term on the way that is no sum which is made as another.
    pub(crate) fn unsummed_step(&mut self, node: Node) -> Result<usize, NoMemory>
        requires { Fits self.old.inputs (widths_of self.old.nodes) node }
        ensures continues { Continues self.old self.new }
        ensures ok { IfOk result (λ id. Stands self.new id (unsummed (tree_of self.old) node)
            (node_width (widths_of self.old.nodes) node)
            (λ input. node_value input (λ k. val self.old k input) node)) }
    {
        self.unsummed(node)
    }

    /// A term and a number, or the number less the term.
    pub(crate) fn sum(&mut self, width: u32, o: Summand) -> Result<usize, NoMemory>
        requires { IsSummand self.old width o }
        ensures continues { Continues self.old self.new }
        ensures ok { IfOk result (λ id. Stands self.new id
            (summed (sum_at o.taken (tree_of self.old o.term) o.number)) width
            (λ input. offset_word o.taken (val self.old o.term input) o.number)) }
    {
        let number = self.plain_step(Node::Num {
            width: o.number.width(),
            value: o.number.number(),
        })?;
        if o.taken {
            self.unsummed_step(Node::Binary(BinaryOp::Sub, number, o.term))
        } else {
            self.unsummed_step(Node::Binary(BinaryOp::Add, o.term, number))
        }
    }

    /// A term with `by` zeros above it, where there are any.
    pub(crate) fn widened_term(&mut self, by: u32, id: usize) -> Result<usize, NoMemory>
        requires there { id < length self.old.nodes }
        requires some { 0 < width_of self.old id }
        requires room { width_of self.old id + by ≤ 64 }
        ensures continues { Continues self.old self.new }
        ensures ok { IfOk result (λ more. Stands self.new more
            (further by false (tree_of self.old id)) (width_of self.old id + by)
            (λ input. tree_value input (further by false (tree_of self.old id)))) }
    {
        self.further(by, false, id)
    }

    /// The same of a term that is widened first.
    fn wide_sum(&mut self, width: u32, o: WideSummand) -> Result<usize, NoMemory>
        requires { IsWideSummand self.old width o }
        ensures continues { Continues self.old self.new }
        ensures ok { IfOk result (λ id. Stands self.new id
            (summed (sum_at o.taken (wide_term self.old o) o.number)) width
            (λ input. offset_word o.taken (tree_value input (wide_term self.old o)) o.number)) }
    {
        let term = self.widened_term(o.by, o.term)?;
        self.sum(
            width,
            Summand {
                taken: o.taken,
                term,
                number: o.number,
            },
        )
    }

    /// The term that an operation of two terms is made as with one number, or with none, or only some of the terms that it stands on.
    pub(crate) fn sum_step(&mut self, op: BinaryOp, a: usize, b: usize) -> Result<usize, NoMemory>
        requires { Fits self.old.inputs (widths_of self.old.nodes) (Node.Binary op a b) }
        ensures continues { Continues self.old self.new }
        ensures ok { IfOk result (λ id. Stands self.new id
            (summed (sum_of op (tree_of self.old a) (tree_of self.old b))) (width_of self.old a)
            (λ input. binary op (val self.old a input) (val self.old b input))) }
        ensures term { IsTerm self.old.inputs (node_tree (tree_of self.old) (Node.Binary op a b)) }
    {
        match offset_sum(self.known(), op, a, b) {
            Some(o) => self.wide_sum(o.number.width(), o),
            None => {
                let made = turned(self.known(), op, a, b);
                self.unsummed_step(Node::Binary(made.op, made.first, made.second))
            }
        }
    }

    /// The term that an operation of two terms is made as.
    pub(crate) fn summed(&mut self, op: BinaryOp, a: usize, b: usize) -> Result<usize, NoMemory>
        requires { Fits self.old.inputs (widths_of self.old.nodes) (Node.Binary op a b) }
        ensures ok { IfOk result (BuildsAs (untold (tree_of self.old) (Node.Binary op a b))
            self.old self.new (Node.Binary op a b)) }
        ensures err { OnErr result (self.new ≡ self.old) }
        ensures term { IsTerm self.old.inputs (node_tree (tree_of self.old) (Node.Binary op a b)) }
    {
        let len = self.len();
        let answer = self.made_step(op, a, b);
        self.settled(len, answer)
    }
}
