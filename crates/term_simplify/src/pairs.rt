//! Sums and differences of two terms of which one, or each, has a number: that is put last, where it meets further ones.

ghost use Rattle.std.specs.Prelude.{◌≡◌, ◌<◌, ℕ, IfOk, IfSome, length, option_map};
ghost use Rattle.bv_dag.specs.Graphs.{Graph, IsDag, val, width_of};
ghost use Rattle.bv_dag.specs.Nodes.{Fits, binary, widths_of};
ghost use Rattle.term_trees.specs.Growth.{Continues};
ghost use Rattle.term_trees.specs.Trees.{Tree, node_tree, tree_of, tree_value, IsOfWidth, IsTerm};
ghost use Rattle.term_simplify.specs.Offsets.{offset_word, wide_offset_at};
ghost use Rattle.term_simplify.specs.Pairs as pairs;
ghost use Rattle.term_simplify.specs.Pairs.{IsWidePair, pair_at};
ghost use Rattle.term_simplify.specs.Simplified.{made_of, paired};
ghost use Rattle.term_simplify.specs.Steps.{Stands};
ghost use Rattle.term_simplify.specs.WideSums.{IsWideSummand, wide_term};

use crate::builder::Builder;
use crate::known::Known;
use crate::narrowing::{Reach, reach_of};
use crate::offsets::Summand;
use crate::plan::{number_at, zero};
use crate::wide_sums::{WideSummand, wide_offset_of};
use bv_dag::{BinaryOp, Node, Word};
use std::alloc::AllocError as NoMemory;

/// An operation of two terms, and a number that it is added to, or taken from. The numbers of the two terms are in that.
#[derive(Clone, Copy, Debug)]
pub(crate) struct WidePair {
    taken: bool,
    op: BinaryOp,
    first: WideSummand,
    second: WideSummand,
    number: Word,
}

/// Two terms that are each added or taken off, and a number.
fn by_signs(
    first_taken: bool,
    second_taken: bool,
    o: WideSummand,
    p: WideSummand,
    number: Word,
) -> WidePair
    ensures is { (graph : Graph) → pair_at graph result
        ≡ pairs.by_signs first_taken second_taken (wide_term graph o) (wide_term graph p) number }
    ensures of { (graph : Graph) (width : ℕ) → IsWideSummand graph width o
        → IsWideSummand graph width p → IsOfWidth width number → IsWidePair graph width result }
{
    match (first_taken, second_taken) {
        (false, false) => WidePair {
            taken: false,
            op: BinaryOp::Add,
            first: o,
            second: p,
            number,
        },
        (false, true) => WidePair {
            taken: false,
            op: BinaryOp::Sub,
            first: o,
            second: p,
            number,
        },
        (true, false) => WidePair {
            taken: false,
            op: BinaryOp::Sub,
            first: p,
            second: o,
            number,
        },
        (true, true) => WidePair {
            taken: true,
            op: BinaryOp::Add,
            first: o,
            second: p,
            number,
        },
    }
}

/// The sum or difference of two terms with numbers.
fn pair_by(op: BinaryOp, o: WideSummand, p: WideSummand) -> Option<WidePair>
    requires { o.number.width ≡ p.number.width }
    ensures is { (graph : Graph) → option_map (pair_at graph) result
        ≡ pairs.pair_by op (wide_offset_at graph o) (wide_offset_at graph p) }
    ensures some { (graph : Graph) (width : ℕ) → IsWideSummand graph width o
        → IsWideSummand graph width p → IfSome result (λ q. IsWidePair graph width q) }
{
    match op {
        BinaryOp::Add => {
            let number = BinaryOp::Add.apply(o.number, p.number);
            Some(by_signs(o.taken, p.taken, o, p, number))
        }
        BinaryOp::Sub => {
            let number = BinaryOp::Sub.apply(o.number, p.number);
            Some(by_signs(o.taken, !p.taken, o, p, number))
        }
        _ => None,
    }
}

/// What a term is of a term and a number, unless it is a complement or a negative.
pub(crate) fn numbered_of(terms: &Known, id: usize) -> Option<WideSummand>
    requires { id < length terms.now.nodes }
    ensures some { IfSome result (λ o. IsWideSummand terms.now (width_of terms.now id) o) }
    ensures is { option_map (wide_offset_at terms.now) result
        ≡ pairs.numbered_of (tree_of terms.now id) }
    ensures fit { IsDag terms.now }
{
    match terms.node(id) {
        Node::Not(_) => None,
        Node::Neg(_) => None,
        _ => wide_offset_of(terms, id),
    }
}

/// Whether one term is told by fewer bits than another, or that has all bits of its width.
fn is_shorter(a: Reach, b: Reach, width: u32) -> bool
    ensures { result ≡ pairs.is_shorter a b width }
{
    a.unsigned < b.unsigned && a.signed < b.signed || width <= b.unsigned && width <= b.signed
}

/// Whether it is a number or has one.
fn has_number(terms: &Known, id: usize) -> bool
    requires { id < length terms.now.nodes }
    ensures { result ≡ pairs.has_number (tree_of terms.now id) }
{
    number_at(terms, id).is_some() || wide_offset_of(terms, id).is_some()
}

/// A term without a number as one with 0, where it is shorter than the sum that it meets.
fn beside(terms: &Known, sum: usize, id: usize) -> Option<WideSummand>
    requires sum { sum < length terms.now.nodes }
    requires there { id < length terms.now.nodes }
    ensures some { IfSome result (λ o. IsWideSummand terms.now (width_of terms.now id) o) }
    ensures is { option_map (wide_offset_at terms.now) result
        ≡ pairs.beside (tree_of terms.now sum) (tree_of terms.now id) }
{
    let width = terms.width_of(id);
    if has_number(terms, id) {
        return None;
    }
    if !is_shorter(reach_of(terms, id), reach_of(terms, sum), width) {
        return None;
    }
    Some(WideSummand {
        taken: false,
        by: 0,
        term: id,
        number: zero(width),
    })
}

/// The terms and the number of which an operation is a sum or difference, where one of its operands, or each, has a number.
fn pair_of(terms: &Known, op: BinaryOp, a: usize, b: usize) -> Option<WidePair>
    requires { Fits terms.now.inputs (widths_of terms.now.nodes) (Node.Binary op a b) }
    ensures some { IfSome result (λ p. IsWidePair terms.now (width_of terms.now a) p) }
    ensures is { option_map (pair_at terms.now) result
        ≡ pairs.pair_of op (tree_of terms.now a) (tree_of terms.now b) }
    ensures fit { IsDag terms.now }
{
    match (numbered_of(terms, a), numbered_of(terms, b)) {
        (Some(o), Some(p)) => pair_by(op, o, p),
        (Some(o), None) => match beside(terms, a, b) {
            Some(p) => pair_by(op, o, p),
            None => None,
        },
        (None, Some(p)) => match beside(terms, b, a) {
            Some(o) => pair_by(op, o, p),
            None => None,
        },
        (None, None) => None,
    }
}

impl Builder {
    /// An operation of two terms, and then a number with it.
    fn paired(&mut self, width: u32, p: WidePair) -> Result<usize, NoMemory>
        requires { IsWidePair self.old width p }
        ensures continues { Continues self.old self.new }
        ensures ok { IfOk result (λ id. Stands self.new id (paired (pair_at self.old p)) width
            (λ input. offset_word p.taken (binary p.op (tree_value input (wide_term self.old p.first))
            (tree_value input (wide_term self.old p.second))) p.number)) }
    {
        let first = self.widened_term(p.first.by, p.first.term)?;
        let second = self.widened_term(p.second.by, p.second.term)?;
        let term = self.unsummed_step(Node::Binary(p.op, first, second))?;
        self.sum(
            width,
            Summand {
                taken: p.taken,
                term,
                number: p.number,
            },
        )
    }

    /// The term that an operation of two terms is made as, or only some of the terms that it stands on.
    pub(crate) fn made_step(&mut self, op: BinaryOp, a: usize, b: usize) -> Result<usize, NoMemory>
        requires { Fits self.old.inputs (widths_of self.old.nodes) (Node.Binary op a b) }
        ensures continues { Continues self.old self.new }
        ensures ok { IfOk result (λ id. Stands self.new id
            (made_of op (tree_of self.old a) (tree_of self.old b)) (width_of self.old a)
            (λ input. binary op (val self.old a input) (val self.old b input))) }
        ensures term { IsTerm self.old.inputs (node_tree (tree_of self.old) (Node.Binary op a b)) }
    {
        match pair_of(self.known(), op, a, b) {
            Some(p) => self.paired(p.number.width(), p),
            None => self.sum_step(op, a, b),
        }
    }
}
