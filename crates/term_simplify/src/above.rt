//! Numbers that are below a sum of a term and a number: the term lies outside of an interval.

ghost use Rattle.std.specs.Prelude.{◌≡◌, ◌<◌, Some, None, IfOk, IfSome, OnErr, length, option_map};
ghost use Rattle.bv_dag.specs.BitVectors.{bvnot};
ghost use Rattle.bv_dag.specs.Graphs.{IsDag, val, width_of};
ghost use Rattle.bv_dag.specs.Nodes.{Fits, widths_of};
ghost use Rattle.term_trees.specs.Growth.{Continues};
ghost use Rattle.term_trees.specs.Trees.{tree_of, IsOfWidth};
ghost use Rattle.term_simplify.specs.Above as aboves;
ghost use Rattle.term_simplify.specs.Builds.{Builds};
ghost use Rattle.term_simplify.specs.Intervals.{IsBetween, between_at, interval_word};
ghost use Rattle.term_simplify.specs.Moves.{unmoved, unshifted};
ghost use Rattle.term_simplify.specs.Outside.{IsAbove};
ghost use Rattle.term_simplify.specs.Plain.{tree_number};
ghost use Rattle.term_simplify.specs.Simplified.{outside};
ghost use Rattle.term_simplify.specs.Steps.{Stands};

use crate::builder::Builder;
use crate::deciding::order_told;
use crate::ends::only;
use crate::equalities::Equality;
use crate::intervals::{Between, interval_of};
use crate::known::Known;
use crate::plan::number_at;
use bv_dag::{BinaryOp, Comparison, Node, Word};
use std::alloc::AllocError as NoMemory;

/// Whether the ends of a term tell that it is below a number, or that it isn't.
fn is_told(terms: &Known, id: usize, n: Word) -> bool
    requires there { id < length terms.now.nodes }
    requires wide { n.width ≡ width_of terms.now id }
    ensures { result ≡ aboves.is_told (tree_of terms.now id) n }
{
    order_told(Comparison::Ult, terms.ends_of(id), only(n)).is_some()
}

/// Whether one test of an interval is left.
fn has_one_test(terms: &Known, b: &Between) -> bool
    requires { IsBetween terms.now b.now }
    ensures { result ≡ aboves.has_one_test (between_at terms.now b.now) }
{
    b.high.number() == 0 || is_told(terms, b.term, b.low) || is_told(terms, b.term, b.high)
}

/// The interval outside of which a term is above a number.
fn interval_above(terms: &Known, x: Word, b: usize) -> Option<Between>
    requires there { b < length terms.now.nodes }
    requires number { IsOfWidth (width_of terms.now b) x }
    ensures is { option_map (between_at terms.now) result
        ≡ aboves.interval_above x (tree_of terms.now b) }
    ensures some { IfSome result (λ i. IsBetween terms.now i) }
{
    if x.complement().number() == 0 {
        return None;
    }
    let number = BinaryOp::Add.apply(x, Word::new(x.width(), 1));
    match interval_of(terms, Equality { term: b, number }) {
        Some(interval) => {
            if has_one_test(terms, &interval) {
                Some(interval)
            } else {
                None
            }
        }
        None => None,
    }
}

/// The interval outside of which a number is below a term.
fn above_number(terms: &Known, a: usize, b: usize) -> Option<Between>
    requires { Fits terms.now.inputs (widths_of terms.now.nodes) (Node.Compare Comparison.Ult a b) }
    ensures is { option_map (between_at terms.now) result ≡ aboves.above_by Comparison.Ult
        (tree_number (tree_of terms.now a)) (tree_number (tree_of terms.now b))
        (tree_of terms.now b) }
    ensures some { IfSome result (λ i. IsBetween terms.now i) }
    ensures fit { IsDag terms.now }
{
    match (number_at(terms, a), number_at(terms, b)) {
        (Some(x), None) => interval_above(terms, x, b),
        (Some(_), Some(_)) => None,
        (None, _) => None,
    }
}

/// The interval outside of which a test holds, if it is such a one.
fn above_by(terms: &Known, op: Comparison, a: usize, b: usize) -> Option<Between>
    requires { Fits terms.now.inputs (widths_of terms.now.nodes) (Node.Compare op a b) }
    ensures is { option_map (between_at terms.now) result ≡ aboves.above_by op
        (tree_number (tree_of terms.now a)) (tree_number (tree_of terms.now b))
        (tree_of terms.now b) }
    ensures some { IfSome result (λ i. IsBetween terms.now i × IsDag terms.now) }
{
    match op {
        Comparison::Ult => above_number(terms, a, b),
        Comparison::Slt => None,
        Comparison::Eq => None,
    }
}

/// The same of any node.
pub(crate) fn above_of(terms: &Known, node: Node) -> Option<Between>
    requires { Fits terms.now.inputs (widths_of terms.now.nodes) node }
    ensures some { IfSome result (λ i. IsAbove terms.now node i) }
    ensures none { result ≡ None → unshifted (tree_of terms.now) node
        ≡ unmoved (tree_of terms.now) node }
    ensures fit { IfSome result (λ _. IsDag terms.now) }
{
    match node {
        Node::Compare(op, a, b) => above_by(terms, op, a, b),
        _ => None,
    }
}

impl Builder {
    /// Whether a term lies outside of an interval, or only some of the terms that this stands on.
    fn without(&mut self, b: Between) -> Result<usize, NoMemory>
        requires { IsBetween self.old b }
        ensures continues { Continues self.old self.new }
        ensures ok { IfOk result (λ id. Stands self.new id (outside (between_at self.old b)) 1
            (λ input. bvnot (interval_word (val self.old b.term input) b.low b.high))) }
    {
        let within = self.between(b)?;
        self.plain_step(Node::Not(within))
    }

    /// Whether a term lies outside of an interval.
    pub(crate) fn outside(&mut self, b: Between) -> Result<usize, NoMemory>
        requires { IsBetween self.old b }
        ensures ok { IfOk result (λ id. Builds self.old self.new id (outside (between_at self.old b)) 1
            (λ input. bvnot (interval_word (val self.old b.term input) b.low b.high))) }
        ensures err { OnErr result (self.new ≡ self.old) }
    {
        let len = self.len();
        let answer = self.without(b);
        self.settled(len, answer)
    }
}
