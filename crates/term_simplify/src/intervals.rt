//! Sums of a term and a number that are below a number: the term lies between two numbers.

ghost use Rattle.std.specs.Prelude.{◌≡◌, ◌<◌, Some, IfOk, IfSome, length, option_map};
ghost use Rattle.bv_dag.specs.BitVectors.{bvult};
ghost use Rattle.bv_dag.specs.Graphs.{Graph, IsDag, val, width_of};
ghost use Rattle.term_trees.specs.Growth.{Continues};
ghost use Rattle.term_trees.specs.Trees.{tree_of, IsOfWidth};
ghost use Rattle.term_simplify.specs.Intervals as intervals;
ghost use Rattle.term_simplify.specs.Intervals.{IsBetween, between_at, interval_word};
ghost use Rattle.term_simplify.specs.Offsets.{IsSummand, offset_at};
ghost use Rattle.term_simplify.specs.Simplified.{below_number, in_interval};
ghost use Rattle.term_simplify.specs.Steps.{Stands};
ghost use Rattle.term_simplify.specs.Told.{IsEquality, peeled_at};

use crate::builder::Builder;
use crate::equalities::{Equality, undone};
use crate::known::Known;
use crate::offsets::{Summand, offset_of};
use bv_dag::{BinaryOp, Comparison, Node, Word};
use std::alloc::AllocError as NoMemory;

/// A term that is at least one number and below another, or one of the two where these go round through 0.
#[derive(Clone, Copy, Debug)]
pub(crate) struct Between {
    pub term: usize,
    pub low: Word,
    pub high: Word,
}

/// Where a sum is below a number other than 0.
fn interval_at(y: Word, o: Summand) -> Option<Between>
    requires { y.width ≡ o.number.width }
    ensures is { (graph : Graph) → option_map (between_at graph) result
        ≡ intervals.interval_at y (offset_at graph o) }
    ensures some { (graph : Graph) → IsSummand graph y.width o → IsOfWidth y.width y
        → IfSome result (λ b. IsBetween graph b) }
{
    if o.taken || y.number() == 0 {
        return None;
    }
    Some(Between {
        term: o.term,
        low: o.number.negated(),
        high: BinaryOp::Sub.apply(y, o.number),
    })
}

/// Where a term is below a number, if it is such a sum.
fn interval_under(terms: &Known, e: Equality) -> Option<Between>
    requires { IsEquality terms.now e }
    ensures is { option_map (between_at terms.now) result
        ≡ intervals.interval_under (Some (peeled_at terms.now e)) }
    ensures some { IfSome result (λ b. IsBetween terms.now b) }
{
    match offset_of(terms, e.term) {
        Some(o) => interval_at(e.number, o),
        None => None,
    }
}

/// Where a term is below a number, if it is such a sum or one that is widened.
pub(crate) fn interval_of(terms: &Known, e: Equality) -> Option<Between>
    requires { IsEquality terms.now e }
    ensures is { option_map (between_at terms.now) result
        ≡ intervals.interval_of (tree_of terms.now e.term) e.number }
    ensures some { IfSome result (λ b. IsBetween terms.now b) }
    ensures fit { IsDag terms.now }
{
    match terms.node(e.term) {
        Node::Extend { .. } => match undone(terms, e) {
            Some(inner) => interval_under(terms, inner),
            None => None,
        },
        _ => interval_under(terms, e),
    }
}

/// How a test from below and one from above are joined.
fn joining(low: Word, high: Word) -> BinaryOp
    ensures { result ≡ intervals.joining low high }
{
    if low.number() < high.number() {
        BinaryOp::And
    } else {
        BinaryOp::Or
    }
}

impl Builder {
    /// Whether a term is below a number.
    fn below(&mut self, term: usize, n: Word) -> Result<usize, NoMemory>
        requires { IsOfWidth (width_of self.old term) n }
        ensures continues { Continues self.old self.new }
        ensures ok { IfOk result (λ id. Stands self.new id
            (below_number (tree_of self.old term) n) 1
            (λ input. bvult (val self.old term input) n)) }
    {
        let number = self.plain_step(Node::Num {
            width: n.width(),
            value: n.number(),
        })?;
        self.untold_step(Node::Compare(Comparison::Ult, term, number))
    }

    /// Whether a term lies between two numbers, or only some of the terms that this stands on.
    pub(crate) fn between(&mut self, b: Between) -> Result<usize, NoMemory>
        requires { IsBetween self.old b }
        ensures continues { Continues self.old self.new }
        ensures ok { IfOk result (λ id. Stands self.new id (in_interval (between_at self.old b)) 1
            (λ input. interval_word (val self.old b.term input) b.low b.high)) }
    {
        let under = self.below(b.term, b.low)?;
        let from = self.plain_step(Node::Not(under))?;
        if b.high.number() == 0 {
            return Ok(from);
        }
        let to = self.below(b.term, b.high)?;
        self.plain_step(Node::Binary(joining(b.low, b.high), from, to))
    }
}
