//! Comparisons that the ends of their operands tell.

ghost use Rattle.std.specs.Prelude.{◌≡◌, ◌<◌, ◌≤◌, IfOk, OnErr, length};
ghost use Rattle.bv_dag.specs.Graphs.{IsDag, width_of};
ghost use Rattle.bv_dag.specs.Nodes.{Fits, widths_of};
ghost use Rattle.term_trees.specs.Trees.{node_tree, tree_of, IsTerm};
ghost use Rattle.term_simplify.specs.Builds.{BuildsAs};
ghost use Rattle.term_simplify.specs.Ends as ends;
ghost use Rattle.term_simplify.specs.Ends.{AreEnds};
ghost use Rattle.term_simplify.specs.Simplified.{compared};

use crate::builder::Builder;
use crate::ends::{Ends, widened};
use crate::known::Known;
use bv_dag::{Comparison, Node, Word};
use std::alloc::AllocError as NoMemory;

/// Any number of so many bits, with sign.
#[tactic(auto, unfolding(bv_dag::specs::BitVectors::bvnot))]
fn any_signed(width: u32) -> Ends
    requires not_empty { 0 < width }
    requires at_most_64 { width ≤ 64 }
    ensures is { result ≡ ends.any_signed width }
    ensures wide { AreEnds width result }
{
    let lowest = Word::new(width, 1 << (width - 1));
    Ends {
        least: lowest,
        greatest: lowest.complement(),
    }
}

/// The same ends with sign.
fn by_sign(a: Ends) -> Ends
    requires { AreEnds a.least.width a }
    ensures is { result ≡ ends.by_sign a }
    ensures wide { AreEnds a.least.width result }
{
    if a.greatest.is_negative() && !a.least.is_negative() {
        any_signed(a.least.width())
    } else {
        a
    }
}

/// The least and the greatest value of a term, with sign.
fn signed_ends_of(terms: &Known, id: usize) -> Ends
    requires { id < length terms.now.nodes }
    ensures is { result ≡ ends.signed_ends_of (tree_of terms.now id) }
    ensures wide { AreEnds (width_of terms.now id) result }
    ensures fit { IsDag terms.now }
{
    match terms.node(id) {
        Node::Extend {
            by,
            signed,
            operand,
        } => {
            if signed {
                widened(by, true, by_sign(terms.ends_of(operand)))
            } else {
                by_sign(terms.ends_of(id))
            }
        }
        _ => by_sign(terms.ends_of(id)),
    }
}

/// Whether one number is below another, without sign or with it.
fn is_below(op: Comparison, x: Word, y: Word) -> bool
    requires { x.width ≡ y.width }
    ensures { result ≡ ends.is_below op x y }
{
    op.apply(x, y).number() == 1
}

/// What tells a test of the order without sign or with it.
pub(crate) fn order_told(op: Comparison, a: Ends, b: Ends) -> Option<bool>
    requires first { AreEnds a.least.width a }
    requires second { AreEnds a.least.width b }
    ensures { result ≡ ends.order_told op a b }
{
    if is_below(op, a.greatest, b.least) {
        Some(true)
    } else if is_below(op, a.least, b.greatest) {
        None
    } else {
        Some(false)
    }
}

/// Whether no value between the ones is between the others.
fn are_apart(op: Comparison, a: Ends, b: Ends) -> bool
    requires first { AreEnds a.least.width a }
    requires second { AreEnds a.least.width b }
    ensures { result ≡ ends.are_apart op a b }
{
    is_below(op, a.greatest, b.least) || is_below(op, b.greatest, a.least)
}

/// Whether an equality is told to fail.
fn equality_told(terms: &Known, a: usize, b: usize) -> Option<bool>
    requires first { a < length terms.now.nodes }
    requires second { b < length terms.now.nodes }
    requires wide { width_of terms.now a ≡ width_of terms.now b }
    ensures is { result ≡ ends.equality_told (tree_of terms.now a) (tree_of terms.now b) }
    ensures fit { IsDag terms.now }
{
    if are_apart(Comparison::Ult, terms.ends_of(a), terms.ends_of(b))
        || are_apart(
            Comparison::Slt,
            signed_ends_of(terms, a),
            signed_ends_of(terms, b),
        )
    {
        Some(false)
    } else {
        None
    }
}

/// Whether a comparison holds on all input bytes, or on none.
fn comparison_told(terms: &Known, op: Comparison, a: usize, b: usize) -> Option<bool>
    requires { Fits terms.now.inputs (widths_of terms.now.nodes) (Node.Compare op a b) }
    ensures is { result ≡ ends.comparison_told op (tree_of terms.now a) (tree_of terms.now b) }
    ensures fit { IsDag terms.now }
{
    match op {
        Comparison::Ult => order_told(op, terms.ends_of(a), terms.ends_of(b)),
        Comparison::Slt => order_told(op, signed_ends_of(terms, a), signed_ends_of(terms, b)),
        Comparison::Eq => equality_told(terms, a, b),
    }
}

impl Builder {
    /// The term that a test is made as which no other term tells.
    pub(crate) fn decided(&mut self, op: Comparison, a: usize, b: usize) -> Result<usize, NoMemory>
        requires { Fits self.old.inputs (widths_of self.old.nodes) (Node.Compare op a b) }
        ensures ok { IfOk result (BuildsAs (compared op (tree_of self.old a) (tree_of self.old b))
            self.old self.new (Node.Compare op a b)) }
        ensures err { OnErr result (self.new ≡ self.old) }
        ensures term { IsTerm self.old.inputs (node_tree (tree_of self.old) (Node.Compare op a b)) }
    {
        match comparison_told(self.known(), op, a, b) {
            Some(holds) => {
                let bit = Word::from_bool(holds);
                self.plain(Node::Num {
                    width: bit.width(),
                    value: bit.number(),
                })
            }
            None => self.unsummed(Node::Compare(op, a, b)),
        }
    }
}
