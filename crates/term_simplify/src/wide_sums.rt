//! Sums that were widened by zeros, read as those of their widened operands where they don't wrap.

ghost use Rattle.std.specs.Prelude.{◌≡◌, ◌+◌, ◌<◌, ◌≤◌, IfSome, false, length, option_map};
ghost use Rattle.bv_dag.specs.Graphs.{IsDag, width_of};
ghost use Rattle.bv_dag.specs.Nodes.{Fits, widths_of};
ghost use Rattle.term_trees.specs.Trees.{tree_of};
ghost use Rattle.term_simplify.specs.Offsets as offsets;
ghost use Rattle.term_simplify.specs.Offsets.{offset_of, wide_offset_at};
ghost use Rattle.term_simplify.specs.Plain.{extension_by, tree_number};
ghost use Rattle.term_simplify.specs.WideSums as sums;
ghost use Rattle.term_simplify.specs.WideSums.{IsWideSummand, widened_two, widened_within};

use crate::extensions::extended;
use crate::known::Known;
use crate::narrowing::{reach_of, unsigned_result};
use crate::offsets::{Summand, offset_from, offset_of};
use crate::plan::number_at;
use bv_dag::{BinaryOp, Node, Word};

/// A number that a term, widened by zeros, is added to, or taken from. A term that isn't widened is so by no bits.
#[derive(Clone, Copy, Debug)]
pub(crate) struct WideSummand {
    pub taken: bool,
    pub by: u32,
    pub term: usize,
    pub number: Word,
}

/// The same with a term that is widened.
fn widened(by: u32, o: Summand) -> WideSummand
    ensures { result ≡ record { taken = o.taken; by = by; term = o.term; number = o.number } }
{
    WideSummand {
        taken: o.taken,
        by,
        term: o.term,
        number: o.number,
    }
}

/// Whether no more bits tell a sum than there are, so that it doesn't wrap.
fn is_exact(terms: &Known, op: BinaryOp, a: usize, b: usize) -> bool
    requires first { a < length terms.now.nodes }
    requires second { b < length terms.now.nodes }
    ensures { result ≡ sums.is_exact op (tree_of terms.now a) (tree_of terms.now b) }
{
    let width = terms.width_of(a);
    let left = reach_of(terms, a);
    let right = reach_of(terms, b);
    match op {
        BinaryOp::Add => unsigned_result(op, left, right) <= width,
        _ => false,
    }
}

/// The number that a term is, widened.
fn wide_number(terms: &Known, by: u32, id: usize) -> Option<Word>
    requires there { id < length terms.now.nodes }
    requires room { width_of terms.now id + by ≤ 64 }
    ensures is { result ≡ tree_number (extension_by by false (tree_of terms.now id)) }
    ensures fit { IsDag terms.now }
{
    match number_at(terms, id) {
        Some(x) => Some(extended(x, by, false)),
        None => None,
    }
}

/// What a widened operation of two terms is of a widened term and a number.
fn wide_two(terms: &Known, by: u32, op: BinaryOp, a: usize, b: usize) -> Option<WideSummand>
    requires fits { Fits terms.now.inputs (widths_of terms.now.nodes) (Node.Binary op a b) }
    requires some { 1 ≤ by }
    requires room { width_of terms.now a + by ≤ 64 }
    ensures some { IfSome result (λ o. IsWideSummand terms.now (width_of terms.now a + by) o) }
    ensures is { option_map (wide_offset_at terms.now) result
        ≡ offset_of (widened_two by op (tree_of terms.now a) (tree_of terms.now b)) }
{
    if !is_exact(terms, op, a, b) {
        return None;
    }
    let x = wide_number(terms, by, a);
    let y = wide_number(terms, by, b);
    match offset_from(op, a, x, b, y) {
        Some(o) => Some(widened(by, o)),
        None => None,
    }
}

/// What a widened term is of a widened term and a number.
fn widened_offset(terms: &Known, by: u32, id: usize) -> Option<WideSummand>
    requires fits { Fits terms.now.inputs (widths_of terms.now.nodes) (Node.Extend by false id) }
    ensures some { IfSome result (λ o. IsWideSummand terms.now (width_of terms.now id + by) o) }
    ensures is { option_map (wide_offset_at terms.now) result
        ≡ offset_of (widened_within by (tree_of terms.now id)) }
{
    match terms.node(id) {
        Node::Binary(op, a, b) => wide_two(terms, by, op, a, b),
        _ => None,
    }
}

/// What a term is of a term and a number, if it is a sum or difference of them, or one that was widened.
pub(crate) fn wide_offset_of(terms: &Known, id: usize) -> Option<WideSummand>
    requires { id < length terms.now.nodes }
    ensures some { IfSome result (λ o. IsWideSummand terms.now (width_of terms.now id) o) }
    ensures is { option_map (wide_offset_at terms.now) result
        ≡ offsets.wide_offset_of (tree_of terms.now id) }
{
    match terms.node(id) {
        Node::Extend {
            by,
            signed,
            operand,
        } => {
            if signed {
                None
            } else {
                widened_offset(terms, by, operand)
            }
        }
        _ => match offset_of(terms, id) {
            Some(o) => Some(widened(0, o)),
            None => None,
        },
    }
}
