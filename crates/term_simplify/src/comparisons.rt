//! Tests of two terms.

ghost use Rattle.std.specs.Prelude.{◌≡◌, ◌<◌, IfSome, length, option_map};
ghost use Rattle.bv_dag.specs.Graphs.{IsDag};
ghost use Rattle.bv_dag.specs.Nodes.{Fits, widths_of};
ghost use Rattle.term_trees.specs.Trees.{Tree, tree_of};
ghost use Rattle.term_simplify.specs.Plans.{Makes, AreAsWide};
ghost use Rattle.term_simplify.specs.Plain.{excludes, bit_under, equality_of, test_first, test_second, comparison_by, plain_comparison};

use crate::known::Known;
use crate::plan::{Plan, complement, number, number_at, number_if, under_zeros, zero};
use bv_dag::{Comparison, Node, Word};

/// Whether a term is a narrower one widened by zeros, which is never worth so large a number.
fn excludes(terms: &Known, id: usize, value: u64) -> bool
    requires { id < length terms.now.nodes }
    ensures { result ≡ excludes (tree_of terms.now id) value }
{
    match under_zeros(terms, id) {
        Some(narrow) => value >= 1 << terms.width_of(narrow),
        None => false,
    }
}

/// The term of one bit that a term is, alone or widened by zeros.
fn bit_under(terms: &Known, id: usize) -> Option<usize>
    requires { id < length terms.now.nodes }
    ensures tree { option_map (tree_of terms.now) result ≡ bit_under (tree_of terms.now id) }
    ensures there { IfSome result (λ k. k < length terms.now.nodes) }
{
    let narrow = under_zeros(terms, id).unwrap_or(id);
    if terms.width_of(narrow) == 1 {
        Some(narrow)
    } else {
        None
    }
}

/// Whether a term is a number.
fn equality(terms: &Known, id: usize, value: u64, otherwise: Plan) -> Plan
    requires { id < length terms.now.nodes }
    ensures { (tree : Tree) → Makes terms.now otherwise tree
        → Makes terms.now result (equality_of (tree_of terms.now id) value tree) }
{
    if excludes(terms, id, value) {
        return number(zero(1));
    }
    match bit_under(terms, id) {
        Some(bit) => {
            if value == 1 {
                Plan::Term(bit)
            } else {
                complement(terms, bit)
            }
        }
        None => otherwise,
    }
}

/// A number and then a term.
fn test_first(terms: &Known, op: Comparison, x: Word, a: usize, b: usize) -> Plan
    requires there { b < length terms.now.nodes }
    requires fits { Fits terms.now.inputs (widths_of terms.now.nodes) (Node.Compare op a b) }
    ensures { Makes terms.now result (test_first op x (tree_of terms.now a) (tree_of terms.now b)) }
{
    let value = x.number();
    let plain = Plan::Push(Node::Compare(op, a, b));
    match op {
        Comparison::Ult => number_if(excludes(terms, b, value), zero(1), plain),
        Comparison::Slt => {
            let is_below = Word::from_bool(x.is_negative());
            number_if(excludes(terms, b, value), is_below, plain)
        }
        Comparison::Eq => equality(terms, b, value, plain),
    }
}

/// A term and then a number.
fn test_second(terms: &Known, op: Comparison, y: Word, a: usize, b: usize) -> Plan
    requires there { a < length terms.now.nodes }
    requires fits { Fits terms.now.inputs (widths_of terms.now.nodes) (Node.Compare op a b) }
    ensures { Makes terms.now result
        (test_second op y (tree_of terms.now a) (tree_of terms.now b)) }
{
    let value = y.number();
    let plain = Plan::Push(Node::Compare(op, a, b));
    match op {
        Comparison::Ult => {
            let below = number_if(excludes(terms, a, value), Word::new(1, 1), plain);
            number_if(value == 0, zero(1), below)
        }
        Comparison::Slt => {
            let is_below = Word::from_bool(!y.is_negative());
            number_if(excludes(terms, a, value), is_below, plain)
        }
        Comparison::Eq => equality(terms, a, value, plain),
    }
}

/// By the numbers that the operands are.
fn comparison_by(
    terms: &Known,
    op: Comparison,
    left: Option<Word>,
    right: Option<Word>,
    a: usize,
    b: usize,
) -> Plan
    requires widths { AreAsWide left right }
    requires first { a < length terms.now.nodes }
    requires second { b < length terms.now.nodes }
    requires fits { Fits terms.now.inputs (widths_of terms.now.nodes) (Node.Compare op a b) }
    ensures { Makes terms.now result
        (comparison_by op left right (tree_of terms.now a) (tree_of terms.now b)) }
{
    match (left, right) {
        (Some(x), Some(y)) => number(op.apply(x, y)),
        (Some(x), None) => test_first(terms, op, x, a, b),
        (None, Some(y)) => test_second(terms, op, y, a, b),
        (None, None) => Plan::Push(Node::Compare(op, a, b)),
    }
}

/// A test of two terms.
#[tactic(auto, using(crate::proofs::Reading::placing))]
pub(crate) fn comparison(terms: &Known, op: Comparison, a: usize, b: usize) -> Plan
    requires { Fits terms.now.inputs (widths_of terms.now.nodes) (Node.Compare op a b) }
    ensures makes { Makes terms.now result
        (plain_comparison op (tree_of terms.now a) (tree_of terms.now b)) }
    ensures fit { IsDag terms.now }
{
    comparison_by(terms, op, number_at(terms, a), number_at(terms, b), a, b)
}
