//! A choice between two terms.

ghost use Rattle.std.specs.Prelude.{◌≡◌, ◌<◌, length};
ghost use Rattle.bv_dag.specs.Graphs.{IsDag};
ghost use Rattle.bv_dag.specs.Nodes.{Fits, widths_of};
ghost use Rattle.term_trees.specs.Trees.{tree_of};
ghost use Rattle.term_simplify.specs.Plans.{Makes};
ghost use Rattle.term_simplify.specs.Plain.{bit_choice, choice_between, choice_on, plain_choice, tree_number};

use crate::known::Known;
use crate::plan::{Plan, complement, number_at};
use bv_dag::{Node, Word};

/// A choice between two numbers.
fn bit_choice(terms: &Known, x: Word, y: Word, c: usize, a: usize, b: usize) -> Plan
    requires there { c < length terms.now.nodes }
    requires first { a < length terms.now.nodes }
    requires fits { Fits terms.now.inputs (widths_of terms.now.nodes) (Node.Ite c a b) }
    ensures { Makes terms.now result
        (bit_choice x y (tree_of terms.now c) (tree_of terms.now a) (tree_of terms.now b)) }
{
    let is_bit = x.width() == 1;
    if x.number() == y.number() {
        Plan::Term(a)
    } else if is_bit && x.number() == 1 && y.number() == 0 {
        Plan::Term(c)
    } else if is_bit && x.number() == 0 && y.number() == 1 {
        complement(terms, c)
    } else {
        Plan::Push(Node::Ite {
            condition: c,
            yes: a,
            no: b,
        })
    }
}

/// By the numbers that the two terms are.
fn choice_between(
    terms: &Known,
    left: Option<Word>,
    right: Option<Word>,
    c: usize,
    a: usize,
    b: usize,
) -> Plan
    requires there { c < length terms.now.nodes }
    requires first { a < length terms.now.nodes }
    requires fits { Fits terms.now.inputs (widths_of terms.now.nodes) (Node.Ite c a b) }
    ensures { Makes terms.now result
        (choice_between left right (tree_of terms.now c) (tree_of terms.now a)
        (tree_of terms.now b)) }
{
    match (left, right) {
        (Some(x), Some(y)) => bit_choice(terms, x, y, c, a, b),
        _ => Plan::Push(Node::Ite {
            condition: c,
            yes: a,
            no: b,
        }),
    }
}

/// The first of two terms where the condition is 1, and else the second.
pub(crate) fn choice(terms: &Known, c: usize, a: usize, b: usize) -> Plan
    requires { Fits terms.now.inputs (widths_of terms.now.nodes) (Node.Ite c a b) }
    ensures makes { Makes terms.now result
        (plain_choice (tree_of terms.now c) (tree_of terms.now a) (tree_of terms.now b)) }
    ensures fit { IsDag terms.now }
{
    match number_at(terms, c) {
        Some(x) => {
            if x.number() == 1 {
                Plan::Term(a)
            } else {
                Plan::Term(b)
            }
        }
        None => choice_between(terms, number_at(terms, a), number_at(terms, b), c, a, b),
    }
}
