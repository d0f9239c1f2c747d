//! Operations that the ends of their operands tell: one number on all input bytes, or the dividend of a remainder.

ghost use Rattle.std.specs.Prelude.{◌≡◌, ◌<◌, ℕ, List, All, None, IfSome, length, option_map};
ghost use Rattle.bv_dag.specs.Graphs.{IsDag};
ghost use Rattle.bv_dag.specs.Nodes.{Fits, widths_of};
ghost use Rattle.term_trees.specs.Trees.{node_tree, tree_of, tree_value};
ghost use Rattle.term_simplify.specs.Ends as ends;
ghost use Rattle.term_simplify.specs.Moves.{unvalued};
ghost use Rattle.term_simplify.specs.Plans.{PlanFits, plan_tree};
ghost use Rattle.term_simplify.specs.Simplified.{simplified};
ghost use Rattle.term_simplify.specs.Values as values;

use crate::ends::{Ends, two};
use crate::known::Known;
use crate::plan::{Plan, number};
use bv_dag::{BinaryOp, Node, Word};

/// The one value between two ends.
fn value_told(a: Ends) -> Option<Word>
    ensures { result ≡ ends.value_told a }
{
    if a.least.number() == a.greatest.number() {
        Some(a.least)
    } else {
        None
    }
}

/// Whether an operation is a remainder whose least divisor is above the greatest dividend.
fn is_dividend(op: BinaryOp, greatest: Word, least: Word) -> bool
    ensures { result ≡ values.is_dividend op greatest least }
{
    match op {
        BinaryOp::Urem => greatest.number() < least.number(),
        _ => false,
    }
}

/// What an operation is on all input bytes.
fn two_told(terms: &Known, op: BinaryOp, a: usize, b: usize) -> Option<Plan>
    requires { Fits terms.now.inputs (widths_of terms.now.nodes) (Node.Binary op a b) }
    ensures is { option_map (plan_tree terms.now) result
        ≡ values.two_told op (tree_of terms.now a) (tree_of terms.now b) }
    ensures fits { IfSome result (PlanFits terms.now) }
    ensures fit { IsDag terms.now }
{
    let left = terms.ends_of(a);
    let right = terms.ends_of(b);
    if is_dividend(op, left.greatest, right.least) {
        return Some(Plan::Term(a));
    }
    match value_told(two(op, left, right)) {
        Some(x) => Some(number(x)),
        None => None,
    }
}

/// What a node is on all input bytes, if it is such an operation.
pub(crate) fn value_of(terms: &Known, node: Node) -> Option<Plan>
    requires { Fits terms.now.inputs (widths_of terms.now.nodes) node }
    ensures fits { IfSome result (PlanFits terms.now) }
    ensures tree { IfSome result (λ plan. simplified (tree_of terms.now) node
        ≡ plan_tree terms.now plan) }
    ensures worth { IfSome result (λ plan. (input : List ℕ) → All (λ b. b < 256) input
        → tree_value input (plan_tree terms.now plan)
        ≡ tree_value input (node_tree (tree_of terms.now) node)) }
    ensures none { result ≡ None → simplified (tree_of terms.now) node
        ≡ unvalued (tree_of terms.now) node }
    ensures fit { IfSome result (λ _. IsDag terms.now) }
{
    match node {
        Node::Binary(op, a, b) => two_told(terms, op, a, b),
        _ => None,
    }
}
