//! What a call has found to be its answer, before anything is pushed.

ghost use Rattle.std.specs.Prelude.{◌≡◌, ◌<◌, ◌≤◌, ℕ, List, length, IfSome, if◌then◌else◌, option_map};
ghost use Rattle.bv_dag.specs.Graphs.{Graph, IsDag, width_of};
ghost use Rattle.bv_dag.specs.Nodes.{Fits};
ghost use Rattle.term_trees.specs.Trees.{Tree, tree_of};
ghost use Rattle.term_simplify.specs.Plans.{Makes, node_number, under_signs, under_zeros};
ghost use Rattle.term_simplify.specs.Plain.{number_tree, tree_number, complement_of, plain_negative};

use crate::known::Known;
use bv_dag::{Node, Word};

/// A term that stands already, or a node that is yet to stand.
#[derive(Clone, Copy, Debug)]
pub(crate) enum Plan {
    Term(usize),
    Push(Node),
}

/// A number, to be pushed.
pub(crate) fn number(word: Word) -> Plan
    ensures { (graph : Graph) → Makes graph result (number_tree word) }
{
    Plan::Push(Node::Num {
        width: word.width(),
        value: word.number(),
    })
}

/// A term where the test holds, and else another plan.
pub(crate) fn term_if(test: bool, id: usize, otherwise: Plan) -> Plan
    ensures { (graph : Graph) (tree : Tree) → id < length graph.nodes → Makes graph otherwise tree
        → Makes graph result (if test then tree_of graph id else tree) }
{
    if test { Plan::Term(id) } else { otherwise }
}

/// A number where the test holds, and else another plan.
pub(crate) fn number_if(test: bool, word: Word, otherwise: Plan) -> Plan
    ensures { (graph : Graph) (tree : Tree) → Makes graph otherwise tree
        → Makes graph result (if test then number_tree word else tree) }
{
    if test { number(word) } else { otherwise }
}

/// The number 0 of this width.
pub(crate) fn zero(width: u32) -> Word
    requires not_empty { 0 < width }
    requires at_most_64 { width ≤ 64 }
    ensures { result ≡ record { width = width; number = 0 } }
{
    Word::new(width, 0)
}

/// The number that a node is.
fn number_of(node: Node) -> Option<Word>
    requires { (inputs : ℕ) × (before : List ℕ) × Fits inputs before node }
    ensures { result ≡ node_number node }
{
    match node {
        Node::Num { width, value } => Some(Word::new(width, value)),
        _ => None,
    }
}

/// The number that a term is.
pub(crate) fn number_at(terms: &Known, id: usize) -> Option<Word>
    requires { id < length terms.now.nodes }
    ensures number { result ≡ tree_number (tree_of terms.now id) }
    ensures fit { IsDag terms.now }
{
    number_of(terms.node(id))
}

/// The term that a term widens by zeros.
pub(crate) fn under_zeros(terms: &Known, id: usize) -> Option<usize>
    requires { id < length terms.now.nodes }
    ensures tree { option_map (tree_of terms.now) result ≡ under_zeros (tree_of terms.now id) }
    ensures there { IfSome result (λ k. k < length terms.now.nodes) }
    ensures below_64 { IfSome result (λ k. width_of terms.now k < 64) }
    ensures narrower { IfSome result (λ k. width_of terms.now k < width_of terms.now id) }
    ensures fit { IsDag terms.now }
{
    match terms.node(id) {
        Node::Extend {
            signed,
            operand,
            ..
        } => { if signed { None } else { Some(operand) } }
        _ => None,
    }
}

/// The term that a term widens by its sign.
pub(crate) fn under_signs(terms: &Known, id: usize) -> Option<usize>
    requires { id < length terms.now.nodes }
    ensures tree { option_map (tree_of terms.now) result ≡ under_signs (tree_of terms.now id) }
    ensures fit { IsDag terms.now }
    ensures there { IfSome result (λ k. k < length terms.now.nodes) }
    ensures narrower { IfSome result (λ k. width_of terms.now k < width_of terms.now id) }
{
    match terms.node(id) {
        Node::Extend {
            signed,
            operand,
            ..
        } => { if signed { Some(operand) } else { None } }
        _ => None,
    }
}

/// The complement of a term.
pub(crate) fn complement(terms: &Known, id: usize) -> Plan
    requires { id < length terms.now.nodes }
    ensures makes { Makes terms.now result (complement_of (tree_of terms.now id)) }
    ensures fit { IsDag terms.now }
{
    match terms.node(id) {
        Node::Num { width, value } => number(Word::new(width, value).complement()),
        Node::Not(operand) => Plan::Term(operand),
        _ => Plan::Push(Node::Not(id)),
    }
}

/// The negative of a term.
pub(crate) fn negative(terms: &Known, id: usize) -> Plan
    requires { id < length terms.now.nodes }
    ensures makes { Makes terms.now result (plain_negative (tree_of terms.now id)) }
    ensures fit { IsDag terms.now }
{
    match terms.node(id) {
        Node::Num { width, value } => number(Word::new(width, value).negated()),
        Node::Neg(operand) => Plan::Term(operand),
        _ => Plan::Push(Node::Neg(id)),
    }
}
