//! Terms that are widened, and terms that are joined.

ghost use Rattle.std.specs.Prelude.{◌≡◌, ◌+◌, ◌<◌, ◌≤◌, length};
ghost use Rattle.bv_dag.specs.Graphs.{IsDag, width_of};
ghost use Rattle.bv_dag.specs.Nodes.{Fits, extend, widths_of};
ghost use Rattle.term_trees.specs.Trees.{tree_of};
ghost use Rattle.term_simplify.specs.Plans.{Follows, HasRoom, Makes};
ghost use Rattle.term_simplify.specs.Plain.{extension_by, further, join_of, joined_of};

use crate::known::Known;
use crate::plan::{Plan, number, number_at};
use crate::recipe::{Above, Recipe, alone, stacked};
use bv_dag::{Node, Word};

/// A number that is widened.
pub(crate) fn extended(word: Word, by: u32, signed: bool) -> Word
    requires { word.width + by ≤ 64 }
    ensures { result ≡ extend signed by word }
{
    if signed {
        word.extended_signed(by)
    } else {
        word.extended(by)
    }
}

/// A term with `by` further bits, which are zeros or copies of its sign.
pub(crate) fn extension(terms: &Known, by: u32, signed: bool, id: usize) -> Plan
    requires { Fits terms.now.inputs (widths_of terms.now.nodes) (Node.Extend by signed id) }
    ensures makes { Makes terms.now result (extension_by by signed (tree_of terms.now id)) }
    ensures fit { IsDag terms.now }
{
    let plain = Plan::Push(Node::Extend {
        by,
        signed,
        operand: id,
    });
    match terms.node(id) {
        Node::Num { width, value } => number(extended(Word::new(width, value), by, signed)),
        Node::Extend {
            by: inner,
            signed: fill,
            operand,
        } => {
            if fill && !signed {
                plain
            } else {
                Plan::Push(Node::Extend {
                    by: inner + by,
                    signed: fill,
                    operand,
                })
            }
        }
        _ => plain,
    }
}

/// A term with `by` further bits, where there are any.
pub(crate) fn further(terms: &Known, by: u32, signed: bool, id: usize) -> Plan
    requires there { id < length terms.now.nodes }
    requires room { HasRoom by (width_of terms.now id) }
    ensures { Makes terms.now result (further by signed (tree_of terms.now id)) }
{
    if by == 0 {
        return Plan::Term(id);
    }
    extension(terms, by, signed, id)
}

/// One term above another, which stays below zeros of that.
fn join(terms: &Known, high: usize, low: usize) -> Plan
    requires { Fits terms.now.inputs (widths_of terms.now.nodes) (Node.Concat high low) }
    ensures makes { Makes terms.now result
        (join_of (tree_of terms.now high) (tree_of terms.now low)) }
    ensures fit { IsDag terms.now }
{
    let plain = Plan::Push(Node::Concat { high, low });
    match (number_at(terms, high), number_at(terms, low)) {
        (Some(x), Some(y)) => number(x.above(y)),
        (Some(x), None) => {
            if x.number() == 0 {
                extension(terms, x.width(), false, low)
            } else {
                plain
            }
        }
        (None, _) => plain,
    }
}

/// One term above another.
pub(crate) fn joined(terms: &Known, high: usize, low: usize) -> Recipe
    requires { Fits terms.now.inputs (widths_of terms.now.nodes) (Node.Concat high low) }
    ensures makes { Follows terms.now result
        (joined_of (tree_of terms.now high) (tree_of terms.now low)) }
    ensures fit { IsDag terms.now }
{
    match terms.node(high) {
        Node::Extend {
            by,
            signed,
            operand: narrow,
        } => Recipe {
            core: join(terms, narrow, low),
            above: stacked(Above { signs: 0, zeros: 0 }, by, signed),
        },
        _ => alone(join(terms, high, low)),
    }
}
