//! Masks that change nothing of a term.

ghost use Rattle.std.specs.Prelude.{◌≡◌, ◌<◌, length};
ghost use Rattle.term_trees.specs.Trees.{Tree, tree_of};
ghost use Rattle.term_simplify.specs.Plans.{Makes};
ghost use Rattle.term_simplify.specs.Plain.{tree_number, keeps, masked, masks_nothing};

use crate::binaries::ones;
use crate::known::Known;
use crate::plan::{Plan, number_at, term_if, under_zeros};
use bv_dag::{BinaryOp, Word};

/// Whether every bit that a term may have, which is a narrower one widened by zeros, is 1 in the number.
fn keeps(terms: &Known, mask: Word, id: usize) -> bool
    requires { id < length terms.now.nodes }
    ensures { result ≡ keeps mask (tree_of terms.now id) }
{
    match under_zeros(terms, id) {
        Some(narrow) => {
            let all = ones(terms.width_of(narrow)).number();
            mask.number() & all == all
        }
        None => false,
    }
}

/// Whether a term is joined by & with a number that masks nothing of it.
pub(crate) fn masks_nothing(terms: &Known, op: BinaryOp, mask: usize, id: usize) -> bool
    requires mask { mask < length terms.now.nodes }
    requires term { id < length terms.now.nodes }
    ensures { result ≡ masks_nothing op (tree_number (tree_of terms.now mask)) (tree_of terms.now id) }
{
    match (op, number_at(terms, mask)) {
        (BinaryOp::And, Some(number)) => keeps(terms, number, id),
        _ => false,
    }
}

/// A term, where it is joined by & with a number that masks nothing of it, and else another plan.
pub(crate) fn masked(terms: &Known, op: BinaryOp, mask: usize, id: usize, otherwise: Plan) -> Plan
    requires mask { mask < length terms.now.nodes }
    requires term { id < length terms.now.nodes }
    ensures { (tree : Tree) → Makes terms.now otherwise tree
        → Makes terms.now result
        (masked op (tree_number (tree_of terms.now mask)) (tree_of terms.now id) tree) }
{
    match (op, number_at(terms, mask)) {
        (BinaryOp::And, Some(number)) => term_if(keeps(terms, number, id), id, otherwise),
        _ => otherwise,
    }
}
