//! An index into a table: an address that is a sum of a number and a term of few bits. A load then chooses by the index's bits alone,
//! so that a table of 16 bytes takes 15 choices, wherever it stands.

ghost use Rattle.std.specs.Prelude.{◌≡◌, ◌+◌, ◌≤◌, ◌<◌, ◌^◌, IfSome, length};
ghost use Rattle.std.specs.Option.{option_map};
ghost use Rattle.bv_dag.specs.Graphs.{IsDag, width_of};
ghost use Rattle.term_trees.specs.Trees.{tree_of};
ghost use Rattle.sym_state.specs.Indexing as indexing;
ghost use Rattle.sym_state.specs.Indexing.{IsIndex, as_index};

use bv_dag::{BinaryOp, Node};
use term_table::Terms;

/// An index has so many bits at most, those below it included: a byte that is the place of a word has as many.
const MOST_BITS: u32 = 10;

/// The term that is an index, of `count` bits. Below it lie `scale` zeros, and index 0 leads to `start`.
#[derive(Clone, Copy, Debug, PartialEq, Eq)]
pub(crate) struct Index {
    pub(crate) term: usize,
    pub(crate) count: u32,
    pub(crate) scale: u32,
    pub(crate) start: u32,
}

/// The number of a sum with a term that is small.
fn base_of(op: BinaryOp, bits: u32, number: u64) -> Option<u64>
    requires bits { bits ≤ 32 }
    requires number { number < 2 ^ bits }
    ensures is { result ≡ indexing.base_of op bits number }
    ensures small { IfSome result (λ base. base ≤ 2 ^ 32) }
{
    match op {
        BinaryOp::Add => Some(number),
        BinaryOp::Sub => Some((1 << bits) - number),
        _ => None,
    }
}

/// Whether an index has few bits, and no sum with it wraps.
fn is_index(scale: u32, bits: u32, width: u32, base: u64) -> bool
    requires scale { scale ≤ 64 }
    requires width { width ≤ 64 }
    requires bits { bits ≤ 32 }
    requires base { base ≤ 2 ^ 32 }
    ensures { result ≡ indexing.is_index scale bits width base }
{
    scale + width <= MOST_BITS && scale + bits <= 32 && base + (1 << width) <= 1 << bits
}

/// The index by which a sum of so many bits stands above `scale` others.
fn index_at(terms: &Terms, scale: u32, bits: u32, term: usize, base: Option<u64>) -> Option<Index>
    requires there { term < length terms.now.nodes }
    requires scale { scale ≤ 64 }
    requires bits { bits ≤ 32 }
    requires base { IfSome base (λ base. base ≤ 2 ^ 32) }
    ensures is { option_map (as_index terms.now) result
        ≡ indexing.index_at scale bits (tree_of terms.now term) base }
    ensures index { IfSome result (IsIndex terms.now) }
{
    let base = base?;
    let width = terms.width_of(term);
    if !is_index(scale, bits, width, base) {
        return None;
    }
    Some(Index {
        term,
        count: width,
        scale,
        start: (base << scale) as u32,
    })
}

fn index_by(terms: &Terms, scale: u32, op: BinaryOp, a: usize, b: usize) -> Option<Index>
    requires first { a < length terms.now.nodes }
    requires second { b < length terms.now.nodes }
    requires scale { scale ≤ 64 }
    ensures is { option_map (as_index terms.now) result
        ≡ indexing.index_by scale op (tree_of terms.now a) (tree_of terms.now b) }
    ensures index { IfSome result (IsIndex terms.now) }
{
    let Node::Extend {
        signed,
        operand,
        ..
    } = terms.node(a)
    else {
        return None;
    };
    let Node::Num { width, value } = terms.node(b) else {
        return None;
    };
    if signed {
        return None;
    }
    if width > 32 {
        return None;
    }
    index_at(terms, scale, width, operand, base_of(op, width, value))
}

/// The index in what stands above `scale` zeros.
fn index_in(terms: &Terms, scale: u32, id: usize) -> Option<Index>
    requires there { id < length terms.now.nodes }
    requires scale { scale ≤ 64 }
    ensures is { option_map (as_index terms.now) result
        ≡ indexing.index_in scale (tree_of terms.now id) }
    ensures index { IfSome result (IsIndex terms.now) }
{
    match terms.node(id) {
        Node::Binary(op, a, b) => index_by(terms, scale, op, a, b),
        _ => None,
    }
}

fn index_over(terms: &Terms, high: usize, low: usize) -> Option<Index>
    requires high { high < length terms.now.nodes }
    requires low { low < length terms.now.nodes }
    ensures is { option_map (as_index terms.now) result
        ≡ indexing.index_over (tree_of terms.now high) (tree_of terms.now low) }
    ensures index { IfSome result (IsIndex terms.now) }
{
    let Node::Num { width, value } = terms.node(low) else {
        return None;
    };
    if value != 0 {
        return None;
    }
    index_in(terms, width, high)
}

fn index_under(terms: &Terms, id: usize) -> Option<Index>
    requires there { id < length terms.now.nodes }
    ensures is { option_map (as_index terms.now) result
        ≡ indexing.index_under (tree_of terms.now id) }
    ensures index { IfSome result (IsIndex terms.now) }
{
    match terms.node(id) {
        Node::Concat { high, low } => index_over(terms, high, low),
        _ => index_in(terms, 0, id),
    }
}

/// The index that an address is by, if it is by one.
pub(crate) fn index_of(terms: &Terms, id: usize) -> Option<Index>
    requires there { id < length terms.now.nodes }
    ensures is { option_map (as_index terms.now) result ≡ indexing.index_of (tree_of terms.now id) }
    ensures index { IfSome result (IsIndex terms.now) }
    ensures fit { IsDag terms.now }
{
    let Node::Extend {
        signed,
        operand,
        ..
    } = terms.node(id)
    else {
        return index_under(terms, id);
    };
    if signed {
        return index_under(terms, id);
    }
    index_under(terms, operand)
}
