//! How few bits an operation takes: where few low bits tell its result, it is made of as many of its operands.

ghost use Rattle.std.specs.Prelude.{◌≡◌, ◌<◌, ◌≤◌, IfSome, length};
ghost use Rattle.bv_dag.specs.Graphs.{IsDag};
ghost use Rattle.bv_dag.specs.Nodes.{Fits, widths_of};
ghost use Rattle.term_trees.specs.Trees.{tree_of};
ghost use Rattle.term_simplify.specs.Narrowing as narrowings;

use crate::known::Known;
use crate::masks::masks_nothing;
use crate::plan::number_at;
use bv_dag::{BinaryOp, Node, Word};

/// So many low bits, which tell the others: those are zeros, or copies of the top one of these.
#[derive(Clone, Copy, Debug)]
pub(crate) struct Narrow {
    pub bits: u32,
    pub signed: bool,
}

/// How many low bits tell a term.
#[derive(Clone, Copy, Debug)]
pub(crate) struct Reach {
    /// Where those above are zeros.
    pub unsigned: u32,
    /// Where those above are copies of the top one.
    pub signed: u32,
}

/// The least number of bits, at least one, that write a number.
pub(crate) fn length_of(value: u64) -> u32
    ensures is { result ≡ narrowings.length_of value }
    ensures few { result ≤ 64 }
    ensures some { 0 < result }
{
    (64 - value.leading_zeros()).max(1)
}

/// How many low bits tell a number.
fn number_reach(x: Word) -> Reach
    ensures is { result ≡ narrowings.number_reach x }
    ensures few { result.unsigned ≤ 64 }
    ensures signed { result.signed ≤ 65 }
{
    let value = x.number();
    let above_sign = if x.is_negative() {
        x.complement().number()
    } else {
        value
    };
    Reach {
        unsigned: length_of(value),
        signed: length_of(above_sign) + 1,
    }
}

/// How many low bits tell a term that is no greater than this, and that so many bits tell with sign.
fn reach_up_to(greatest: u64, bits: u32) -> Reach
    requires { bits ≤ 64 }
    ensures is { result ≡ narrowings.reach_up_to greatest bits }
    ensures few { result.unsigned ≤ 64 }
    ensures signed { result.signed ≤ 65 }
{
    let unsigned = length_of(greatest);
    Reach {
        unsigned,
        signed: (unsigned + 1).min(bits),
    }
}

/// How many low bits tell a term.
pub(crate) fn reach_of(terms: &Known, id: usize) -> Reach
    requires { id < length terms.now.nodes }
    ensures is { result ≡ narrowings.reach_of (tree_of terms.now id) }
    ensures few { result.unsigned ≤ 64 }
    ensures signed { result.signed ≤ 65 }
{
    let width = terms.width_of(id);
    let greatest = terms.ends_of(id).greatest.number();
    match terms.node(id) {
        Node::Num { width, value } => number_reach(Word::new(width, value)),
        Node::Extend {
            signed,
            operand,
            ..
        } => {
            if signed {
                reach_up_to(greatest, terms.width_of(operand))
            } else {
                reach_up_to(greatest, width)
            }
        }
        _ => reach_up_to(greatest, width),
    }
}

/// How many low bits tell a result, where those above are zeros: of a quotient, where the divisor isn't 0.
pub(crate) fn unsigned_result(op: BinaryOp, a: Reach, b: Reach) -> u32
    requires first { a.unsigned ≤ 64 }
    requires second { b.unsigned ≤ 64 }
    ensures { result ≡ narrowings.unsigned_result op a b }
{
    match op {
        BinaryOp::Add => a.unsigned.max(b.unsigned) + 1,
        BinaryOp::Mul => a.unsigned + b.unsigned,
        BinaryOp::And => a.unsigned.min(b.unsigned),
        BinaryOp::Or | BinaryOp::Xor | BinaryOp::Lshr | BinaryOp::Udiv | BinaryOp::Urem => {
            a.unsigned.max(b.unsigned)
        }
        BinaryOp::Sub | BinaryOp::Shl | BinaryOp::Ashr => 64,
    }
}

/// How many low bits tell a result, where those above are copies of the top one.
fn signed_result(op: BinaryOp, a: Reach, b: Reach) -> u32
    requires first { a.signed ≤ 65 }
    requires second { b.signed ≤ 65 }
    requires few { a.unsigned ≤ 64 }
    requires fewer { b.unsigned ≤ 64 }
    ensures { result ≡ narrowings.signed_result op a b }
{
    match op {
        BinaryOp::Add => a.signed.max(b.signed) + 1,
        BinaryOp::Sub => a.signed.max(b.signed).min(a.unsigned.max(b.unsigned)) + 1,
        BinaryOp::Mul => a.signed + b.signed,
        BinaryOp::And | BinaryOp::Or | BinaryOp::Xor => a.signed.max(b.signed),
        BinaryOp::Udiv | BinaryOp::Urem | BinaryOp::Shl | BinaryOp::Lshr | BinaryOp::Ashr => 64,
    }
}

/// The fewer of the two, where these are fewer than the width.
fn narrowest(unsigned: u32, signed: u32, width: u32) -> Option<Narrow>
    ensures { result ≡ narrowings.narrowest unsigned signed width }
{
    if unsigned <= signed && unsigned < width {
        Some(Narrow {
            bits: unsigned,
            signed: false,
        })
    } else if signed < width {
        Some(Narrow {
            bits: signed,
            signed: true,
        })
    } else {
        None
    }
}

/// Whether it is the number 0.
pub(crate) fn is_zero(x: Option<Word>) -> bool
    ensures { result ≡ narrowings.is_zero x }
{
    match x {
        Some(x) => x.number() == 0,
        None => false,
    }
}

/// Whether the number 0 comes first, and leaves no more of an operation than 0 or the other term.
fn is_zero_first(op: BinaryOp, left: Option<Word>) -> bool
    ensures { result ≡ narrowings.is_zero_first op left }
{
    match op {
        BinaryOp::Sub => false,
        BinaryOp::Add
        | BinaryOp::Mul
        | BinaryOp::Udiv
        | BinaryOp::Urem
        | BinaryOp::And
        | BinaryOp::Or
        | BinaryOp::Xor
        | BinaryOp::Shl
        | BinaryOp::Lshr
        | BinaryOp::Ashr => is_zero(left),
    }
}

/// Whether an operation of two terms is made at their width.
pub(crate) fn is_settled(terms: &Known, op: BinaryOp, a: usize, b: usize) -> bool
    requires first { a < length terms.now.nodes }
    requires second { b < length terms.now.nodes }
    ensures is { result ≡ narrowings.is_settled op (tree_of terms.now a) (tree_of terms.now b) }
    ensures fit { IsDag terms.now }
{
    let left = number_at(terms, a);
    let right = number_at(terms, b);
    left.is_some() && right.is_some()
        || is_zero_first(op, left)
        || is_zero(right)
        || masks_nothing(terms, op, a, b)
        || masks_nothing(terms, op, b, a)
}

/// Of an operation of two terms.
fn of_binary(terms: &Known, op: BinaryOp, a: usize, b: usize) -> Option<Narrow>
    requires first { a < length terms.now.nodes }
    requires second { b < length terms.now.nodes }
    ensures is { result
        ≡ narrowings.binary_narrowing op (tree_of terms.now a) (tree_of terms.now b) }
    ensures fit { IsDag terms.now }
{
    if is_settled(terms, op, a, b) {
        return None;
    }
    let left = reach_of(terms, a);
    let right = reach_of(terms, b);
    narrowest(
        unsigned_result(op, left, right),
        signed_result(op, left, right),
        terms.width_of(a),
    )
}

/// Of two terms that are compared, or chosen from.
fn of_pair(terms: &Known, a: usize, b: usize) -> Option<Narrow>
    requires first { a < length terms.now.nodes }
    requires second { b < length terms.now.nodes }
    ensures is { result ≡ narrowings.pair_narrowing (tree_of terms.now a) (tree_of terms.now b) }
    ensures fit { IsDag terms.now }
{
    if number_at(terms, a).is_some() && number_at(terms, b).is_some() {
        return None;
    }
    let left = reach_of(terms, a);
    let right = reach_of(terms, b);
    narrowest(
        left.unsigned.max(right.unsigned),
        left.signed.max(right.signed),
        terms.width_of(a),
    )
}

/// Of a choice between two terms.
fn of_choice(terms: &Known, condition: usize, a: usize, b: usize) -> Option<Narrow>
    requires condition { condition < length terms.now.nodes }
    requires first { a < length terms.now.nodes }
    requires second { b < length terms.now.nodes }
    ensures is { result ≡ narrowings.choice_narrowing (tree_of terms.now condition)
        (tree_of terms.now a) (tree_of terms.now b) }
    ensures fit { IsDag terms.now }
{
    if number_at(terms, condition).is_some() {
        return None;
    }
    of_pair(terms, a, b)
}

/// Of the negative of a term.
fn of_negative(terms: &Known, a: usize) -> Option<Narrow>
    requires { a < length terms.now.nodes }
    ensures is { result ≡ narrowings.negative_narrowing (tree_of terms.now a) }
    ensures fit { IsDag terms.now }
{
    if number_at(terms, a).is_some() {
        return None;
    }
    let reach = reach_of(terms, a);
    narrowest(64, reach.unsigned.min(reach.signed) + 1, terms.width_of(a))
}

/// Of how few bits a node is made, where these are fewer than its width.
pub(crate) fn narrowing_of(terms: &Known, node: Node) -> Option<Narrow>
    requires { Fits terms.now.inputs (widths_of terms.now.nodes) node }
    ensures is { result ≡ narrowings.node_narrowing (tree_of terms.now) node }
    ensures fit { IfSome result (λ _. IsDag terms.now) }
{
    match node {
        Node::Neg(a) => of_negative(terms, a),
        Node::Binary(op, a, b) => of_binary(terms, op, a, b),
        Node::Compare(_, a, b) => of_pair(terms, a, b),
        Node::Ite { condition, yes, no } => of_choice(terms, condition, yes, no),
        _ => None,
    }
}
