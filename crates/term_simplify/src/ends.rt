//! The least and the greatest value of a result, by those of its operands.

ghost use Rattle.std.specs.Prelude.{◌≡◌, ◌+◌, ◌-◌, ◌<◌, ◌≤◌, ℕ, All, List, length, true, false};
ghost use Rattle.bv_dag.specs.Graphs.{IsDag, val, width_of};
ghost use Rattle.term_trees.specs.Trees.{tree_of};
ghost use Rattle.term_simplify.specs.Ends as ends;
ghost use Rattle.term_simplify.specs.Ends.{AreEnds};

use crate::binaries::ones;
use crate::extensions::extended;
use crate::known::Known;
use crate::plan::zero;
use bv_dag::{BinaryOp, Word};

/// The least and the greatest value of a term.
#[derive(Clone, Copy, Debug)]
pub(crate) struct Ends {
    pub least: Word,
    pub greatest: Word,
}

/// A number alone.
pub(crate) fn only(x: Word) -> Ends
    ensures { result ≡ ends.only x }
{
    Ends {
        least: x,
        greatest: x,
    }
}

/// Any number up to this one.
fn up_to(x: Word) -> Ends
    ensures is { result ≡ ends.up_to x }
    ensures wide { AreEnds x.width result }
{
    Ends {
        least: zero(x.width()),
        greatest: x,
    }
}

/// Any number from this one on.
fn from(x: Word) -> Ends
    ensures is { result ≡ ends.from x }
    ensures wide { AreEnds x.width result }
{
    Ends {
        least: x,
        greatest: ones(x.width()),
    }
}

/// Any number of so many bits.
pub(crate) fn any(width: u32) -> Ends
    requires not_empty { 0 < width }
    requires at_most_64 { width ≤ 64 }
    ensures is { result ≡ ends.any width }
    ensures wide { AreEnds width result }
{
    from(zero(width))
}

/// The smaller of two numbers.
fn smaller(x: Word, y: Word) -> Word
    ensures is { result ≡ ends.smaller x y }
    ensures wide { x.width ≡ y.width → result.width ≡ y.width }
{
    if x.number() <= y.number() { x } else { y }
}

/// The larger of two numbers.
fn larger(x: Word, y: Word) -> Word
    ensures is { result ≡ ends.larger x y }
    ensures wide { x.width ≡ y.width → result.width ≡ y.width }
{
    if x.number() <= y.number() { y } else { x }
}

/// Of a sum.
#[tactic(auto, unfolding(bv_dag::specs::BitVectors::bvadd))]
fn sum(a: Ends, b: Ends) -> Ends
    requires first { AreEnds a.least.width a }
    requires second { AreEnds a.least.width b }
    ensures is { result ≡ ends.sum_ends a b }
    ensures wide { AreEnds a.least.width result }
{
    if b.greatest.number() <= a.greatest.complement().number() {
        Ends {
            least: BinaryOp::Add.apply(a.least, b.least),
            greatest: BinaryOp::Add.apply(a.greatest, b.greatest),
        }
    } else {
        any(a.least.width())
    }
}

/// Of a difference.
#[tactic(auto, unfolding(bv_dag::specs::BitVectors::bvsub))]
fn difference(a: Ends, b: Ends) -> Ends
    requires first { AreEnds a.least.width a }
    requires second { AreEnds a.least.width b }
    ensures is { result ≡ ends.difference_ends a b }
    ensures wide { AreEnds a.least.width result }
{
    if b.greatest.number() <= a.least.number() {
        Ends {
            least: BinaryOp::Sub.apply(a.least, b.greatest),
            greatest: BinaryOp::Sub.apply(a.greatest, b.least),
        }
    } else {
        any(a.least.width())
    }
}

/// Of a quotient.
#[tactic(auto, unfolding(bv_dag::specs::BitVectors::bvudiv))]
fn quotient(a: Ends, b: Ends) -> Ends
    requires first { AreEnds a.least.width a }
    requires second { AreEnds a.least.width b }
    ensures is { result ≡ ends.quotient_ends a b }
    ensures wide { AreEnds a.least.width result }
{
    if b.least.number() == 0 {
        any(a.least.width())
    } else {
        Ends {
            least: a.least.quotient(b.greatest),
            greatest: a.greatest.quotient(b.least),
        }
    }
}

/// Of a remainder.
fn remainder(a: Ends, b: Ends) -> Ends
    requires first { AreEnds a.least.width a }
    requires second { AreEnds a.least.width b }
    ensures is { result ≡ ends.remainder_ends a b }
    ensures wide { AreEnds a.least.width result }
{
    let divisor = b.greatest;
    if b.least.number() == 0 || a.greatest.number() < divisor.number() {
        up_to(a.greatest)
    } else {
        up_to(Word::new(divisor.width(), divisor.number().saturating_sub(1)))
    }
}

/// Of an operation.
pub(crate) fn two(op: BinaryOp, a: Ends, b: Ends) -> Ends
    requires first { AreEnds a.least.width a }
    requires second { AreEnds a.least.width b }
    ensures is { result ≡ ends.two_ends op a b }
    ensures wide { AreEnds a.least.width result }
{
    match op {
        BinaryOp::Add => sum(a, b),
        BinaryOp::Sub => difference(a, b),
        BinaryOp::Udiv => quotient(a, b),
        BinaryOp::Urem => remainder(a, b),
        BinaryOp::And => up_to(smaller(a.greatest, b.greatest)),
        BinaryOp::Or => from(larger(a.least, b.least)),
        BinaryOp::Lshr => up_to(a.greatest),
        BinaryOp::Mul | BinaryOp::Xor | BinaryOp::Shl | BinaryOp::Ashr => any(a.least.width()),
    }
}

/// Of one of two terms.
pub(crate) fn either(a: Ends, b: Ends) -> Ends
    requires first { AreEnds a.least.width a }
    requires second { AreEnds a.least.width b }
    ensures is { result ≡ ends.either_ends a b }
    ensures wide { AreEnds a.least.width result }
{
    Ends {
        least: smaller(a.least, b.least),
        greatest: larger(a.greatest, b.greatest),
    }
}

/// Of bits of a term.
#[tactic(auto, unfolding(bv_dag::specs::BitVectors::extract))]
pub(crate) fn part(high: u32, low: u32, a: Ends) -> Ends
    requires order { low ≤ high }
    requires within { high < a.least.width }
    requires wide { AreEnds a.least.width a }
    ensures is { result ≡ ends.part_ends high low a }
    ensures wide { AreEnds (high - low + 1) result }
{
    if a.least.number() >> high >> 1 == a.greatest.number() >> high >> 1 {
        Ends {
            least: a.least.extracted(high, low),
            greatest: a.greatest.extracted(high, low),
        }
    } else {
        any(high - low + 1)
    }
}

/// Of a complement.
#[tactic(auto, unfolding(bv_dag::specs::BitVectors::bvnot))]
pub(crate) fn complement(a: Ends) -> Ends
    requires { AreEnds a.least.width a }
    ensures is { result ≡ ends.complement_ends a }
    ensures wide { AreEnds a.least.width result }
{
    Ends {
        least: a.greatest.complement(),
        greatest: a.least.complement(),
    }
}

/// Of a term that is widened.
pub(crate) fn widened(by: u32, signed: bool, a: Ends) -> Ends
    requires wide { AreEnds a.least.width a }
    requires at_most_64 { a.least.width + by ≤ 64 }
    ensures is { result ≡ ends.widened_ends by signed a }
    ensures wide { AreEnds (a.least.width + by) result }
{
    Ends {
        least: extended(a.least, by, signed),
        greatest: extended(a.greatest, by, signed),
    }
}

/// Of two terms that are joined.
#[tactic(auto, unfolding(bv_dag::specs::BitVectors::concat))]
pub(crate) fn joined(a: Ends, b: Ends) -> Ends
    requires first { AreEnds a.least.width a }
    requires second { AreEnds b.least.width b }
    requires at_most_64 { a.least.width + b.least.width ≤ 64 }
    ensures is { result ≡ ends.joined_ends a b }
    ensures wide { AreEnds (a.least.width + b.least.width) result }
{
    Ends {
        least: a.least.above(b.least),
        greatest: a.greatest.above(b.greatest),
    }
}

/// The number that bits of a term are in each value.
pub(crate) fn part_told(high: u32, low: u32, a: Ends) -> Option<Word>
    requires order { low ≤ high }
    requires within { high < a.least.width }
    ensures { result ≡ ends.part_told high low a }
{
    if a.least.number() >> low == a.greatest.number() >> low {
        Some(a.least.extracted(high, low))
    } else {
        None
    }
}

/// Whether an operation is a quotient whose divisor may be 0.
pub(crate) fn may_divide_by_zero(terms: &Known, op: BinaryOp, divisor: usize) -> bool
    requires { divisor < length terms.now.nodes }
    ensures is { result ≡ ends.may_divide_by_zero op (tree_of terms.now divisor) }
    ensures quotient { result ≡ true → op ≡ BinaryOp.Udiv }
    ensures divides { result ≡ false → op ≡ BinaryOp.Udiv → (input : List ℕ)
        → All (λ b. b < 256) input → 0 < (val terms.now divisor input).number }
{
    match op {
        BinaryOp::Udiv => terms.ends_of(divisor).least.number() == 0,
        BinaryOp::Add
        | BinaryOp::Sub
        | BinaryOp::Mul
        | BinaryOp::Urem
        | BinaryOp::And
        | BinaryOp::Or
        | BinaryOp::Xor
        | BinaryOp::Shl
        | BinaryOp::Lshr
        | BinaryOp::Ashr => false,
    }
}
