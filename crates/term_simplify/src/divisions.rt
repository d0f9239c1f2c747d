//! Quotients and remainders by a number: bits of the term by a power of two, and by another number long division, written out
//! in terms of few bits.

ghost use Rattle.std.specs.Prelude.{◌≡◌, ◌+◌, ◌-◌, ◌/◌, ◌^◌, ◌<◌, ◌≤◌, ◌==◌, ◌&&◌, ◌||◌, nat_lt, true, false, ℕ, List, All, None, IfOk, IfSome, length};
ghost use Rattle.bv_dag.specs.BitVectors.{IsBitVector, bvudiv, bvurem};
ghost use Rattle.bv_dag.specs.Graphs.{IsDag, val, width_of};
ghost use Rattle.bv_dag.specs.Nodes.{Fits, binary, extend, node_value, node_width, widths_of};
ghost use Rattle.term_trees.specs.Growth.{Continues};
ghost use Rattle.term_trees.specs.Trees.{tree_of, node_tree, IsTerm};
ghost use Rattle.term_simplify.specs.Divisions as divisions;
ghost use Rattle.term_simplify.specs.Divisions.{IsDividend, upper_quotient, upper_remainder};
ghost use Rattle.term_simplify.specs.Narrowing as narrowings;
ghost use Rattle.term_simplify.specs.Plain.{further};
ghost use Rattle.term_simplify.specs.Runs.{pieced};
ghost use Rattle.term_simplify.specs.Steps.{Stands};

use crate::builder::Builder;
use crate::known::Known;
use crate::narrowing::length_of;
use crate::plan::number_at;
use bv_dag::{BinaryOp, Node, Word};
use std::alloc::AllocError as NoMemory;

/// A term of so many bits or fewer is divided in one operation: all its values are soon tried, and one node is cheaper to evaluate
/// than the many of a long division.
pub(crate) const FEW_BITS: u32 = 8;

/// A term of this width that is divided by a number of so many bits.
#[derive(Clone, Copy, Debug)]
pub(crate) struct Dividend {
    operand: usize,
    width: u32,
    bits: u32,
    divisor: u64,
}

/// What a stage of a long division finds: whether the divisor is not taken off, and the next remainder.
#[derive(Clone, Copy, Debug)]
struct Reduced {
    borrow: usize,
    remainder: usize,
}

/// Whether an operation divides.
fn is_division(op: BinaryOp) -> bool
    ensures { result ≡ divisions.is_division op }
{
    match op {
        BinaryOp::Udiv | BinaryOp::Urem => true,
        BinaryOp::Add
        | BinaryOp::Sub
        | BinaryOp::Mul
        | BinaryOp::And
        | BinaryOp::Or
        | BinaryOp::Xor
        | BinaryOp::Shl
        | BinaryOp::Lshr
        | BinaryOp::Ashr => false,
    }
}

/// Whether a number of so many bits is a power of two.
fn is_power(bits: u32, divisor: u64) -> bool
    requires some { 0 < bits }
    requires few { bits ≤ 64 }
    ensures { result ≡ divisions.is_power bits divisor }
{
    divisor == 1 << (bits - 1)
}

/// Whether a term of this width is divided so by a number of so many bits.
fn is_divisor(width: u32, bits: u32, divisor: u64) -> bool
    requires some { 0 < bits }
    requires few { bits ≤ 64 }
    ensures { result ≡ divisions.is_divisor width bits divisor }
{
    divisor > 1 && (is_power(bits, divisor) || (width > FEW_BITS && bits < 64))
}

/// A term that is divided by this number.
fn dividend_by(operand: usize, by: Word) -> Option<Dividend>
    ensures some { IfSome result (λ d. divisions.is_divisor by.width
        (narrowings.length_of by.number) by.number ≡ true) }
    ensures is { IfSome result (λ d. d ≡ record {
      operand = operand;
      width = by.width;
      bits = narrowings.length_of by.number;
      divisor = by.number;
    }) }
    ensures none { result ≡ None → divisions.is_divisor by.width
        (narrowings.length_of by.number) by.number ≡ false }
    ensures number { IsBitVector by.width by.number }
{
    let divisor = by.number();
    let width = by.width();
    let bits = length_of(divisor);
    if is_divisor(width, bits, divisor) {
        Some(Dividend {
            operand,
            width,
            bits,
            divisor,
        })
    } else {
        None
    }
}

/// The term and the number of an operation that is written out.
fn dividend_of(terms: &Known, op: BinaryOp, a: usize, b: usize) -> Option<Dividend>
    requires { Fits terms.now.inputs (widths_of terms.now.nodes) (Node.Binary op a b) }
    ensures some { IfSome result (λ d. IsDividend terms.now d) }
    ensures how { IfSome result (λ d. divisions.is_divisor d.width d.bits d.divisor ≡ true) }
    ensures division { IfSome result (λ _. divisions.is_division op ≡ true) }
    ensures tree { IfSome result (λ d.
        divisions.by_divisor op (tree_of terms.now a) (tree_of terms.now b)
        ≡ divisions.divided_at op d.width d.bits d.divisor (tree_of terms.now d.operand)) }
    ensures worth { IfSome result (λ d. (input : List ℕ)
        → binary op (val terms.now d.operand input)
        (record { width = d.width; number = d.divisor })
        ≡ binary op (val terms.now a input) (val terms.now b input)) }
    ensures width { IfSome result (λ d. d.width ≡ width_of terms.now a) }
    ensures none { result ≡ None
        → divisions.by_divisor op (tree_of terms.now a) (tree_of terms.now b)
        ≡ pieced op (tree_of terms.now a) (tree_of terms.now b) }
    ensures fit { IfSome result (λ _. IsDag terms.now) }
{
    if !is_division(op) {
        return None;
    }
    match (number_at(terms, a), number_at(terms, b)) {
        (None, Some(y)) => dividend_by(a, y),
        _ => None,
    }
}

impl Builder {
    /// A term under so many zeros, where there are any.
    fn filled(&mut self, by: u32, a: usize) -> Result<usize, NoMemory>
        requires some { 0 < width_of self.old a }
        requires fits { width_of self.old a + by ≤ 64 }
        ensures continues { Continues self.old self.new }
        ensures ok { IfOk result (λ id. Stands self.new id (further by false (tree_of self.old a))
            (width_of self.old a + by) (λ input. extend false by (val self.old a input))) }
    {
        if by == 0 {
            return Ok(a);
        }
        self.plain_step(Node::Extend {
            by,
            signed: false,
            operand: a,
        })
    }

    /// The quotient by a power of two: the upper bits.
    fn power_quotient(&mut self, d: Dividend) -> Result<usize, NoMemory>
        requires dividend { IsDividend self.old d }
        requires power { divisions.is_power d.bits d.divisor ≡ true }
        ensures continues { Continues self.old self.new }
        ensures ok { IfOk result (λ id. Stands self.new id
            (divisions.power_quotient d.width (d.bits - 1) (tree_of self.old d.operand)) d.width
            (λ input. bvudiv (val self.old d.operand input)
            (record { width = d.width; number = d.divisor }))) }
    {
        let by = d.bits - 1;
        let upper = self.plain_step(Node::Extract {
            high: d.width - 1,
            low: by,
            operand: d.operand,
        })?;
        self.plain_step(Node::Extend {
            by,
            signed: false,
            operand: upper,
        })
    }

    /// The remainder by a power of two: the lower bits.
    fn power_remainder(&mut self, d: Dividend) -> Result<usize, NoMemory>
        requires dividend { IsDividend self.old d }
        requires power { divisions.is_power d.bits d.divisor ≡ true }
        ensures continues { Continues self.old self.new }
        ensures ok { IfOk result (λ id. Stands self.new id
            (divisions.power_remainder d.width (d.bits - 1) (tree_of self.old d.operand)) d.width
            (λ input. bvurem (val self.old d.operand input)
            (record { width = d.width; number = d.divisor }))) }
    {
        let by = d.bits - 1;
        let lower = self.plain_step(Node::Extract {
            high: by - 1,
            low: 0,
            operand: d.operand,
        })?;
        self.plain_step(Node::Extend {
            by: d.width - by,
            signed: false,
            operand: lower,
        })
    }

    /// A remainder with a bit of the dividend below it.
    fn brought(&mut self, at: u32, d: Dividend, remainder: usize) -> Result<usize, NoMemory>
        requires dividend { IsDividend self.old d }
        requires within { at < d.width }
        requires remainder { width_of self.old remainder ≡ d.bits }
        requires few { d.bits < 64 }
        ensures continues { Continues self.old self.new }
        ensures ok { IfOk result (λ id. Stands self.new id
            (divisions.brought at (tree_of self.old d.operand) (tree_of self.old remainder))
            (d.bits + 1)
            (λ input. divisions.brought_word at (val self.old d.operand input)
            (val self.old remainder input))) }
    {
        let bit = self.plain_step(Node::Extract {
            high: at,
            low: at,
            operand: d.operand,
        })?;
        self.plain_step(Node::Concat {
            high: remainder,
            low: bit,
        })
    }

    /// A term of one bit more than a divisor, less the divisor.
    fn less_divisor(&mut self, d: Dividend, a: usize) -> Result<usize, NoMemory>
        requires dividend { IsDividend self.old d }
        requires wide { width_of self.old a ≡ d.bits + 1 }
        requires few { d.bits < 64 }
        ensures continues { Continues self.old self.new }
        ensures ok { IfOk result (λ id. Stands self.new id
            (divisions.less_divisor d.bits d.divisor (tree_of self.old a)) (d.bits + 1)
            (λ input. divisions.less_divisor_word d.bits d.divisor (val self.old a input))) }
    {
        let divisor = self.plain_step(Node::Num {
            width: d.bits + 1,
            value: d.divisor,
        })?;
        self.plain_step(Node::Binary(BinaryOp::Sub, a, divisor))
    }

    /// What a stage finds of a remainder with a bit below it.
    fn reduce(&mut self, d: Dividend, a: usize) -> Result<Reduced, NoMemory>
        requires dividend { IsDividend self.old d }
        requires wide { width_of self.old a ≡ d.bits + 1 }
        requires few { d.bits < 64 }
        ensures continues { Continues self.old self.new }
        ensures borrow { IfOk result (λ s. Stands self.new s.borrow
            (divisions.borrow_of d.bits d.divisor (tree_of self.old a)) 1
            (λ input. divisions.borrow_word d.bits d.divisor (val self.old a input))) }
        ensures remainder { IfOk result (λ s. Stands self.new s.remainder
            (divisions.next_remainder d.bits d.divisor (tree_of self.old a)) d.bits
            (λ input. divisions.next_remainder_word d.bits d.divisor (val self.old a input))) }
    {
        let difference = self.less_divisor(d, a)?;
        let borrow = self.plain_step(Node::Extract {
            high: d.bits,
            low: d.bits,
            operand: difference,
        })?;
        let kept = self.plain_step(Node::Extract {
            high: d.bits - 1,
            low: 0,
            operand: a,
        })?;
        let less = self.plain_step(Node::Extract {
            high: d.bits - 1,
            low: 0,
            operand: difference,
        })?;
        let remainder = self.plain_step(Node::Ite {
            condition: borrow,
            yes: kept,
            no: less,
        })?;
        Ok(Reduced { borrow, remainder })
    }

    /// The remainder, with so many bits of the dividend left, from that of the bits above.
    fn remainder_from(
        &mut self,
        left: u32,
        d: Dividend,
        remainder: usize,
    ) -> Result<usize, NoMemory>
        requires dividend { IsDividend self.old d }
        requires within { left ≤ d.width }
        requires few { d.bits < 64 }
        requires wide { width_of self.old remainder ≡ d.bits }
        requires worth { (input : List ℕ) → All (λ b. b < 256) input
            → val self.old remainder input
            ≡ upper_remainder d.bits left d.divisor (val self.old d.operand input) }
        ensures continues { Continues self.old self.new }
        ensures ok { IfOk result (λ id. Stands self.new id
            (divisions.remainder_from left d.bits d.divisor (tree_of self.old d.operand)
            (tree_of self.old remainder)) d.bits
            (λ input. upper_remainder d.bits 0 d.divisor (val self.old d.operand input))) }
    {
        if left == 0 {
            return Ok(remainder);
        }
        let brought = self.brought(left - 1, d, remainder)?;
        let reduced = self.reduce(d, brought)?;
        self.remainder_from(left - 1, d, reduced.remainder)
    }

    /// The quotient, with so many bits of the dividend left, from that of the bits above and their remainder.
    fn quotient_from(
        &mut self,
        left: u32,
        d: Dividend,
        quotient: usize,
        remainder: usize,
    ) -> Result<usize, NoMemory>
        requires dividend { IsDividend self.old d }
        requires within { left < d.width }
        requires few { d.bits < 64 }
        requires high { width_of self.old quotient ≡ d.width - left }
        requires wide { width_of self.old remainder ≡ d.bits }
        requires found { (input : List ℕ) → All (λ b. b < 256) input
            → val self.old quotient input
            ≡ upper_quotient d.width left d.divisor (val self.old d.operand input) }
        requires worth { (input : List ℕ) → All (λ b. b < 256) input
            → val self.old remainder input
            ≡ upper_remainder d.bits left d.divisor (val self.old d.operand input) }
        ensures continues { Continues self.old self.new }
        ensures ok { IfOk result (λ id. Stands self.new id
            (divisions.quotient_from left d.bits d.divisor (tree_of self.old d.operand)
            (tree_of self.old quotient) (tree_of self.old remainder)) d.width
            (λ input. upper_quotient d.width 0 d.divisor (val self.old d.operand input))) }
    {
        if left == 0 {
            return Ok(quotient);
        }
        let brought = self.brought(left - 1, d, remainder)?;
        let reduced = self.reduce(d, brought)?;
        let bit = self.plain_step(Node::Not(reduced.borrow))?;
        let longer = self.plain_step(Node::Concat {
            high: quotient,
            low: bit,
        })?;
        self.quotient_from(left - 1, d, longer, reduced.remainder)
    }

    /// The upper bits of the dividend, one fewer than the divisor has, under a zero.
    fn first_remainder(&mut self, d: Dividend) -> Result<usize, NoMemory>
        requires dividend { IsDividend self.old d }
        ensures continues { Continues self.old self.new }
        ensures ok { IfOk result (λ id. Stands self.new id
            (divisions.first_remainder d.width d.bits (tree_of self.old d.operand)) d.bits
            (λ input. upper_remainder d.bits (d.width - d.bits + 1) d.divisor
            (val self.old d.operand input))) }
        ensures term { IsTerm self.old.inputs (tree_of self.old d.operand) }
    {
        let upper = self.plain_step(Node::Extract {
            high: d.width - 1,
            low: d.width - d.bits + 1,
            operand: d.operand,
        })?;
        self.plain_step(Node::Extend {
            by: 1,
            signed: false,
            operand: upper,
        })
    }

    /// The quotient by a long division.
    fn long_quotient(&mut self, d: Dividend) -> Result<usize, NoMemory>
        requires dividend { IsDividend self.old d }
        requires few { d.bits < 64 }
        ensures continues { Continues self.old self.new }
        ensures ok { IfOk result (λ id. Stands self.new id
            (divisions.long_quotient d.width d.bits d.divisor (tree_of self.old d.operand)) d.width
            (λ input. bvudiv (val self.old d.operand input)
            (record { width = d.width; number = d.divisor }))) }
    {
        let first = self.first_remainder(d)?;
        let zeros = self.plain_step(Node::Num {
            width: d.bits - 1,
            value: 0,
        })?;
        self.quotient_from(d.width - d.bits + 1, d, zeros, first)
    }

    /// The remainder by a long division.
    fn long_remainder(&mut self, d: Dividend) -> Result<usize, NoMemory>
        requires dividend { IsDividend self.old d }
        requires few { d.bits < 64 }
        ensures continues { Continues self.old self.new }
        ensures ok { IfOk result (λ id. Stands self.new id
            (divisions.long_remainder d.width d.bits d.divisor (tree_of self.old d.operand)) d.width
            (λ input. bvurem (val self.old d.operand input)
            (record { width = d.width; number = d.divisor }))) }
    {
        let first = self.first_remainder(d)?;
        let remainder = self.remainder_from(d.width - d.bits + 1, d, first)?;
        self.filled(d.width - d.bits, remainder)
    }

    /// The quotient.
    fn quotient_by(&mut self, d: Dividend) -> Result<usize, NoMemory>
        requires dividend { IsDividend self.old d }
        requires how { divisions.is_divisor d.width d.bits d.divisor ≡ true }
        ensures continues { Continues self.old self.new }
        ensures ok { IfOk result (λ id. Stands self.new id
            (divisions.quotient_by d.width d.bits d.divisor (tree_of self.old d.operand)) d.width
            (λ input. bvudiv (val self.old d.operand input)
            (record { width = d.width; number = d.divisor }))) }
    {
        if is_power(d.bits, d.divisor) {
            self.power_quotient(d)
        } else {
            self.long_quotient(d)
        }
    }

    /// The remainder.
    fn remainder_by(&mut self, d: Dividend) -> Result<usize, NoMemory>
        requires dividend { IsDividend self.old d }
        requires how { divisions.is_divisor d.width d.bits d.divisor ≡ true }
        ensures continues { Continues self.old self.new }
        ensures ok { IfOk result (λ id. Stands self.new id
            (divisions.remainder_by d.width d.bits d.divisor (tree_of self.old d.operand)) d.width
            (λ input. bvurem (val self.old d.operand input)
            (record { width = d.width; number = d.divisor }))) }
    {
        if is_power(d.bits, d.divisor) {
            self.power_remainder(d)
        } else {
            self.long_remainder(d)
        }
    }

    /// The quotient or the remainder.
    fn divided_at(&mut self, op: BinaryOp, d: Dividend) -> Result<usize, NoMemory>
        requires dividend { IsDividend self.old d }
        requires how { divisions.is_divisor d.width d.bits d.divisor ≡ true }
        requires division { divisions.is_division op ≡ true }
        ensures continues { Continues self.old self.new }
        ensures ok { IfOk result (λ id. Stands self.new id
            (divisions.divided_at op d.width d.bits d.divisor (tree_of self.old d.operand)) d.width
            (λ input. binary op (val self.old d.operand input)
            (record { width = d.width; number = d.divisor }))) }
    {
        match op {
            BinaryOp::Udiv => self.quotient_by(d),
            _ => self.remainder_by(d),
        }
    }

    /// The term that an operation of two terms is at their own width.
    fn by_divisor_step(&mut self, op: BinaryOp, a: usize, b: usize) -> Result<usize, NoMemory>
        requires { Fits self.old.inputs (widths_of self.old.nodes) (Node.Binary op a b) }
        ensures continues { Continues self.old self.new }
        ensures ok { IfOk result (λ id. Stands self.new id
            (divisions.by_divisor op (tree_of self.old a) (tree_of self.old b))
            (width_of self.old a)
            (λ input. binary op (val self.old a input) (val self.old b input))) }
        ensures term { IsTerm self.old.inputs (node_tree (tree_of self.old) (Node.Binary op a b)) }
    {
        match dividend_of(self.known(), op, a, b) {
            Some(d) => self.divided_at(op, d),
            None => self.pieced_step(op, a, b),
        }
    }

    /// The term at its own width of a node that multiplies nothing by a number, on the way to another.
    pub(crate) fn unmultiplied_step(&mut self, node: Node) -> Result<usize, NoMemory>
        requires { Fits self.old.inputs (widths_of self.old.nodes) node }
        ensures continues { Continues self.old self.new }
        ensures ok { IfOk result (λ id. Stands self.new id
            (divisions.unmultiplied (tree_of self.old) node)
            (node_width (widths_of self.old.nodes) node)
            (λ input. node_value input (λ k. val self.old k input) node)) }
        ensures term { IsTerm self.old.inputs (node_tree (tree_of self.old) node) }
    {
        match node {
            Node::Binary(op, a, b) => self.by_divisor_step(op, a, b),
            Node::Compare(op, a, b) => self.comparison_step(op, a, b),
            _ => self.plain_step(node),
        }
    }
}
