//! And, or and xor of a term with a number: where the number's bits are equal, the result is bits of the term, their complement,
//! or a number, and takes no gate.

ghost use Rattle.std.specs.Prelude.{◌≡◌, ◌<◌, ◌≤◌, ◌/◌, ◌%◌, ◌==◌, ◌&&◌, not, nat_lt, true, ℕ, List, None, IfOk, IfSome, length};
ghost use Rattle.bv_dag.specs.BitVectors.{IsBitVector};
ghost use Rattle.bv_dag.specs.Graphs.{IsDag, val, width_of};
ghost use Rattle.bv_dag.specs.Nodes.{Fits, binary, node_value, node_width, widths_of};
ghost use Rattle.term_trees.specs.Growth.{Continues};
ghost use Rattle.term_trees.specs.Trees.{tree_of, node_tree, IsTerm};
ghost use Rattle.term_simplify.specs.Joints.{joint_of};
ghost use Rattle.term_simplify.specs.Plain.{masks_nothing, tree_number};
ghost use Rattle.term_simplify.specs.Runs.{IsMask, cut, is_bitwise, pieced, run, run_word, under_run};
ghost use Rattle.term_simplify.specs.Steps.{Stands};
ghost use Rattle.term_simplify.specs.Zeros.{binary_over_zeros};

use crate::binaries::ones;
use crate::builder::Builder;
use crate::known::Known;
use crate::masks::masks_nothing;
use crate::plan::number_at;
use bv_dag::{BinaryOp, Node, Word};
use std::alloc::AllocError as NoMemory;

/// How many runs of a number's bits are cut off, at most.
pub(crate) const RUNS: u32 = 4;

/// A term of this width that is joined with a number.
#[derive(Clone, Copy, Debug)]
pub(crate) struct Mask {
    operand: usize,
    width: u32,
    number: u64,
}

/// Whether an operation joins bits at each place alone.
fn is_bitwise(op: BinaryOp) -> bool
    ensures { result ≡ is_bitwise op }
{
    match op {
        BinaryOp::And | BinaryOp::Or | BinaryOp::Xor => true,
        BinaryOp::Add
        | BinaryOp::Sub
        | BinaryOp::Mul
        | BinaryOp::Udiv
        | BinaryOp::Urem
        | BinaryOp::Shl
        | BinaryOp::Lshr
        | BinaryOp::Ashr => false,
    }
}

/// Whether the lowest bit of a number is as the one above it, of which there are so many.
fn goes_on(above: u32, number: u64) -> bool
    ensures { result ≡ (nat_lt 0 above && number / 2 % 2 == number % 2) }
{
    0 < above && number / 2 % 2 == number % 2
}

/// How many bits of a number, from the lowest of so many up, are equal.
fn run_of(width: u32, number: u64) -> u32
    requires { 0 < width }
    ensures is { result ≡ run width number }
    ensures some { 1 ≤ result }
    ensures within { result ≤ width }
{
    if goes_on(width - 1, number) {
        run_of(width - 1, number / 2) + 1
    } else {
        1
    }
}

/// Whether an operation of a term with this number, at `mask`, is cut.
fn is_cut(terms: &Known, op: BinaryOp, mask: usize, id: usize) -> bool
    requires mask { mask < length terms.now.nodes }
    requires term { id < length terms.now.nodes }
    ensures { result ≡ (is_bitwise op
        && not (masks_nothing op (tree_number (tree_of terms.now mask)) (tree_of terms.now id))) }
{
    is_bitwise(op) && !masks_nothing(terms, op, mask, id)
}

/// A term and a number of its width.
fn mask_of(operand: usize, number: Word) -> Mask
    ensures is { result
        ≡ record { operand = operand; width = number.width; number = number.number } }
    ensures number { IsBitVector number.width number.number }
{
    Mask {
        operand,
        width: number.width(),
        number: number.number(),
    }
}

/// The term and the number of an operation that is cut.
fn mask_by(terms: &Known, op: BinaryOp, a: usize, b: usize) -> Option<Mask>
    requires { Fits terms.now.inputs (widths_of terms.now.nodes) (Node.Binary op a b) }
    ensures some { IfSome result (λ m. IsMask terms.now m) }
    ensures bitwise { IfSome result (λ _. is_bitwise op ≡ true) }
    ensures tree { IfSome result (λ m. pieced op (tree_of terms.now a) (tree_of terms.now b)
        ≡ cut RUNS op m.width m.number (tree_of terms.now m.operand)) }
    ensures worth { IfSome result (λ m. (input : List ℕ)
        → binary op (val terms.now m.operand input) (record { width = m.width; number = m.number })
        ≡ binary op (val terms.now a input) (val terms.now b input)) }
    ensures width { IfSome result (λ m. m.width ≡ width_of terms.now a) }
    ensures none { result ≡ None → pieced op (tree_of terms.now a) (tree_of terms.now b)
        ≡ joint_of op (tree_of terms.now a) (tree_of terms.now b)
        (binary_over_zeros op (tree_of terms.now a) (tree_of terms.now b)) }
    ensures fit { IfSome result (λ _. IsDag terms.now) }
{
    match (number_at(terms, a), number_at(terms, b)) {
        (None, Some(y)) => {
            if is_cut(terms, op, b, a) {
                Some(mask_of(a, y))
            } else {
                None
            }
        }
        (Some(x), None) => {
            if is_cut(terms, op, a, b) {
                Some(mask_of(b, x))
            } else {
                None
            }
        }
        _ => None,
    }
}

impl Builder {
    /// A term of so many bits, joined with as many zeros or ones.
    fn under_run(
        &mut self,
        op: BinaryOp,
        zeros: bool,
        width: u32,
        operand: usize,
    ) -> Result<usize, NoMemory>
        requires bitwise { is_bitwise op ≡ true }
        requires wide { width_of self.old operand ≡ width }
        requires some { 0 < width }
        requires term { IsTerm self.old.inputs (tree_of self.old operand) }
        ensures continues { Continues self.old self.new }
        ensures ok { IfOk result (λ id. Stands self.new id
            (under_run op zeros width (tree_of self.old operand)) width
            (λ input. binary op (val self.old operand input) (run_word zeros width))) }
    {
        match op {
            BinaryOp::And => {
                if zeros {
                    self.plain_step(Node::Num { width, value: 0 })
                } else {
                    Ok(operand)
                }
            }
            BinaryOp::Or => {
                if zeros {
                    Ok(operand)
                } else {
                    let value = ones(width).number();
                    self.plain_step(Node::Num { width, value })
                }
            }
            BinaryOp::Xor => {
                if zeros {
                    Ok(operand)
                } else {
                    self.plain_step(Node::Not(operand))
                }
            }
            _ => Ok(operand),
        }
    }

    /// A term of so many bits, joined with a number of as many; or only some of the terms that it stands on.
    fn cut(
        &mut self,
        runs: u32,
        op: BinaryOp,
        width: u32,
        number: u64,
        operand: usize,
    ) -> Result<usize, NoMemory>
        requires bitwise { is_bitwise op ≡ true }
        requires wide { width_of self.old operand ≡ width }
        requires number { IsBitVector width number }
        requires term { IsTerm self.old.inputs (tree_of self.old operand) }
        ensures continues { Continues self.old self.new }
        ensures ok { IfOk result (λ id. Stands self.new id
            (cut runs op width number (tree_of self.old operand)) width
            (λ input. binary op (val self.old operand input)
            (record { width = width; number = number }))) }
    {
        if runs == 0 {
            let mask = self.plain_step(Node::Num {
                width,
                value: number,
            })?;
            return self.plain_step(Node::Binary(op, operand, mask));
        }
        let run = run_of(width, number);
        let zeros = number % 2 == 0;
        if run == width {
            return self.under_run(op, zeros, width, operand);
        }
        let low = self.plain_step(Node::Extract {
            high: run - 1,
            low: 0,
            operand,
        })?;
        let lower = self.under_run(op, zeros, run, low)?;
        let high = self.plain_step(Node::Extract {
            high: width - 1,
            low: run,
            operand,
        })?;
        let upper = self.cut(runs - 1, op, width - run, number >> run, high)?;
        self.plain_step(Node::Concat {
            high: upper,
            low: lower,
        })
    }

    /// The term that an operation of two terms is at their own width.
    pub(crate) fn pieced_step(
        &mut self,
        op: BinaryOp,
        a: usize,
        b: usize,
    ) -> Result<usize, NoMemory>
        requires { Fits self.old.inputs (widths_of self.old.nodes) (Node.Binary op a b) }
        ensures continues { Continues self.old self.new }
        ensures ok { IfOk result (λ id. Stands self.new id
            (pieced op (tree_of self.old a) (tree_of self.old b)) (width_of self.old a)
            (λ input. binary op (val self.old a input) (val self.old b input))) }
        ensures term { IsTerm self.old.inputs (node_tree (tree_of self.old) (Node.Binary op a b)) }
    {
        match mask_by(self.known(), op, a, b) {
            Some(m) => self.cut(RUNS, op, m.width, m.number, m.operand),
            None => self.operation_step(op, a, b),
        }
    }
}
