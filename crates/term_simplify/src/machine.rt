//! The machine's products, quotients and remainders, each made of several terms. After want of memory the terms on the way
//! are taken away again.

ghost use Rattle.std.specs.Prelude.{◌≡◌, ◌<◌, ◌-◌, ℕ, Bool, List, true, false, IfOk, OnOk, OnErr, take};
ghost use Rattle.bv_dag.specs.BitVectors.{bvneg, ite, zero_extend};
ghost use Rattle.bv_dag.specs.Graphs.{val, width_of};
ghost use Rattle.bv_dag.specs.Nodes.{Fits, node_value, node_width, widths_of};
ghost use Rattle.rv_decode.specs.declared.ops.RegisterOp.{RegisterOp};
ghost use Rattle.term_trees.specs.Growth.{Continues};
ghost use Rattle.term_trees.specs.Trees.{tree_of, node_tree, IsTerm};
ghost use Rattle.term_simplify.specs.Machine.{sign_tree, signed_tree, magnitude_tree, signed_quotient_tree, or_ones_tree, quotient_tree, remainder_tree, upper_tree, BuildsCombined};
ghost use Rattle.term_simplify.specs.Plain.{extension_by};
ghost use Rattle.term_simplify.specs.Simplified.{simplified, negative_of, binary_of, choice_of};
ghost use Rattle.term_simplify.specs.Steps.{Stands, sign_word, signed_word, magnitude_word, signed_quotient_word, or_ones_word, upper_word, StandsCombined};

use crate::builder::Builder;
use crate::plan::under_signs;
use bv_dag::{BinaryOp, Comparison, Node};
use std::alloc::AllocError as NoMemory;

/// A signed number by its parts.
#[derive(Clone, Copy, Debug)]
struct Parts {
    /// The sign, one bit.
    negative: usize,
    magnitude: usize,
}

impl Builder {
    /// One term on the way.
    pub(crate) fn step(&mut self, node: Node) -> Result<usize, NoMemory>
        requires { Fits self.old.inputs (widths_of self.old.nodes) node }
        ensures continues { Continues self.old self.new }
        ensures ok { IfOk result (λ id. Stands self.new id (simplified (tree_of self.old) node)
            (node_width (widths_of self.old.nodes) node)
            (λ input. node_value input (λ k. val self.old k input) node)) }
        ensures term { IsTerm self.old.inputs (node_tree (tree_of self.old) node) }
    {
        self.build(node)
    }

    /// The negative of a term where the bit is 1, else the term.
    fn with_sign(&mut self, bit: usize, a: usize) -> Result<usize, NoMemory>
        requires bit { width_of self.old bit ≡ 1 }
        requires whole { width_of self.old a ≡ 32 }
        ensures continues { Continues self.old self.new }
        ensures ok { IfOk result (λ id. Stands self.new id
            (signed_tree (tree_of self.old bit) (tree_of self.old a)) 32
            (λ input. signed_word (val self.old bit input) (val self.old a input))) }
    {
        let opposite = self.step(Node::Neg(a))?;
        self.step(Node::Ite {
            condition: bit,
            yes: opposite,
            no: a,
        })
    }

    /// The magnitude of a narrower term of 32 bits, by its sign, widened to 32 bits.
    fn narrow_magnitude(&mut self, negative: usize, a: usize) -> Result<usize, NoMemory>
        requires bit { width_of self.old negative ≡ 1 }
        requires not_empty { 0 < width_of self.old a }
        requires below_32 { width_of self.old a < 32 }
        ensures continues { Continues self.old self.new }
        ensures ok { IfOk result (λ id. Stands self.new id
            (extension_by (32 - width_of self.old a) false
            (choice_of (tree_of self.old negative) (negative_of (tree_of self.old a))
            (tree_of self.old a))) 32
            (λ input. zero_extend (32 - width_of self.old a)
            (ite (val self.old negative input) (bvneg (val self.old a input))
            (val self.old a input)))) }
        ensures term { IsTerm self.old.inputs (tree_of self.old a) }
    {
        let by = 32 - self.known().width_of(a);
        let opposite = self.step(Node::Neg(a))?;
        let magnitude = self.step(Node::Ite {
            condition: negative,
            yes: opposite,
            no: a,
        })?;
        self.step(Node::Extend {
            by,
            signed: false,
            operand: magnitude,
        })
    }

    /// How far a term is from 0, by its sign.
    fn magnitude(&mut self, negative: usize, a: usize) -> Result<usize, NoMemory>
        requires whole { width_of self.old a ≡ 32 }
        requires sign { Stands self.old negative (sign_tree (tree_of self.old a)) 1
            (λ input. sign_word (val self.old a input)) }
        ensures continues { Continues self.old self.new }
        ensures ok { IfOk result (λ id. Stands self.new id (magnitude_tree (tree_of self.old a)) 32
            (λ input. magnitude_word (val self.old a input))) }
    {
        match under_signs(self.known(), a) {
            Some(narrow) => self.narrow_magnitude(negative, narrow),
            None => self.with_sign(negative, a),
        }
    }

    fn parts(&mut self, a: usize) -> Result<Parts, NoMemory>
        requires { width_of self.old a ≡ 32 }
        ensures continues { Continues self.old self.new }
        ensures negative { IfOk result (λ parts. Stands self.new parts.negative
            (sign_tree (tree_of self.old a)) 1 (λ input. sign_word (val self.old a input))) }
        ensures magnitude { IfOk result (λ parts. Stands self.new parts.magnitude
            (magnitude_tree (tree_of self.old a)) 32
            (λ input. magnitude_word (val self.old a input))) }
        ensures term { IsTerm self.old.inputs (tree_of self.old a) }
    {
        let negative = self.step(Node::Extract {
            high: 31,
            low: 31,
            operand: a,
        })?;
        let magnitude = self.magnitude(negative, a)?;
        Ok(Parts {
            negative,
            magnitude,
        })
    }

    /// The quotient of the magnitudes, negative where the signs differ.
    fn signed_quotient(&mut self, a: usize, b: usize) -> Result<usize, NoMemory>
        requires first { width_of self.old a ≡ 32 }
        requires second { width_of self.old b ≡ 32 }
        ensures continues { Continues self.old self.new }
        ensures first { OnOk result (IsTerm self.old.inputs (tree_of self.old a)) }
        ensures second { OnOk result (IsTerm self.old.inputs (tree_of self.old b)) }
        ensures ok { IfOk result (λ id. Stands self.new id
            (signed_quotient_tree (tree_of self.old a) (tree_of self.old b)) 32
            (λ input. signed_quotient_word (val self.old a input) (val self.old b input))) }
    {
        let dividend = self.parts(a)?;
        let divisor = self.parts(b)?;
        let quotient = self.step(Node::Binary(
            BinaryOp::Udiv,
            dividend.magnitude,
            divisor.magnitude,
        ))?;
        let differ = self.step(Node::Binary(BinaryOp::Xor, dividend.negative, divisor.negative))?;
        self.with_sign(differ, quotient)
    }

    /// All ones where the divisor is 0, else the quotient.
    fn or_ones(&mut self, divisor: usize, quotient: usize) -> Result<usize, NoMemory>
        requires divisor { width_of self.old divisor ≡ 32 }
        requires quotient { width_of self.old quotient ≡ 32 }
        ensures continues { Continues self.old self.new }
        ensures ok { IfOk result (λ id. Stands self.new id
            (or_ones_tree (tree_of self.old divisor) (tree_of self.old quotient)) 32
            (λ input. or_ones_word (val self.old divisor input) (val self.old quotient input))) }
    {
        let zero = self.step(Node::Num {
            width: 32,
            value: 0,
        })?;
        let by_zero = self.step(Node::Compare(Comparison::Eq, divisor, zero))?;
        let ones = self.step(Node::Num {
            width: 32,
            value: 0xffff_ffff,
        })?;
        self.step(Node::Ite {
            condition: by_zero,
            yes: ones,
            no: quotient,
        })
    }

    fn quotient(&mut self, a: usize, b: usize) -> Result<usize, NoMemory>
        requires first { width_of self.old a ≡ 32 }
        requires second { width_of self.old b ≡ 32 }
        ensures continues { Continues self.old self.new }
        ensures ok { IfOk result (StandsCombined self.old self.new RegisterOp.Div a b
            (quotient_tree (tree_of self.old a) (tree_of self.old b))) }
    {
        let signed = self.signed_quotient(a, b)?;
        self.or_ones(b, signed)
    }

    /// The remainder of the magnitudes, with the sign of the dividend.
    fn signed_remainder(&mut self, a: usize, b: usize) -> Result<usize, NoMemory>
        requires first { width_of self.old a ≡ 32 }
        requires second { width_of self.old b ≡ 32 }
        ensures continues { Continues self.old self.new }
        ensures ok { IfOk result (StandsCombined self.old self.new RegisterOp.Rem a b
            (remainder_tree (tree_of self.old a) (tree_of self.old b))) }
    {
        let dividend = self.parts(a)?;
        let divisor = self.parts(b)?;
        let remainder = self.step(Node::Binary(
            BinaryOp::Urem,
            dividend.magnitude,
            divisor.magnitude,
        ))?;
        self.with_sign(dividend.negative, remainder)
    }

    /// The upper 32 bits of a product, by whether each operand is signed.
    fn upper(&mut self, first: bool, second: bool, a: usize, b: usize) -> Result<usize, NoMemory>
        requires first { width_of self.old a ≡ 32 }
        requires second { width_of self.old b ≡ 32 }
        ensures continues { Continues self.old self.new }
        ensures first { OnOk result (IsTerm self.old.inputs (tree_of self.old a)) }
        ensures second { OnOk result (IsTerm self.old.inputs (tree_of self.old b)) }
        ensures ok { IfOk result (λ id. Stands self.new id
            (upper_tree first second (tree_of self.old a) (tree_of self.old b)) 32
            (λ input. upper_word first second (val self.old a input) (val self.old b input))) }
    {
        let left = self.step(Node::Extend {
            by: 32,
            signed: first,
            operand: a,
        })?;
        let right = self.step(Node::Extend {
            by: 32,
            signed: second,
            operand: b,
        })?;
        let product = self.step(Node::Binary(BinaryOp::Mul, left, right))?;
        self.step(Node::Extract {
            high: 63,
            low: 32,
            operand: product,
        })
    }

    /// The answer; where there is none, the first `len` terms alone are kept.
    pub fn settled(
        &mut self,
        len: usize,
        answer: Result<usize, NoMemory>,
    ) -> Result<usize, NoMemory>
        ensures same { result ≡ answer }
        ensures ok { OnOk result (self.new ≡ self.old) }
        ensures err { OnErr result (self.new
            ≡ record { inputs = self.old.inputs; nodes = take len self.old.nodes }) }
    {
        if answer.is_err() {
            self.truncate(len);
        }
        answer
    }

    /// The quotient of two signed terms of 32 bits: all ones where the second is 0.
    pub(crate) fn div(&mut self, a: usize, b: usize) -> Result<usize, NoMemory>
        requires first { width_of self.old a ≡ 32 }
        requires second { width_of self.old b ≡ 32 }
        ensures ok { IfOk result (BuildsCombined self.old self.new RegisterOp.Div a b
            (quotient_tree (tree_of self.old a) (tree_of self.old b))) }
        ensures err { OnErr result (self.new ≡ self.old) }
    {
        let len = self.len();
        let answer = self.quotient(a, b);
        self.settled(len, answer)
    }

    /// The quotient of two terms of 32 bits without sign: all ones where the second is 0.
    pub(crate) fn divu(&mut self, a: usize, b: usize) -> Result<usize, NoMemory>
        requires first { width_of self.old a ≡ 32 }
        requires second { width_of self.old b ≡ 32 }
        ensures ok { IfOk result (BuildsCombined self.old self.new RegisterOp.Divu a b
            (binary_of BinaryOp.Udiv (tree_of self.old a) (tree_of self.old b))) }
        ensures err { OnErr result (self.new ≡ self.old) }
    {
        self.udiv(a, b)
    }

    /// The remainder of two signed terms of 32 bits: the first where the second is 0.
    pub fn rem(&mut self, a: usize, b: usize) -> Result<usize, NoMemory>
        requires first { width_of self.old a ≡ 32 }
        requires second { width_of self.old b ≡ 32 }
        ensures ok { IfOk result (BuildsCombined self.old self.new RegisterOp.Rem a b
            (remainder_tree (tree_of self.old a) (tree_of self.old b))) }
        ensures err { OnErr result (self.new ≡ self.old) }
    {
        let len = self.len();
        let answer = self.signed_remainder(a, b);
        self.settled(len, answer)
    }

    /// The remainder of two terms of 32 bits without sign: the first where the second is 0.
    pub fn remu(&mut self, a: usize, b: usize) -> Result<usize, NoMemory>
        requires first { width_of self.old a ≡ 32 }
        requires second { width_of self.old b ≡ 32 }
        ensures ok { IfOk result (BuildsCombined self.old self.new RegisterOp.Remu a b
            (binary_of BinaryOp.Urem (tree_of self.old a) (tree_of self.old b))) }
        ensures err { OnErr result (self.new ≡ self.old) }
    {
        self.urem(a, b)
    }

    /// The upper 32 bits of the product of two signed terms of 32 bits.
    pub(crate) fn mulh(&mut self, a: usize, b: usize) -> Result<usize, NoMemory>
        requires first { width_of self.old a ≡ 32 }
        requires second { width_of self.old b ≡ 32 }
        ensures ok { IfOk result (BuildsCombined self.old self.new RegisterOp.Mulh a b
            (upper_tree true true (tree_of self.old a) (tree_of self.old b))) }
        ensures err { OnErr result (self.new ≡ self.old) }
    {
        let len = self.len();
        let answer = self.upper(true, true, a, b);
        self.settled(len, answer)
    }

    /// The upper 32 bits of the product of a signed term of 32 bits and one without sign.
    pub(crate) fn mulhsu(&mut self, a: usize, b: usize) -> Result<usize, NoMemory>
        requires first { width_of self.old a ≡ 32 }
        requires second { width_of self.old b ≡ 32 }
        ensures ok { IfOk result (BuildsCombined self.old self.new RegisterOp.Mulhsu a b
            (upper_tree true false (tree_of self.old a) (tree_of self.old b))) }
        ensures err { OnErr result (self.new ≡ self.old) }
    {
        let len = self.len();
        let answer = self.upper(true, false, a, b);
        self.settled(len, answer)
    }

    /// The upper 32 bits of the product of two terms of 32 bits without sign.
    pub(crate) fn mulhu(&mut self, a: usize, b: usize) -> Result<usize, NoMemory>
        requires first { width_of self.old a ≡ 32 }
        requires second { width_of self.old b ≡ 32 }
        ensures ok { IfOk result (BuildsCombined self.old self.new RegisterOp.Mulhu a b
            (upper_tree false false (tree_of self.old a) (tree_of self.old b))) }
        ensures err { OnErr result (self.new ≡ self.old) }
    {
        let len = self.len();
        let answer = self.upper(false, false, a, b);
        self.settled(len, answer)
    }
}
