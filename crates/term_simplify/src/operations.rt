//! What an instruction computes of terms. After want of memory the terms on the way are taken away again.

ghost use Rattle.std.specs.Prelude.{◌≡◌, ◌+◌, ◌-◌, ◌*◌, ◌/◌, ◌%◌, ◌^◌, ◌<◌, not, IfOk, OnErr};
ghost use Rattle.bv_dag.specs.BitVectors.{bit};
ghost use Rattle.bv_dag.specs.Graphs.{val, width_of, number_of};
ghost use Rattle.rv_spec.specs.Arithmetic as arithmetic;
ghost use Rattle.rv_spec.specs.Machine as machine;
ghost use Rattle.term_trees.specs.Growth.{Continues};
ghost use Rattle.term_trees.specs.Trees.{tree_of};
ghost use Rattle.term_simplify.specs.Builds.{Builds};
ghost use Rattle.term_simplify.specs.Machine.{BuildsCombined};
ghost use Rattle.term_simplify.specs.Operations as operations;
ghost use Rattle.term_simplify.specs.Plain.{complement_of, extension_by};
ghost use Rattle.term_simplify.specs.Simplified.{comparison_of};
ghost use Rattle.term_simplify.specs.Steps.{Stands, compares, shift_word};

use crate::builder::Builder;
use bv_dag::{BinaryOp, Comparison, Node};
use rv_decode::{RegisterOp, Test};
use std::alloc::AllocError as NoMemory;

impl Builder {
    /// A shift by the low five bits of the second.
    fn by_five_bits(&mut self, op: BinaryOp, a: usize, b: usize) -> Result<usize, NoMemory>
        requires first { width_of self.old a ≡ 32 }
        requires second { width_of self.old b ≡ 32 }
        ensures continues { Continues self.old self.new }
        ensures ok { IfOk result (λ id. Stands self.new id
            (operations.shift_tree op (tree_of self.old a) (tree_of self.old b)) 32
            (λ input. shift_word op (val self.old a input) (val self.old b input))) }
    {
        let mask = self.step(Node::Num {
            width: 32,
            value: 31,
        })?;
        let amount = self.step(Node::Binary(BinaryOp::And, b, mask))?;
        self.step(Node::Binary(op, a, amount))
    }

    /// The same; after want of memory nothing has changed.
    fn shift(&mut self, op: BinaryOp, a: usize, b: usize) -> Result<usize, NoMemory>
        requires first { width_of self.old a ≡ 32 }
        requires second { width_of self.old b ≡ 32 }
        ensures ok { IfOk result (λ id. Builds self.old self.new id
            (operations.shift_tree op (tree_of self.old a) (tree_of self.old b)) 32
            (λ input. shift_word op (val self.old a input) (val self.old b input))) }
        ensures err { OnErr result (self.new ≡ self.old) }
    {
        let len = self.len();
        let answer = self.by_five_bits(op, a, b);
        self.settled(len, answer)
    }

    /// Whether a comparison holds: one bit.
    fn compared(&mut self, op: Comparison, a: usize, b: usize) -> Result<usize, NoMemory>
        requires first { width_of self.old a ≡ 32 }
        requires second { width_of self.old b ≡ 32 }
        ensures continues { Continues self.old self.new }
        ensures ok { IfOk result (λ id. Stands self.new id
            (comparison_of op (tree_of self.old a) (tree_of self.old b)) 1
            (λ input. bit (compares op (number_of self.old a input)
            (number_of self.old b input)))) }
    {
        self.step(Node::Compare(op, a, b))
    }

    /// Whether a comparison fails: one bit.
    fn not_compared(&mut self, op: Comparison, a: usize, b: usize) -> Result<usize, NoMemory>
        requires first { width_of self.old a ≡ 32 }
        requires second { width_of self.old b ≡ 32 }
        ensures continues { Continues self.old self.new }
        ensures ok { IfOk result (λ id. Stands self.new id
            (complement_of (comparison_of op (tree_of self.old a) (tree_of self.old b))) 1
            (λ input. bit (not (compares op (number_of self.old a input)
            (number_of self.old b input))))) }
    {
        let bit = self.compared(op, a, b)?;
        self.step(Node::Not(bit))
    }

    /// 1 in 32 bits where a comparison holds, else 0.
    fn one_where(&mut self, op: Comparison, a: usize, b: usize) -> Result<usize, NoMemory>
        requires first { width_of self.old a ≡ 32 }
        requires second { width_of self.old b ≡ 32 }
        ensures continues { Continues self.old self.new }
        ensures ok { IfOk result (λ id. Stands self.new id
            (operations.set_tree op (tree_of self.old a) (tree_of self.old b)) 32
            (λ input. record {
              width = 32;
              number = arithmetic.one_where
                  (compares op (number_of self.old a input) (number_of self.old b input));
            })) }
    {
        let bit = self.compared(op, a, b)?;
        self.step(Node::Extend {
            by: 31,
            signed: false,
            operand: bit,
        })
    }

    /// The same; after want of memory nothing has changed.
    fn set(&mut self, op: Comparison, a: usize, b: usize) -> Result<usize, NoMemory>
        requires first { width_of self.old a ≡ 32 }
        requires second { width_of self.old b ≡ 32 }
        ensures ok { IfOk result (λ id. Builds self.old self.new id
            (operations.set_tree op (tree_of self.old a) (tree_of self.old b)) 32
            (λ input. record {
              width = 32;
              number = arithmetic.one_where
                  (compares op (number_of self.old a input) (number_of self.old b input));
            })) }
        ensures err { OnErr result (self.new ≡ self.old) }
    {
        let len = self.len();
        let answer = self.one_where(op, a, b);
        self.settled(len, answer)
    }

    /// What an instruction computes of two registers, terms of 32 bits.
    pub fn combined(&mut self, op: RegisterOp, a: usize, b: usize) -> Result<usize, NoMemory>
        requires first { width_of self.old a ≡ 32 }
        requires second { width_of self.old b ≡ 32 }
        ensures ok { IfOk result (BuildsCombined self.old self.new op a b
            (operations.combined_tree op (tree_of self.old a) (tree_of self.old b))) }
        ensures err { OnErr result (self.new ≡ self.old) }
    {
        match op {
            RegisterOp::Add => self.add(a, b),
            RegisterOp::Sub => self.sub(a, b),
            RegisterOp::Sll => self.shift(BinaryOp::Shl, a, b),
            RegisterOp::Slt => self.set(Comparison::Slt, a, b),
            RegisterOp::Sltu => self.set(Comparison::Ult, a, b),
            RegisterOp::Xor => self.xor(a, b),
            RegisterOp::Srl => self.shift(BinaryOp::Lshr, a, b),
            RegisterOp::Sra => self.shift(BinaryOp::Ashr, a, b),
            RegisterOp::Or => self.or(a, b),
            RegisterOp::And => self.and(a, b),
            RegisterOp::Mul => self.mul(a, b),
            RegisterOp::Mulh => self.mulh(a, b),
            RegisterOp::Mulhsu => self.mulhsu(a, b),
            RegisterOp::Mulhu => self.mulhu(a, b),
            RegisterOp::Div => self.div(a, b),
            RegisterOp::Divu => self.divu(a, b),
            RegisterOp::Rem => self.rem(a, b),
            RegisterOp::Remu => self.remu(a, b),
        }
    }

    fn tested(&mut self, test: Test, a: usize, b: usize) -> Result<usize, NoMemory>
        requires first { width_of self.old a ≡ 32 }
        requires second { width_of self.old b ≡ 32 }
        ensures continues { Continues self.old self.new }
        ensures ok { IfOk result (λ id. Stands self.new id
            (operations.passes_tree test (tree_of self.old a) (tree_of self.old b)) 1
            (λ input. record {
              width = 1;
              number = arithmetic.one_where
                  (arithmetic.passes test (number_of self.old a input) (number_of self.old b input));
            })) }
    {
        match test {
            Test::Beq => self.compared(Comparison::Eq, a, b),
            Test::Bne => self.not_compared(Comparison::Eq, a, b),
            Test::Blt => self.compared(Comparison::Slt, a, b),
            Test::Bge => self.not_compared(Comparison::Slt, a, b),
            Test::Bltu => self.compared(Comparison::Ult, a, b),
            Test::Bgeu => self.not_compared(Comparison::Ult, a, b),
        }
    }

    /// Whether a conditional branch on two registers, terms of 32 bits, is taken: one bit.
    pub fn passes(&mut self, test: Test, a: usize, b: usize) -> Result<usize, NoMemory>
        requires first { width_of self.old a ≡ 32 }
        requires second { width_of self.old b ≡ 32 }
        ensures ok { IfOk result (λ id. Builds self.old self.new id
            (operations.passes_tree test (tree_of self.old a) (tree_of self.old b)) 1
            (λ input. record {
              width = 1;
              number = arithmetic.one_where
                  (arithmetic.passes test (number_of self.old a input) (number_of self.old b input));
            })) }
        ensures err { OnErr result (self.new ≡ self.old) }
    {
        let len = self.len();
        let answer = self.tested(test, a, b);
        self.settled(len, answer)
    }

    /// A term of so many bits in 32, with copies of its sign above it, or zeros.
    pub fn widened(&mut self, bits: u32, signed: bool, a: usize) -> Result<usize, NoMemory>
        requires some { 0 < bits }
        requires narrow { bits < 32 }
        requires width { width_of self.old a ≡ bits }
        ensures ok { IfOk result (λ id. Builds self.old self.new id
            (extension_by (32 - bits) signed (tree_of self.old a)) 32
            (λ input. record {
              width = 32;
              number = operations.widened signed bits (number_of self.old a input);
            })) }
        ensures err { OnErr result (self.new ≡ self.old) }
    {
        self.extend(32 - bits, signed, a)
    }

    /// Two bytes as a half word of 16 bits.
    pub fn half(&mut self, low: usize, high: usize) -> Result<usize, NoMemory>
        requires low { width_of self.old low ≡ 8 }
        requires high { width_of self.old high ≡ 8 }
        ensures ok { IfOk result (λ id. Builds self.old self.new id
            (operations.half_tree (tree_of self.old low) (tree_of self.old high)) 16
            (λ input. record {
              width = 16;
              number = number_of self.old low input + 2 ^ 8 * number_of self.old high input;
            })) }
        ensures err { OnErr result (self.new ≡ self.old) }
    {
        self.concat(high, low)
    }

    fn four_bytes(&mut self, b0: usize, b1: usize, b2: usize, b3: usize) -> Result<usize, NoMemory>
        requires b0 { width_of self.old b0 ≡ 8 }
        requires b1 { width_of self.old b1 ≡ 8 }
        requires b2 { width_of self.old b2 ≡ 8 }
        requires b3 { width_of self.old b3 ≡ 8 }
        ensures continues { Continues self.old self.new }
        ensures ok { IfOk result (λ id. Stands self.new id
            (operations.word_tree (tree_of self.old b0) (tree_of self.old b1) (tree_of self.old b2)
            (tree_of self.old b3)) 32
            (λ input. record {
              width = 32;
              number = number_of self.old b0 input + 2 ^ 8 * number_of self.old b1 input
                  + 2 ^ 16 * number_of self.old b2 input + 2 ^ 24 * number_of self.old b3 input;
            })) }
    {
        let low = self.step(Node::Concat { high: b1, low: b0 })?;
        let high = self.step(Node::Concat { high: b3, low: b2 })?;
        self.step(Node::Concat { high, low })
    }

    /// Four bytes as a word of 32 bits, the lowest first.
    pub fn word(&mut self, b0: usize, b1: usize, b2: usize, b3: usize) -> Result<usize, NoMemory>
        requires b0 { width_of self.old b0 ≡ 8 }
        requires b1 { width_of self.old b1 ≡ 8 }
        requires b2 { width_of self.old b2 ≡ 8 }
        requires b3 { width_of self.old b3 ≡ 8 }
        ensures ok { IfOk result (λ id. Builds self.old self.new id
            (operations.word_tree (tree_of self.old b0) (tree_of self.old b1) (tree_of self.old b2)
            (tree_of self.old b3)) 32
            (λ input. record {
              width = 32;
              number = number_of self.old b0 input + 2 ^ 8 * number_of self.old b1 input
                  + 2 ^ 16 * number_of self.old b2 input + 2 ^ 24 * number_of self.old b3 input;
            })) }
        ensures err { OnErr result (self.new ≡ self.old) }
    {
        let len = self.len();
        let answer = self.four_bytes(b0, b1, b2, b3);
        self.settled(len, answer)
    }

    /// A byte of a word of 32 bits, `at` bytes up.
    pub fn byte(&mut self, a: usize, at: u32) -> Result<usize, NoMemory>
        requires whole { width_of self.old a ≡ 32 }
        requires at { at < 4 }
        ensures ok { IfOk result (λ id. Builds self.old self.new id
            (operations.byte_tree at (tree_of self.old a)) 8
            (λ input. record {
              width = 8;
              number = number_of self.old a input / 2 ^ (8 * at) % 2 ^ 8;
            })) }
        ensures err { OnErr result (self.new ≡ self.old) }
    {
        self.extract(8 * at + 7, 8 * at, a)
    }

    fn cleared(&mut self, a: usize) -> Result<usize, NoMemory>
        requires { width_of self.old a ≡ 32 }
        ensures continues { Continues self.old self.new }
        ensures ok { IfOk result (λ id. Stands self.new id
            (operations.even_tree (tree_of self.old a)) 32
            (λ input. record { width = 32; number = machine.even (number_of self.old a input) })) }
    {
        let upper = self.step(Node::Extract {
            high: 31,
            low: 1,
            operand: a,
        })?;
        let zero = self.step(Node::Num { width: 1, value: 0 })?;
        self.step(Node::Concat {
            high: upper,
            low: zero,
        })
    }

    /// A word of 32 bits with its lowest bit cleared.
    pub fn even(&mut self, a: usize) -> Result<usize, NoMemory>
        requires { width_of self.old a ≡ 32 }
        ensures ok { IfOk result (λ id. Builds self.old self.new id
            (operations.even_tree (tree_of self.old a)) 32
            (λ input. record { width = 32; number = machine.even (number_of self.old a input) })) }
        ensures err { OnErr result (self.new ≡ self.old) }
    {
        let len = self.len();
        let answer = self.cleared(a);
        self.settled(len, answer)
    }
}
