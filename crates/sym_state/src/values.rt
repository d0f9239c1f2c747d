//! Values that a symbolic run makes of values, with the terms for them.

ghost use Rattle.std.specs.Prelude.{◌≡◌, ◌==◌, ◌+◌, ◌*◌, ◌/◌, ◌%◌, ◌^◌, ◌<◌, IfOk, OnErr, not};
ghost use Rattle.rv_spec.specs.Arithmetic as machine;
ghost use Rattle.rv_spec.specs.Machine.{even};
ghost use Rattle.term_simplify.specs.Operations as operations;
ghost use Rattle.bv_dag.specs.Graphs.{number_of, width_of};
ghost use Rattle.sym_state.specs.Expressions.{byte_expression, register_byte, combined_of, even_of, value_expression, widened_byte, widened_half, word_of};
ghost use Rattle.sym_state.specs.Moves.{MakesBit, MakesByte, MakesTerm, MakesValue};
ghost use Rattle.sym_state.specs.Values.{IsByte, IsWide, byte_worth, worth_of};

use crate::state::State;
use crate::value::{Bit, Value};
use crate::{bytes, operations};
use cow_pages::Byte;
use rv_decode::{RegisterOp, Test};
use std::alloc::AllocError as NoMemory;

impl State {
    /// What an instruction computes of two registers.
    pub fn combined(&mut self, op: RegisterOp, a: Value, b: Value) -> Result<Value, NoMemory>
        requires first { IsWide self.old.terms a }
        requires second { IsWide self.old.terms b }
        ensures ok { IfOk result (λ value. MakesValue self.old self.new value
            (λ input. machine.combined op (worth_of self.old.terms input a)
            (worth_of self.old.terms input b))) }
        ensures expression { IfOk result (λ value. value_expression self.new.terms value
            ≡ combined_of op (value_expression self.old.terms a)
            (value_expression self.old.terms b)) }
        ensures err { OnErr result (self.new ≡ self.old) }
    {
        operations::combined(&mut self.terms, op, a, b)
    }

    /// Whether a conditional branch on two registers is taken.
    pub fn passes(&mut self, test: Test, a: Value, b: Value) -> Result<Bit, NoMemory>
        requires first { IsWide self.old.terms a }
        requires second { IsWide self.old.terms b }
        ensures ok { IfOk result (λ bit. MakesBit self.old self.new bit
            (λ input. machine.passes test (worth_of self.old.terms input a)
            (worth_of self.old.terms input b))) }
        ensures err { OnErr result (self.new ≡ self.old) }
    {
        operations::passes(&mut self.terms, test, a, b)
    }

    /// The term of one bit that is 1 where a conditional branch on two registers is taken.
    pub fn tested(&mut self, test: Test, a: Value, b: Value) -> Result<usize, NoMemory>
        requires first { IsWide self.old.terms a }
        requires second { IsWide self.old.terms b }
        ensures ok { IfOk result (λ id. MakesTerm self.old self.new 1 id
            (λ input. machine.one_where
            (machine.passes test (worth_of self.old.terms input a)
            (worth_of self.old.terms input b)))) }
        ensures err { OnErr result (self.new ≡ self.old) }
    {
        operations::tested(&mut self.terms, test, a, b)
    }

    /// The term of one bit that is 1 where this one isn't.
    pub fn negated(&mut self, term: usize) -> Result<usize, NoMemory>
        requires bit { width_of self.old.terms term ≡ 1 }
        ensures ok { IfOk result (λ id. MakesTerm self.old self.new 1 id
            (λ input. machine.one_where (not (number_of self.old.terms term input == 1)))) }
        ensures err { OnErr result (self.new ≡ self.old) }
    {
        operations::negated(&mut self.terms, term)
    }

    /// The term of a byte.
    pub fn byte_term(&mut self, byte: Byte) -> Result<usize, NoMemory>
        requires is_byte { IsByte self.old.terms byte }
        ensures ok { IfOk result (λ id. MakesTerm self.old self.new 8 id
            (λ input. byte_worth self.old.terms input byte)) }
        ensures err { OnErr result (self.new ≡ self.old) }
    {
        bytes::byte_term(&mut self.terms, byte)
    }

    /// A value with its lowest bit cleared.
    pub fn cleared(&mut self, a: Value) -> Result<Value, NoMemory>
        requires wide { IsWide self.old.terms a }
        ensures ok { IfOk result (λ value. MakesValue self.old self.new value
            (λ input. even (worth_of self.old.terms input a))) }
        ensures expression { IfOk result (λ value. value_expression self.new.terms value
            ≡ even_of (value_expression self.old.terms a)) }
        ensures err { OnErr result (self.new ≡ self.old) }
    {
        operations::cleared(&mut self.terms, a)
    }

    /// The byte of a value that is `at` bytes up, of 4.
    pub fn byte_at(&mut self, value: Value, at: u32) -> Result<Byte, NoMemory>
        requires wide { IsWide self.old.terms value }
        requires at { at < 4 }
        ensures ok { IfOk result (λ byte. MakesByte self.old self.new byte
            (λ input. worth_of self.old.terms input value / 2 ^ (8 * at) % 2 ^ 8)) }
        ensures expression { IfOk result (λ byte. byte_expression self.new.terms byte
            ≡ register_byte at (value_expression self.old.terms value)) }
        ensures err { OnErr result (self.new ≡ self.old) }
    {
        bytes::byte_at(&mut self.terms, value, at)
    }

    /// A byte in 32 bits, with copies of its sign above it or zeros.
    pub fn from_byte(&mut self, signed: bool, byte: Byte) -> Result<Value, NoMemory>
        requires is_byte { IsByte self.old.terms byte }
        ensures ok { IfOk result (λ value. MakesValue self.old self.new value
            (λ input. operations.widened signed 8 (byte_worth self.old.terms input byte))) }
        ensures expression { IfOk result (λ value. value_expression self.new.terms value
            ≡ widened_byte signed (byte_expression self.old.terms byte)) }
        ensures err { OnErr result (self.new ≡ self.old) }
    {
        bytes::from_byte(&mut self.terms, signed, byte)
    }

    /// Two bytes in 32 bits, the low one first, with copies of their sign above them or zeros.
    pub fn from_half(&mut self, signed: bool, low: Byte, high: Byte) -> Result<Value, NoMemory>
        requires low { IsByte self.old.terms low }
        requires high { IsByte self.old.terms high }
        ensures ok { IfOk result (λ value. MakesValue self.old self.new value
            (λ input. operations.widened signed 16
            (byte_worth self.old.terms input low + 2 ^ 8 * byte_worth self.old.terms input high))) }
        ensures expression { IfOk result (λ value. value_expression self.new.terms value
            ≡ widened_half signed (byte_expression self.old.terms low)
            (byte_expression self.old.terms high)) }
        ensures err { OnErr result (self.new ≡ self.old) }
    {
        bytes::from_half(&mut self.terms, signed, low, high)
    }

    /// Four bytes, the lowest first.
    pub fn from_word(&mut self, b0: Byte, b1: Byte, b2: Byte, b3: Byte) -> Result<Value, NoMemory>
        requires b0 { IsByte self.old.terms b0 }
        requires b1 { IsByte self.old.terms b1 }
        requires b2 { IsByte self.old.terms b2 }
        requires b3 { IsByte self.old.terms b3 }
        ensures ok { IfOk result (λ value. MakesValue self.old self.new value
            (λ input. byte_worth self.old.terms input b0
            + 2 ^ 8 * byte_worth self.old.terms input b1
            + 2 ^ 16 * byte_worth self.old.terms input b2
            + 2 ^ 24 * byte_worth self.old.terms input b3)) }
        ensures expression { IfOk result (λ value. value_expression self.new.terms value
            ≡ word_of (byte_expression self.old.terms b0) (byte_expression self.old.terms b1)
            (byte_expression self.old.terms b2) (byte_expression self.old.terms b3)) }
        ensures err { OnErr result (self.new ≡ self.old) }
    {
        bytes::from_word(&mut self.terms, b0, b1, b2, b3)
    }
}
