//! Values of bytes, and bytes of values, over a table of terms. After want of memory the table is as it was.

ghost use Rattle.std.specs.Prelude.{◌≡◌, ◌==◌, ◌+◌, ◌*◌, ◌/◌, ◌%◌, ◌^◌, ◌<◌, ℕ, List, IfOk, OnErr, if◌then◌else◌};
ghost use Rattle.bv_dag.specs.Graphs.{Graph, number_of, width_of};
ghost use Rattle.term_simplify.specs.Operations as operations;
ghost use Rattle.term_simplify.specs.Plain.{extension_by};
ghost use Rattle.term_simplify.specs.Simplified.{choice_of};
ghost use Rattle.term_trees.specs.Growth.{Continues};
ghost use Rattle.term_trees.specs.Trees.{tree_of};
ghost use Rattle.sym_state.specs.Expressions.{are_equal, byte_choice, byte_expression, register_byte, settled, tree_in, value_expression, widened_byte, widened_half, word_of};
ghost use Rattle.sym_state.specs.Values.{GivesByte, GivesTerm, GivesValue, IsByte, IsWide, byte_worth, worth_of};

use crate::operations::value_of;
use crate::value::Value;
use bv_dag::Node;
use cow_pages::Byte;
use rv_machine::arithmetic::{extended_byte, extended_half};
use std::alloc::AllocError as NoMemory;
use term_simplify::Builder;

/// The term of a byte.
pub(crate) fn byte_term(terms: &mut Builder, byte: Byte) -> Result<usize, NoMemory>
    requires is_byte { IsByte terms.old byte }
    ensures ok { IfOk result (λ id. GivesTerm terms.old terms.new 8 id
        (λ input. byte_worth terms.old input byte)) }
    ensures tree { IfOk result (λ id. tree_of terms.new id
        ≡ tree_in 8 (byte_expression terms.old byte)) }
    ensures err { OnErr result (terms.new ≡ terms.old) }
{
    match byte {
        Byte::Number(byte) => terms.num(8, u64::from(byte)),
        Byte::Term(id) => Ok(id),
    }
}

/// The byte that a term of 8 bits is.
fn known_byte(terms: &Builder, id: usize) -> Byte
    requires width { width_of terms.now id ≡ 8 }
    ensures is_byte { IsByte terms.now result }
    ensures worth { (input : List ℕ)
        → byte_worth terms.now input result ≡ number_of terms.now id input }
    ensures expression { byte_expression terms.now result ≡ settled (tree_of terms.now id) }
{
    match terms.terms().node(id) {
        Node::Num { value, .. } => Byte::Number(value as u8),
        _ => Byte::Term(id),
    }
}

/// The byte of a value that is `at` bytes up, of 4.
pub(crate) fn byte_at(terms: &mut Builder, value: Value, at: u32) -> Result<Byte, NoMemory>
    requires wide { IsWide terms.old value }
    requires at { at < 4 }
    ensures ok { IfOk result (λ byte. GivesByte terms.old terms.new byte
        (λ input. worth_of terms.old input value / 2 ^ (8 * at) % 2 ^ 8)) }
    ensures expression { IfOk result (λ byte. byte_expression terms.new byte
        ≡ register_byte at (value_expression terms.old value)) }
    ensures err { OnErr result (terms.new ≡ terms.old) }
{
    match value {
        Value::Number(number) => Ok(Byte::Number(((number >> (8 * at)) % 0x100) as u8)),
        Value::Term(id) => {
            let id = terms.byte(id, at)?;
            Ok(known_byte(terms, id))
        }
    }
}

/// Makes the term of a choice between two bytes, or only some of those that it stands on.
fn choice_term(
    terms: &mut Builder,
    bit: usize,
    first: Byte,
    second: Byte,
) -> Result<usize, NoMemory>
    requires bit { width_of terms.old bit ≡ 1 }
    requires first { IsByte terms.old first }
    requires second { IsByte terms.old second }
    ensures continues { Continues terms.old terms.new }
    ensures ok { IfOk result (λ id. GivesTerm terms.old terms.new 8 id
        (λ input. if number_of terms.old bit input == 1
        then byte_worth terms.old input first else byte_worth terms.old input second)) }
    ensures tree { IfOk result (λ id. tree_of terms.new id
        ≡ choice_of (tree_of terms.old bit) (tree_in 8 (byte_expression terms.old first))
        (tree_in 8 (byte_expression terms.old second))) }
{
    let first = byte_term(terms, first)?;
    let second = byte_term(terms, second)?;
    terms.build(Node::Ite {
        condition: bit,
        yes: first,
        no: second,
    })
}

/// Whether two bytes are the same number.
fn are_equal(a: Byte, b: Byte) -> bool
    ensures { (terms : Graph)
        → result ≡ are_equal (byte_expression terms a) (byte_expression terms b) }
{
    match (a, b) {
        (Byte::Number(a), Byte::Number(b)) => a == b,
        _ => false,
    }
}

/// The first of two bytes where a term of one bit is 1, and else the second.
pub(crate) fn choice(
    terms: &mut Builder,
    bit: usize,
    first: Byte,
    second: Byte,
) -> Result<Byte, NoMemory>
    requires bit { width_of terms.old bit ≡ 1 }
    requires first { IsByte terms.old first }
    requires second { IsByte terms.old second }
    ensures ok { IfOk result (λ byte. GivesByte terms.old terms.new byte
        (λ input. if number_of terms.old bit input == 1
        then byte_worth terms.old input first else byte_worth terms.old input second)) }
    ensures expression { IfOk result (λ byte. byte_expression terms.new byte
        ≡ byte_choice (tree_of terms.old bit) (byte_expression terms.old first)
        (byte_expression terms.old second)) }
    ensures err { OnErr result (terms.new ≡ terms.old) }
{
    if are_equal(first, second) {
        return Ok(first);
    }
    let before = terms.len();
    let made = choice_term(terms, bit, first, second);
    let id = terms.settled(before, made)?;
    Ok(known_byte(terms, id))
}

/// A byte in 32 bits, with copies of its sign above it or zeros.
pub(crate) fn from_byte(terms: &mut Builder, signed: bool, byte: Byte) -> Result<Value, NoMemory>
    requires is_byte { IsByte terms.old byte }
    ensures ok { IfOk result (λ value. GivesValue terms.old terms.new value
        (λ input. operations.widened signed 8 (byte_worth terms.old input byte))) }
    ensures expression { IfOk result (λ value. value_expression terms.new value
        ≡ widened_byte signed (byte_expression terms.old byte)) }
    ensures err { OnErr result (terms.new ≡ terms.old) }
{
    match byte {
        Byte::Number(byte) if signed => Ok(Value::Number(extended_byte(byte))),
        Byte::Number(byte) => Ok(Value::Number(u32::from(byte))),
        Byte::Term(id) => {
            let id = terms.widened(8, signed, id)?;
            Ok(value_of(terms, id))
        }
    }
}

/// Makes the term of two bytes in 32 bits, or only some of those that it stands on.
fn half_term(terms: &mut Builder, signed: bool, low: Byte, high: Byte) -> Result<usize, NoMemory>
    requires low { IsByte terms.old low }
    requires high { IsByte terms.old high }
    ensures continues { Continues terms.old terms.new }
    ensures ok { IfOk result (λ id. GivesTerm terms.old terms.new 32 id
        (λ input. operations.widened signed 16
        (byte_worth terms.old input low + 2 ^ 8 * byte_worth terms.old input high))) }
    ensures tree { IfOk result (λ id. tree_of terms.new id
        ≡ extension_by 16 signed
        (operations.half_tree (tree_in 8 (byte_expression terms.old low))
        (tree_in 8 (byte_expression terms.old high)))) }
{
    let low = byte_term(terms, low)?;
    let high = byte_term(terms, high)?;
    let half = terms.half(low, high)?;
    terms.widened(16, signed, half)
}

/// Two bytes as a number of 16 bits, the low one first.
fn half_number(low: u8, high: u8) -> u32
    ensures value { result ≡ low + 2 ^ 8 * high }
    ensures small { result < 2 ^ 16 }
{
    u32::from(low) + 0x100 * u32::from(high)
}

/// Two bytes in 32 bits, the low one first, with copies of their sign above them or zeros.
pub(crate) fn from_half(
    terms: &mut Builder,
    signed: bool,
    low: Byte,
    high: Byte,
) -> Result<Value, NoMemory>
    requires low { IsByte terms.old low }
    requires high { IsByte terms.old high }
    ensures ok { IfOk result (λ value. GivesValue terms.old terms.new value
        (λ input. operations.widened signed 16
        (byte_worth terms.old input low + 2 ^ 8 * byte_worth terms.old input high))) }
    ensures expression { IfOk result (λ value. value_expression terms.new value
        ≡ widened_half signed (byte_expression terms.old low) (byte_expression terms.old high)) }
    ensures err { OnErr result (terms.new ≡ terms.old) }
{
    if let (Byte::Number(low), Byte::Number(high)) = (low, high) {
        let half = half_number(low, high);
        let number = if signed { extended_half(half) } else { half };
        return Ok(Value::Number(number));
    }
    let before = terms.len();
    let made = half_term(terms, signed, low, high);
    let id = terms.settled(before, made)?;
    Ok(value_of(terms, id))
}

/// Makes the term of four bytes, or only some of those that it stands on.
fn word_term(terms: &mut Builder, b0: Byte, b1: Byte, b2: Byte, b3: Byte) -> Result<usize, NoMemory>
    requires b0 { IsByte terms.old b0 }
    requires b1 { IsByte terms.old b1 }
    requires b2 { IsByte terms.old b2 }
    requires b3 { IsByte terms.old b3 }
    ensures continues { Continues terms.old terms.new }
    ensures ok { IfOk result (λ id. GivesTerm terms.old terms.new 32 id
        (λ input. byte_worth terms.old input b0 + 2 ^ 8 * byte_worth terms.old input b1
        + 2 ^ 16 * byte_worth terms.old input b2 + 2 ^ 24 * byte_worth terms.old input b3)) }
    ensures tree { IfOk result (λ id. tree_of terms.new id
        ≡ operations.word_tree (tree_in 8 (byte_expression terms.old b0))
        (tree_in 8 (byte_expression terms.old b1))
        (tree_in 8 (byte_expression terms.old b2)) (tree_in 8 (byte_expression terms.old b3))) }
{
    let b0 = byte_term(terms, b0)?;
    let b1 = byte_term(terms, b1)?;
    let b2 = byte_term(terms, b2)?;
    let b3 = byte_term(terms, b3)?;
    terms.word(b0, b1, b2, b3)
}

/// Four bytes as a number, the lowest first.
fn word_number(b0: u8, b1: u8, b2: u8, b3: u8) -> u32
    ensures { result ≡ b0 + 2 ^ 8 * b1 + 2 ^ 16 * b2 + 2 ^ 24 * b3 }
{
    u32::from(b0) + 0x100 * u32::from(b1) + 0x1_0000 * u32::from(b2) + 0x100_0000 * u32::from(b3)
}

/// Four bytes, the lowest first.
pub(crate) fn from_word(
    terms: &mut Builder,
    b0: Byte,
    b1: Byte,
    b2: Byte,
    b3: Byte,
) -> Result<Value, NoMemory>
    requires b0 { IsByte terms.old b0 }
    requires b1 { IsByte terms.old b1 }
    requires b2 { IsByte terms.old b2 }
    requires b3 { IsByte terms.old b3 }
    ensures ok { IfOk result (λ value. GivesValue terms.old terms.new value
        (λ input. byte_worth terms.old input b0 + 2 ^ 8 * byte_worth terms.old input b1
        + 2 ^ 16 * byte_worth terms.old input b2 + 2 ^ 24 * byte_worth terms.old input b3)) }
    ensures expression { IfOk result (λ value. value_expression terms.new value
        ≡ word_of (byte_expression terms.old b0) (byte_expression terms.old b1)
        (byte_expression terms.old b2) (byte_expression terms.old b3)) }
    ensures err { OnErr result (terms.new ≡ terms.old) }
{
    if let (Byte::Number(b0), Byte::Number(b1), Byte::Number(b2), Byte::Number(b3)) = (
        b0, b1, b2, b3,
    ) {
        return Ok(Value::Number(word_number(b0, b1, b2, b3)));
    }
    let before = terms.len();
    let made = word_term(terms, b0, b1, b2, b3);
    let id = terms.settled(before, made)?;
    Ok(value_of(terms, id))
}
