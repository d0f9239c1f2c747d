//! What is loaded by a term where the last stores there are kept.

ghost use Rattle.std.specs.Prelude.{◌≡◌, ◌==◌, ◌%◌, ◌^◌, ◌<◌, ℕ, List, [], ◌∷◌, All, IfOk, if◌then◌else◌};
ghost use Rattle.bv_dag.specs.Graphs.{number_of, width_of};
ghost use Rattle.term_simplify.specs.Operations as operations;
ghost use Rattle.term_trees.specs.Growth.{Continues};
ghost use Rattle.term_trees.specs.Trees.{tree_of};
ghost use Rattle.sym_state.specs.Expressions.{Unknown, bit_expression, register_byte, value_expression, widened_byte, widened_half};
ghost use Rattle.sym_state.specs.KeptUpdates.{IsUpdate};
ghost use Rattle.sym_state.specs.Recalling.{Recalls, number_loaded};
ghost use Rattle.sym_state.specs.Updates as spec;
ghost use Rattle.sym_state.specs.Values.{GivesValue, IsBit, IsWide, bit_worth, worth_of};

use crate::bytes::{byte_at, from_byte, from_half};
use crate::operations::{bit_of, term_of, value_of};
use crate::updates::{Update, UpdateList};
use crate::value::{Bit, Value};
use bv_dag::{Comparison, Node};
use rv_decode::LoadWidth;
use std::alloc::AllocError as NoMemory;
use term_simplify::Builder;

// The low byte of a value in 32 bits, with copies of its sign above it or zeros.
fn low_byte(terms: &mut Builder, signed: bool, value: Value) -> Result<Value, NoMemory>
    requires wide { IsWide terms.old value }
    ensures continues { Continues terms.old terms.new }
    ensures ok { IfOk result (λ low. GivesValue terms.old terms.new low
        (λ input. operations.widened signed 8 (worth_of terms.old input value % 2 ^ 8))) }
    ensures expression { IfOk result (λ low. value_expression terms.new low
        ≡ widened_byte signed (register_byte 0 (value_expression terms.old value))) }
{
    let low = byte_at(terms, value, 0)?;
    from_byte(terms, signed, low)
}

// The two low bytes of a value in 32 bits, with copies of their sign above them or zeros.
fn low_half(terms: &mut Builder, signed: bool, value: Value) -> Result<Value, NoMemory>
    requires wide { IsWide terms.old value }
    ensures continues { Continues terms.old terms.new }
    ensures ok { IfOk result (λ low. GivesValue terms.old terms.new low
        (λ input. operations.widened signed 16 (worth_of terms.old input value % 2 ^ 16))) }
    ensures expression { IfOk result (λ low. value_expression terms.new low
        ≡ widened_half signed (register_byte 0 (value_expression terms.old value))
        (register_byte 1 (value_expression terms.old value))) }
{
    let low = byte_at(terms, value, 0)?;
    let high = byte_at(terms, value, 1)?;
    from_half(terms, signed, low, high)
}

// A value has 32 bits.
fn fits(terms: &Builder, value: Value)
    requires wide { IsWide terms.now value }
    ensures { (input : List ℕ) → All (λ b. b < 256) input → worth_of terms.now input value < 2 ^ 32 }
{
    if let Value::Term(id) = value {
        terms.terms().node(id);
    }
}

// What is loaded where a value was stored by as many bytes.
fn as_loaded(terms: &mut Builder, width: LoadWidth, value: Value) -> Result<Value, NoMemory>
    requires wide { IsWide terms.old value }
    ensures continues { Continues terms.old terms.new }
    ensures ok { IfOk result (λ loaded. GivesValue terms.old terms.new loaded
        (λ input. number_loaded width (worth_of terms.old input value))) }
    ensures expression { IfOk result (λ loaded. value_expression terms.new loaded
        ≡ spec.as_loaded width (value_expression terms.old value)) }
{
    match width {
        LoadWidth::Lb => low_byte(terms, true, value),
        LoadWidth::Lh => low_half(terms, true, value),
        LoadWidth::Lw => {
            fits(terms, value);
            Ok(value)
        }
        LoadWidth::Lbu => low_byte(terms, false, value),
        LoadWidth::Lhu => low_half(terms, false, value),
    }
}

// The first of two values where a term of one bit is 1, and else the second.
fn value_choice(
    terms: &mut Builder,
    bit: usize,
    first: Value,
    second: Value,
) -> Result<Value, NoMemory>
    requires bit { width_of terms.old bit ≡ 1 }
    requires first { IsWide terms.old first }
    requires second { IsWide terms.old second }
    ensures continues { Continues terms.old terms.new }
    ensures ok { IfOk result (λ value. GivesValue terms.old terms.new value
        (λ input. if number_of terms.old bit input == 1
        then worth_of terms.old input first else worth_of terms.old input second)) }
    ensures expression { IfOk result (λ value. value_expression terms.new value
        ≡ spec.value_where (Unknown (tree_of terms.old bit)) (value_expression terms.old first)
        (value_expression terms.old second)) }
{
    let yes = term_of(terms, first)?;
    let no = term_of(terms, second)?;
    let id = terms.build(Node::Ite {
        condition: bit,
        yes,
        no,
    })?;
    Ok(value_of(terms, id))
}

// The first of two values where a bit is 1, and else the second.
fn value_where(
    terms: &mut Builder,
    bit: Bit,
    first: Value,
    second: Value,
) -> Result<Value, NoMemory>
    requires bit { IsBit terms.old bit }
    requires first { IsWide terms.old first }
    requires second { IsWide terms.old second }
    ensures continues { Continues terms.old terms.new }
    ensures ok { IfOk result (λ value. GivesValue terms.old terms.new value
        (λ input. if bit_worth terms.old input bit
        then worth_of terms.old input first else worth_of terms.old input second)) }
    ensures expression { IfOk result (λ value. value_expression terms.new value
        ≡ spec.value_where (bit_expression terms.old bit) (value_expression terms.old first)
        (value_expression terms.old second)) }
{
    match bit {
        Bit::Known(true) => Ok(first),
        Bit::Known(false) => Ok(second),
        Bit::Term(bit) => value_choice(terms, bit, first, second),
    }
}

// What is loaded by these bits after one more store.
fn after_one(
    terms: &mut Builder,
    width: LoadWidth,
    bits: usize,
    one: Update,
    before: Value,
) -> Result<Value, NoMemory>
    requires some { 0 < width_of terms.old bits }
    requires bits { width_of terms.old one.bits ≡ width_of terms.old bits }
    requires stored { IsWide terms.old one.value }
    requires before { IsWide terms.old before }
    ensures continues { Continues terms.old terms.new }
    ensures ok { IfOk result (Recalls terms.old terms.new width bits (one ∷ []) before) }
{
    let value = as_loaded(terms, width, one.value)?;
    let test = terms.build(Node::Compare(Comparison::Eq, one.bits, bits))?;
    let same = bit_of(terms, test);
    value_where(terms, same, value, before)
}

/// What is loaded by these bits after the stores of a list, where it was this before them.
pub(crate) fn recalled(
    terms: &mut Builder,
    width: LoadWidth,
    bits: usize,
    list: &UpdateList,
    before: Value,
) -> Result<Value, NoMemory>
    requires some { 0 < list.now.site.stride.count }
    requires bits { width_of terms.old bits ≡ list.now.site.stride.count }
    requires each { All (IsUpdate terms.old list.now.site) list.now.stored }
    requires before { IsWide terms.old before }
    ensures continues { Continues terms.old terms.new }
    ensures ok { IfOk result (Recalls terms.old terms.new width bits list.now.stored before) }
{
    let mut loaded = before;
    for at in 0..list.stored.len() {
        let Some(one) = list.stored.get(at) else {
            unreachable!();
        };
        loaded = after_one(terms, width, bits, one, loaded)?;
    }
    Ok(loaded)
}
