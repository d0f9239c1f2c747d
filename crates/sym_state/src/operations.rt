//! What instructions compute of values, over a table of terms. Numbers give a number and make no term; and a term that is a
//! number is never a value. After want of memory the table is as it was.

ghost use Rattle.std.specs.Prelude.{◌≡◌, ◌==◌, ◌*◌, ◌/◌, ◌%◌, ◌^◌, ◌<◌, ℕ, List, IfOk, OnErr, not};
ghost use Rattle.bv_dag.specs.Graphs.{number_of, width_of};
ghost use Rattle.rv_spec.specs.Arithmetic as machine;
ghost use Rattle.rv_spec.specs.Machine.{even};
ghost use Rattle.term_simplify.specs.Operations.{combined_tree};
ghost use Rattle.term_trees.specs.Growth.{Continues};
ghost use Rattle.term_trees.specs.Trees.{tree_of};
ghost use Rattle.sym_state.specs.Expressions.{bit_expression, bit_in, combined_of, even_of, settled, tree_in, value_expression};
ghost use Rattle.sym_state.specs.Values.{GivesBit, GivesTerm, GivesValue, IsWide, bit_worth, worth_of, IsBit};

use crate::value::{Bit, Value};
use bv_dag::Node;
use rv_decode::{RegisterOp, Test};
use rv_machine::arithmetic;
use std::alloc::AllocError as NoMemory;
use term_simplify::Builder;

/// The term of a value.
pub(crate) fn term_of(terms: &mut Builder, value: Value) -> Result<usize, NoMemory>
    requires wide { IsWide terms.old value }
    ensures ok { IfOk result (λ id. GivesTerm terms.old terms.new 32 id
        (λ input. worth_of terms.old input value)) }
    ensures tree { IfOk result (λ id. tree_of terms.new id
        ≡ tree_in 32 (value_expression terms.old value)) }
    ensures err { OnErr result (terms.new ≡ terms.old) }
{
    match value {
        Value::Number(value) => terms.num(32, u64::from(value)),
        Value::Term(id) => Ok(id),
    }
}

/// The value that a term of 32 bits is.
pub(crate) fn value_of(terms: &Builder, id: usize) -> Value
    requires wide { width_of terms.now id ≡ 32 }
    ensures wide { IsWide terms.now result }
    ensures worth { (input : List ℕ)
        → worth_of terms.now input result ≡ number_of terms.now id input }
    ensures expression { value_expression terms.now result ≡ settled (tree_of terms.now id) }
{
    match terms.terms().node(id) {
        Node::Num { value, .. } => Value::Number(value as u32),
        _ => Value::Term(id),
    }
}

/// The bit that a term of one is.
pub(crate) fn bit_of(terms: &Builder, id: usize) -> Bit
    requires bit { width_of terms.now id ≡ 1 }
    ensures is_bit { IsBit terms.now result }
    ensures worth { (input : List ℕ)
        → bit_worth terms.now input result ≡ bit_worth terms.now input (Bit.Term id) }
    ensures expression { bit_expression terms.now result ≡ settled (tree_of terms.now id) }
{
    match terms.terms().node(id) {
        Node::Num { value, .. } => Bit::Known(value == 1),
        _ => Bit::Term(id),
    }
}

/// Makes the term of `combined`, or only some of those that it stands on.
fn combined_term(terms: &mut Builder, op: RegisterOp, a: Value, b: Value) -> Result<usize, NoMemory>
    requires first { IsWide terms.old a }
    requires second { IsWide terms.old b }
    ensures continues { Continues terms.old terms.new }
    ensures ok { IfOk result (λ id. GivesTerm terms.old terms.new 32 id
        (λ input. machine.combined op (worth_of terms.old input a) (worth_of terms.old input b))) }
    ensures tree { IfOk result (λ id. tree_of terms.new id
        ≡ combined_tree op (tree_in 32 (value_expression terms.old a))
        (tree_in 32 (value_expression terms.old b))) }
{
    let a = term_of(terms, a)?;
    let b = term_of(terms, b)?;
    terms.combined(op, a, b)
}

/// What an instruction computes of two registers.
pub(crate) fn combined(
    terms: &mut Builder,
    op: RegisterOp,
    a: Value,
    b: Value,
) -> Result<Value, NoMemory>
    requires first { IsWide terms.old a }
    requires second { IsWide terms.old b }
    ensures ok { IfOk result (λ value. GivesValue terms.old terms.new value
        (λ input. machine.combined op (worth_of terms.old input a) (worth_of terms.old input b))) }
    ensures expression { IfOk result (λ value. value_expression terms.new value
        ≡ combined_of op (value_expression terms.old a) (value_expression terms.old b)) }
    ensures err { OnErr result (terms.new ≡ terms.old) }
{
    if let (Value::Number(a), Value::Number(b)) = (a, b) {
        return Ok(Value::Number(arithmetic::combined(op, a, b)));
    }
    let before = terms.len();
    let made = combined_term(terms, op, a, b);
    let id = terms.settled(before, made)?;
    Ok(value_of(terms, id))
}

/// Makes the term of `passes`, or only some of those that it stands on.
fn test_term(terms: &mut Builder, test: Test, a: Value, b: Value) -> Result<usize, NoMemory>
    requires first { IsWide terms.old a }
    requires second { IsWide terms.old b }
    ensures continues { Continues terms.old terms.new }
    ensures ok { IfOk result (λ id. GivesTerm terms.old terms.new 1 id
        (λ input. machine.one_where
        (machine.passes test (worth_of terms.old input a) (worth_of terms.old input b)))) }
{
    let a = term_of(terms, a)?;
    let b = term_of(terms, b)?;
    terms.passes(test, a, b)
}

/// The term of one bit that is 1 where a conditional branch on two registers is taken.
pub(crate) fn tested(terms: &mut Builder, test: Test, a: Value, b: Value) -> Result<usize, NoMemory>
    requires first { IsWide terms.old a }
    requires second { IsWide terms.old b }
    ensures ok { IfOk result (λ id. GivesTerm terms.old terms.new 1 id
        (λ input. machine.one_where
        (machine.passes test (worth_of terms.old input a) (worth_of terms.old input b)))) }
    ensures err { OnErr result (terms.new ≡ terms.old) }
{
    let before = terms.len();
    let made = test_term(terms, test, a, b);
    terms.settled(before, made)
}

/// The term of one bit that is 1 where this one isn't.
pub(crate) fn negated(terms: &mut Builder, id: usize) -> Result<usize, NoMemory>
    requires bit { width_of terms.old id ≡ 1 }
    ensures ok { IfOk result (λ other. GivesTerm terms.old terms.new 1 other
        (λ input. machine.one_where (not (number_of terms.old id input == 1)))) }
    ensures err { OnErr result (terms.new ≡ terms.old) }
{
    terms.build(Node::Not(id))
}

/// Whether a conditional branch on two registers is taken.
pub(crate) fn passes(terms: &mut Builder, test: Test, a: Value, b: Value) -> Result<Bit, NoMemory>
    requires first { IsWide terms.old a }
    requires second { IsWide terms.old b }
    ensures ok { IfOk result (λ bit. GivesBit terms.old terms.new bit
        (λ input. machine.passes test (worth_of terms.old input a) (worth_of terms.old input b))) }
    ensures err { OnErr result (terms.new ≡ terms.old) }
{
    if let (Value::Number(a), Value::Number(b)) = (a, b) {
        return Ok(Bit::Known(arithmetic::passes(test, a, b)));
    }
    let before = terms.len();
    let made = test_term(terms, test, a, b);
    let id = terms.settled(before, made)?;
    Ok(bit_of(terms, id))
}

/// A value with its lowest bit cleared.
pub(crate) fn cleared(terms: &mut Builder, a: Value) -> Result<Value, NoMemory>
    requires wide { IsWide terms.old a }
    ensures ok { IfOk result (λ value. GivesValue terms.old terms.new value
        (λ input. even (worth_of terms.old input a))) }
    ensures expression { IfOk result (λ value. value_expression terms.new value
        ≡ even_of (value_expression terms.old a)) }
    ensures err { OnErr result (terms.new ≡ terms.old) }
{
    match a {
        Value::Number(number) => Ok(Value::Number(number / 2 * 2)),
        Value::Term(id) => {
            let id = terms.even(id)?;
            Ok(value_of(terms, id))
        }
    }
}

/// One bit of a term.
pub(crate) fn bit_at(terms: &mut Builder, id: usize, at: u32) -> Result<Bit, NoMemory>
    requires within { at < width_of terms.old id }
    ensures ok { IfOk result (λ bit. GivesBit terms.old terms.new bit
        (λ input. number_of terms.old id input / 2 ^ at % 2 == 1)) }
    ensures expression { IfOk result (λ bit. bit_expression terms.new bit
        ≡ bit_in at (tree_of terms.old id)) }
    ensures err { OnErr result (terms.new ≡ terms.old) }
{
    let bit = terms.build(Node::Extract {
        high: at,
        low: at,
        operand: id,
    })?;
    Ok(bit_of(terms, bit))
}
