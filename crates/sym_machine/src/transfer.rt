//! What is loaded from an address that is known, and what is put to one.

ghost use Rattle.std.specs.Prelude.{◌≡◌, ◌+◌, ◌*◌, ◌/◌, ◌%◌, ◌^◌, ◌<◌, ◌∷◌, [], true, IfOk, OnOk, OnErr};
ghost use Rattle.cow_pages.specs.SymbolicMemory.{memory_flags};
ghost use Rattle.rv_decode.specs.declared.ops.StoreWidth.TheVariants.{Sh, Sw};
ghost use Rattle.rv_spec.specs.Machine as machine;
ghost use Rattle.rv_spec.specs.Memory.{half_at, has_w, is_mapped};
ghost use Rattle.term_simplify.specs.Operations.{widened};
ghost use Rattle.sym_state.specs.Expressions.{register_byte, value_expression, widened_half};
ghost use Rattle.sym_state.specs.Moves.{MakesValue};
ghost use Rattle.sym_state.specs.Symbolic.{concrete};
ghost use Rattle.sym_state.specs.Unfolded.{unfolded};
ghost use Rattle.sym_state.specs.Loading as loading;
ghost use Rattle.sym_state.specs.Storing as storing;
ghost use Rattle.sym_state.specs.Unfolding as symbolic;
ghost use Rattle.sym_state.specs.Values.{IsWide, worth_of};
ghost use Rattle.sym_machine.specs.Steps.{Puts};

use crate::fetch::word;
use rv_decode::{LoadWidth, StoreWidth};
use rv_machine::PAGE;
use std::alloc::AllocError as NoMemory;
use sym_state::{State, Value};

/// Whether a page is mapped at an address.
pub(crate) fn is_mapped(state: &State, address: u32) -> bool
    ensures { result ≡ is_mapped (memory_flags state.now.memory) address }
{
    state.flags(address / PAGE).is_some()
}

/// Whether bytes of a page can be written.
pub(crate) fn can_write(state: &State, page: u32) -> bool
    ensures { result ≡ has_w (memory_flags state.now.memory page) }
{
    match state.flags(page) {
        None => false,
        Some(flags) => flags / 2 % 2 == 1,
    }
}

/// The half word at an address in 32 bits, low byte first.
fn half(state: &mut State, signed: bool, address: u32) -> Result<Value, NoMemory>
    requires aligned { address % 2 ≡ 0 }
    ensures ok { IfOk result (λ value. MakesValue state.old state.new value
        (λ input. widened signed 16 (half_at (concrete state.old input).byte address))) }
    ensures expression { IfOk result (λ value. value_expression state.new.terms value
        ≡ widened_half signed ((unfolded state.old).byte address)
        ((unfolded state.old).byte (address + 1))) }
    ensures err { OnErr result (state.new ≡ state.old) }
{
    let low = state.byte(address);
    let high = state.byte(address + 1);
    state.from_half(signed, low, high)
}

/// What is loaded from an address that is known.
pub(crate) fn loaded(state: &mut State, width: LoadWidth, address: u32) -> Result<Value, NoMemory>
    requires aligned { machine.is_load_aligned width address ≡ true }
    ensures ok { IfOk result (λ value. MakesValue state.old state.new value
        (λ input. machine.loaded width (concrete state.old input).byte address)) }
    ensures expression { IfOk result (λ value. value_expression state.new.terms value
        ≡ loading.loaded width (unfolded state.old).byte address) }
    ensures err { OnErr result (state.new ≡ state.old) }
{
    match width {
        LoadWidth::Lb => state.from_byte(true, state.byte(address)),
        LoadWidth::Lh => half(state, true, address),
        LoadWidth::Lw => word(state, address),
        LoadWidth::Lbu => state.from_byte(false, state.byte(address)),
        LoadWidth::Lhu => half(state, false, address),
    }
}

/// Puts the byte of a value that is `at` bytes up, of 4, to an address of a mapped page.
fn put_byte(state: &mut State, address: u32, value: Value, at: u32) -> Result<(), NoMemory>
    requires mapped { is_mapped (memory_flags state.old.memory) address ≡ true }
    requires wide { IsWide state.old.terms value }
    requires at { at < 4 }
    ensures puts { OnOk result (Puts state.old state.new address
        (λ input. worth_of state.old.terms input value / 2 ^ (8 * at) % 2 ^ 8 ∷ [])) }
    ensures terms { OnOk result (unfolded state.new
        ≡ symbolic.with_put (unfolded state.old) address
        (register_byte at (value_expression state.old.terms value) ∷ [])) }
{
    let byte = state.byte_at(value, at)?;
    state.put(address, byte)
}

/// Puts the low two bytes of a value.
fn put_half(state: &mut State, address: u32, value: Value) -> Result<(), NoMemory>
    requires aligned { address % 2 ≡ 0 }
    requires mapped { is_mapped (memory_flags state.old.memory) address ≡ true }
    requires wide { IsWide state.old.terms value }
    ensures puts { OnOk result (Puts state.old state.new address
        (λ input. machine.stored Sh (worth_of state.old.terms input value))) }
    ensures terms { OnOk result (unfolded state.new
        ≡ symbolic.with_put (unfolded state.old) address
        (storing.stored Sh (value_expression state.old.terms value))) }
{
    put_byte(state, address, value, 0)?;
    put_byte(state, address + 1, value, 1)
}

/// Puts the bytes of a value.
fn put_word(state: &mut State, address: u32, value: Value) -> Result<(), NoMemory>
    requires aligned { address % 4 ≡ 0 }
    requires mapped { is_mapped (memory_flags state.old.memory) address ≡ true }
    requires wide { IsWide state.old.terms value }
    ensures puts { OnOk result (Puts state.old state.new address
        (λ input. machine.stored Sw (worth_of state.old.terms input value))) }
    ensures terms { OnOk result (unfolded state.new
        ≡ symbolic.with_put (unfolded state.old) address
        (storing.stored Sw (value_expression state.old.terms value))) }
{
    put_byte(state, address, value, 0)?;
    put_byte(state, address + 1, value, 1)?;
    put_byte(state, address + 2, value, 2)?;
    put_byte(state, address + 3, value, 3)
}

/// Puts what is stored.
pub(crate) fn put(
    state: &mut State,
    width: StoreWidth,
    address: u32,
    value: Value,
) -> Result<(), NoMemory>
    requires aligned { machine.is_store_aligned width address ≡ true }
    requires mapped { is_mapped (memory_flags state.old.memory) address ≡ true }
    requires wide { IsWide state.old.terms value }
    ensures puts { OnOk result (Puts state.old state.new address
        (λ input. machine.stored width (worth_of state.old.terms input value))) }
    ensures terms { OnOk result (unfolded state.new
        ≡ symbolic.with_put (unfolded state.old) address
        (storing.stored width (value_expression state.old.terms value))) }
{
    match width {
        StoreWidth::Sb => put_byte(state, address, value, 0),
        StoreWidth::Sh => put_half(state, address, value),
        StoreWidth::Sw => put_word(state, address, value),
    }
}
