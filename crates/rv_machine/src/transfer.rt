//! Loads and stores. Alignment is tested before the page.

ghost use Rattle.std.specs.Prelude.{◌≡◌, ◌%◌, ◌<◌, ◌^◌, true};
ghost use Rattle.rv_decode.specs.declared.ops.StoreWidth.TheVariants.{Sb, Sh, Sw};
ghost use Rattle.rv_spec.specs.Machine as machine;
ghost use Rattle.rv_spec.specs.Memory.{can_write, half_at, with_bytes, word_at};
ghost use Rattle.rv_machine.specs.Pages.{byte_on, flags_on};
ghost use Rattle.rv_machine.specs.HartStates.{state_of};
ghost use Rattle.rv_machine.specs.Steps.{outcome_of};

use crate::arithmetic::{extended_byte, extended_half};
use crate::hart::Hart;
use crate::step::{Step, trapped};
use rv_decode::{LoadWidth, Register, StoreWidth, Trap};

/// Whether such a load may be from the address.
pub fn is_load_aligned(width: LoadWidth, address: u32) -> bool
    ensures { result ≡ machine.is_load_aligned width address }
{
    match width {
        LoadWidth::Lb | LoadWidth::Lbu => true,
        LoadWidth::Lh | LoadWidth::Lhu => address % 2 == 0,
        LoadWidth::Lw => address % 4 == 0,
    }
}

/// Whether such a store may be to the address.
pub fn is_store_aligned(width: StoreWidth, address: u32) -> bool
    ensures { result ≡ machine.is_store_aligned width address }
{
    match width {
        StoreWidth::Sb => true,
        StoreWidth::Sh => address % 2 == 0,
        StoreWidth::Sw => address % 4 == 0,
    }
}

/// The half word at an address, low byte first.
fn half(hart: &mut Hart, address: u32) -> u32
    requires { address % 2 ≡ 0 }
    ensures same { hart.new ≡ hart.old }
    ensures value { result ≡ half_at (byte_on hart.old.pages) address }
    ensures small { result < 2 ^ 16 }
{
    let low = u32::from(hart.read(address));
    let high = u32::from(hart.read(address + 1));
    low + 0x100 * high
}

/// The word at an address, low byte first.
fn word(hart: &mut Hart, address: u32) -> u32
    requires { address % 4 ≡ 0 }
    ensures same { hart.new ≡ hart.old }
    ensures value { result ≡ word_at (byte_on hart.old.pages) address }
{
    let first = u32::from(hart.read(address));
    let second = u32::from(hart.read(address + 1));
    let third = u32::from(hart.read(address + 2));
    let fourth = u32::from(hart.read(address + 3));
    first + 0x100 * second + 0x1_0000 * third + 0x100_0000 * fourth
}

/// What is loaded from an address.
fn loaded(hart: &mut Hart, width: LoadWidth, address: u32) -> u32
    requires { machine.is_load_aligned width address ≡ true }
    ensures same { hart.new ≡ hart.old }
    ensures value { result ≡ machine.loaded width (byte_on hart.old.pages) address }
{
    match width {
        LoadWidth::Lb => extended_byte(hart.read(address)),
        LoadWidth::Lh => extended_half(half(hart, address)),
        LoadWidth::Lw => word(hart, address),
        LoadWidth::Lbu => u32::from(hart.read(address)),
        LoadWidth::Lhu => half(hart, address),
    }
}

/// Loads into a register.
pub fn load(hart: &mut Hart, width: LoadWidth, rd: Register, address: u32) -> Step
    ensures { outcome_of hart.new result ≡ machine.load (state_of hart.old) width rd address }
{
    if !is_load_aligned(width, address) {
        return trapped(Trap::LoadMisaligned);
    }
    if !hart.is_mapped(address) {
        return trapped(Trap::LoadAccess);
    }
    let value = loaded(hart, width, address);
    hart.go_on_with(rd, value)
}

/// Puts the low byte of a number.
fn put_byte(hart: &mut Hart, address: u32, value: u32)
    requires { can_write (flags_on hart.old.pages) address ≡ true }
    ensures rest { hart.new ≡ record hart.old { pages = hart.new.pages } }
    ensures flags { flags_on hart.new.pages ≡ flags_on hart.old.pages }
    ensures bytes { byte_on hart.new.pages
        ≡ with_bytes (byte_on hart.old.pages) address (machine.stored Sb value) }
{
    hart.put(address, (value % 0x100) as u8);
}

/// Puts the low two bytes of a number.
fn put_half(hart: &mut Hart, address: u32, value: u32)
    requires aligned { address % 2 ≡ 0 }
    requires access { can_write (flags_on hart.old.pages) address ≡ true }
    ensures rest { hart.new ≡ record hart.old { pages = hart.new.pages } }
    ensures flags { flags_on hart.new.pages ≡ flags_on hart.old.pages }
    ensures bytes { byte_on hart.new.pages
        ≡ with_bytes (byte_on hart.old.pages) address (machine.stored Sh value) }
{
    hart.put(address, (value % 0x100) as u8);
    hart.put(address + 1, (value / 0x100 % 0x100) as u8);
}

/// Puts the bytes of a number.
fn put_word(hart: &mut Hart, address: u32, value: u32)
    requires aligned { address % 4 ≡ 0 }
    requires access { can_write (flags_on hart.old.pages) address ≡ true }
    ensures rest { hart.new ≡ record hart.old { pages = hart.new.pages } }
    ensures flags { flags_on hart.new.pages ≡ flags_on hart.old.pages }
    ensures bytes { byte_on hart.new.pages
        ≡ with_bytes (byte_on hart.old.pages) address (machine.stored Sw value) }
{
    hart.put(address, (value % 0x100) as u8);
    hart.put(address + 1, (value / 0x100 % 0x100) as u8);
    hart.put(address + 2, (value / 0x1_0000 % 0x100) as u8);
    hart.put(address + 3, (value / 0x100_0000 % 0x100) as u8);
}

/// Puts what is stored.
fn put(hart: &mut Hart, width: StoreWidth, address: u32, value: u32)
    requires aligned { machine.is_store_aligned width address ≡ true }
    requires access { can_write (flags_on hart.old.pages) address ≡ true }
    ensures rest { hart.new ≡ record hart.old { pages = hart.new.pages } }
    ensures flags { flags_on hart.new.pages ≡ flags_on hart.old.pages }
    ensures bytes { byte_on hart.new.pages
        ≡ with_bytes (byte_on hart.old.pages) address (machine.stored width value) }
{
    match width {
        StoreWidth::Sb => put_byte(hart, address, value),
        StoreWidth::Sh => put_half(hart, address, value),
        StoreWidth::Sw => put_word(hart, address, value),
    }
}

/// Stores a number.
pub fn store(hart: &mut Hart, width: StoreWidth, address: u32, value: u32) -> Step
    ensures { outcome_of hart.new result ≡ machine.store (state_of hart.old) width address value }
{
    if !is_store_aligned(width, address) {
        return trapped(Trap::StoreMisaligned);
    }
    if !hart.can_write(address) {
        return trapped(Trap::StoreAccess);
    }
    put(hart, width, address, value);
    hart.go_on()
}
