//! Bytes of memory behind an address that is a term. Its page is known; in it a byte is chosen by the bits of the address, from the
//! highest on, among those that a load may take: places on the page that aren't misaligned.

ghost use Rattle.std.specs.Prelude.{◌≡◌, ◌≤◌, ◌<◌, ◌+◌, ◌^◌, ℕ, IfOk, IfSome, OnErr, OnOk, length};
ghost use Rattle.bv_dag.specs.Graphs.{width_of};
ghost use Rattle.cow_pages.specs.SymbolicMemory.{memory_byte};
ghost use Rattle.term_trees.specs.Growth.{Continues};
ghost use Rattle.rv_spec.specs.Arithmetic.{sum32};
ghost use Rattle.sym_state.specs.Expressions.{byte_expression};
ghost use Rattle.sym_state.specs.Loading as loading;
ghost use Rattle.sym_state.specs.Placing.{HasBytes};
ghost use Rattle.sym_state.specs.Selecting.{AreBitsOf, IsEither, PushesBits, Selects, TakesByte, byte_at};
ghost use Rattle.sym_state.specs.Values.{IsByte};

use crate::bytes::choice;
use crate::operations::bit_at;
use crate::value::Bit;
use cow_pages::{Byte, Pages};
use rv_decode::LoadWidth;
use rv_machine::{PAGE, is_load_aligned};
use std::alloc::AllocError as NoMemory;
use term_simplify::Builder;

/// Where a load takes what it loads from.
#[derive(Clone, Copy, Debug, PartialEq, Eq)]
pub(crate) struct Place {
    pub(crate) width: LoadWidth,
    pub(crate) page: u32,
    /// Bits lead on from here, the lowest by 2^scale.
    pub(crate) start: u32,
    pub(crate) scale: u32,
}

/// How many low bits of an aligned address are 0.
pub(crate) fn zero_bits(width: LoadWidth) -> u32
    ensures value { result ≡ loading.zero_bits width }
    ensures few { result ≤ 2 }
{
    match width {
        LoadWidth::Lb | LoadWidth::Lbu => 0,
        LoadWidth::Lh | LoadWidth::Lhu => 1,
        LoadWidth::Lw => 2,
    }
}

/// How many bytes are loaded.
pub fn bytes_of(width: LoadWidth) -> u32
    ensures value { result ≡ loading.bytes width }
    ensures some { 0 < result }
    ensures few { result ≤ 4 }
{
    match width {
        LoadWidth::Lb | LoadWidth::Lbu => 1,
        LoadWidth::Lh | LoadWidth::Lhu => 2,
        LoadWidth::Lw => 4,
    }
}

/// The byte at an address, 0 where no page is mapped.
pub(crate) fn byte_in(memory: &Pages, address: u32) -> Byte
    ensures { result ≡ memory_byte memory.now address }
{
    match memory.page(address / PAGE) {
        Some(page) => page.byte((address % PAGE) as u8),
        None => Byte::Number(0),
    }
}

/// Puts so many bits of a term behind others, from `first` on, the highest first.
pub(crate) fn push_bits(
    terms: &mut Builder,
    bits: &mut Vec<Bit>,
    term: usize,
    first: u32,
    count: u32,
) -> Result<(), NoMemory>
    requires within { first + count ≤ width_of terms.old term }
    requires few { first + count ≤ 32 }
    requires bits { AreBitsOf terms.old bits.old.items }
    ensures continues { Continues terms.old terms.new }
    ensures ok { OnOk result (PushesBits terms.old terms.new bits.old.items bits.new.items term first count) }
{
    if count == 0 {
        return Ok(());
    }
    let bit = bit_at(terms, term, first + (count - 1))?;
    bits.push(bit)?;
    push_bits(terms, bits, term, first, count - 1)
}

/// The byte that is so far behind an address, where a load may take it from there.
fn byte_at(memory: &Pages, place: Place, by: u32, address: u32) -> Option<Byte>
    requires within { by < loading.bytes place.width }
    ensures { result ≡ byte_at memory.now place by address }
{
    if address / PAGE != place.page || !is_load_aligned(place.width, address) {
        return None;
    }
    Some(byte_in(memory, address + by))
}

/// The first of two bytes where a term of one bit is 1, and else the second; where there is but one, that.
fn either(
    terms: &mut Builder,
    bit: usize,
    further: Option<Byte>,
    nearer: Option<Byte>,
) -> Result<Option<Byte>, NoMemory>
    requires bit { width_of terms.old bit ≡ 1 }
    requires further { IfSome further (IsByte terms.old) }
    requires nearer { IfSome nearer (IsByte terms.old) }
    ensures ok { IfOk result (IsEither terms.old terms.new bit further nearer) }
    ensures err { OnErr result (terms.new ≡ terms.old) }
{
    match (further, nearer) {
        (Some(further), Some(nearer)) => Ok(Some(choice(terms, bit, further, nearer)?)),
        (Some(further), None) => Ok(Some(further)),
        (None, nearer) => Ok(nearer),
    }
}

/// The address that is 2^at further on, modulo 2^32.
fn further_on(start: u32, at: u32) -> u32
    requires { at < 32 }
    ensures { result ≡ sum32 start (2 ^ at) }
{
    start.wrapping_add(1 << at)
}

/// The byte where bits lead from an address on.
fn selected(
    terms: &mut Builder,
    memory: &Pages,
    place: Place,
    by: u32,
    bits: &[Bit],
    start: u32,
) -> Result<Option<Byte>, NoMemory>
    requires within { by < loading.bytes place.width }
    requires few { place.scale + length bits.now ≤ 31 }
    requires bits { AreBitsOf terms.old bits.now }
    requires memory { HasBytes terms.old memory.now }
    ensures continues { Continues terms.old terms.new }
    ensures ok { IfOk result (Selects terms.old terms.new memory.now place by bits.now start) }
{
    let Some((bit, rest)) = bits.split_first() else {
        return Ok(byte_at(memory, place, by, start));
    };
    let further = further_on(start, place.scale + rest.len() as u32);
    match *bit {
        Bit::Known(true) => selected(terms, memory, place, by, rest, further),
        Bit::Known(false) => selected(terms, memory, place, by, rest, start),
        Bit::Term(bit) => {
            let first = selected(terms, memory, place, by, rest, further)?;
            let second = selected(terms, memory, place, by, rest, start)?;
            either(terms, bit, first, second)
        }
    }
}

/// The byte where bits lead, so many bytes behind. It is 0 where a load may take nothing from there.
pub(crate) fn byte_by(
    terms: &mut Builder,
    memory: &Pages,
    place: Place,
    by: u32,
    bits: &[Bit],
) -> Result<Byte, NoMemory>
    requires within { by < loading.bytes place.width }
    requires few { place.scale + length bits.now ≤ 31 }
    requires bits { AreBitsOf terms.old bits.now }
    requires memory { HasBytes terms.old memory.now }
    ensures continues { Continues terms.old terms.new }
    ensures ok { IfOk result (TakesByte terms.old terms.new memory.now place by bits.now) }
{
    match selected(terms, memory, place, by, bits, place.start)? {
        Some(byte) => Ok(byte),
        None => Ok(Byte::Number(0)),
    }
}
