//! A store along a way: each byte of a page that the way may come to is the stored one where it comes there, and else stays.

ghost use Rattle.std.specs.Prelude.{◌≡◌, ◌==◌, ◌+◌, ◌-◌, ◌*◌, ◌/◌, ◌%◌, ◌^◌, ◌<◌, ◌≤◌, ℕ, List, All, IfOk, IsSome, None, OnErr, OnOk, Some, length, if◌then◌else◌};
ghost use Rattle.bv_dag.specs.Graphs.{Graph, width_of};
ghost use Rattle.cow_pages.specs.SymbolicMemory.{memory_byte, memory_flags};
ghost use Rattle.term_trees.specs.Growth.{Continues};
ghost use Rattle.sym_state.specs.Expressions.{bit_expression, byte_expression};
ghost use Rattle.sym_state.specs.Loading as loading;
ghost use Rattle.sym_state.specs.Placing.{HasBytes};
ghost use Rattle.sym_state.specs.Scattering.{AreBytesFor, AreWayBits, MakesBytes, Scatters, come_to, expressed_after, worth_after};
ghost use Rattle.sym_state.specs.Selecting.{as_way};
ghost use Rattle.sym_state.specs.Storing as storing;
ghost use Rattle.sym_state.specs.Values.{GivesBit, GivesByte, IsBit, IsByte, IsWide, bit_worth, byte_worth};

use crate::bytes::{byte_at, choice};
use crate::operations::bit_of;
use crate::selecting::{byte_in, bytes_of};
use crate::value::{Bit, Value};
use crate::ways::Way;
use bv_dag::{Comparison, Node};
use cow_pages::{Byte, Pages};
use rv_decode::LoadWidth;
use rv_machine::PAGE;
use std::alloc::{AllocError as NoMemory, Global};
use term_simplify::Builder;

/// A way to a place on a page that something is stored to, by the bits that a term is.
#[derive(Clone, Copy, Debug, PartialEq, Eq)]
pub(crate) struct Along {
    pub(crate) width: LoadWidth,
    pub(crate) page: u32,
    pub(crate) way: Way,
    pub(crate) bits: usize,
}

/// The low bytes of a value, the lowest first, so many.
pub(crate) fn low_bytes(
    alloc: Global,
    terms: &mut Builder,
    value: Value,
    count: u32,
) -> Result<Vec<Byte>, NoMemory>
    requires wide { IsWide terms.old value }
    requires few { count ≤ 4 }
    ensures continues { Continues terms.old terms.new }
    ensures ok { IfOk result (λ bytes. MakesBytes terms.old terms.new value count bytes.items) }
{
    let mut bytes = Vec::new(alloc);
    for at in 0..count {
        let byte = byte_at(terms, value, at)?;
        bytes.push(byte)?;
    }
    Ok(bytes)
}

/// Whether a way comes to an address.
fn comes_to(terms: &mut Builder, way: Way, bits: usize, address: u32) -> Result<Bit, NoMemory>
    requires few { way.scale + way.count ≤ 31 }
    requires bits { AreWayBits terms.old way bits }
    ensures continues { Continues terms.old terms.new }
    ensures ok { IfOk result (λ bit. GivesBit terms.old terms.new bit
        (λ input. address == come_to terms.old way input)) }
    ensures expression { IfOk result (λ bit. bit_expression terms.new bit
        ≡ storing.comes_to (as_way terms.old way) address) }
{
    let Some(steps) = way.stride().steps_to(address) else {
        return Ok(Bit::Known(false));
    };
    let number = terms.num(way.count, steps)?;
    let test = terms.build(Node::Compare(Comparison::Eq, bits, number))?;
    Ok(bit_of(terms, test))
}

/// The first of two bytes where a bit is 1, and else the second.
fn byte_where(terms: &mut Builder, bit: Bit, stored: Byte, kept: Byte) -> Result<Byte, NoMemory>
    requires bit { IsBit terms.old bit }
    requires stored { IsByte terms.old stored }
    requires kept { IsByte terms.old kept }
    ensures continues { Continues terms.old terms.new }
    ensures ok { IfOk result (λ byte. GivesByte terms.old terms.new byte
        (λ input. if bit_worth terms.old input bit
        then byte_worth terms.old input stored else byte_worth terms.old input kept)) }
    ensures expression { IfOk result (λ byte. byte_expression terms.new byte
        ≡ storing.byte_where (bit_expression terms.old bit) (byte_expression terms.old stored)
        (byte_expression terms.old kept)) }
{
    match bit {
        Bit::Known(true) => Ok(stored),
        Bit::Known(false) => Ok(kept),
        Bit::Term(bit) => choice(terms, bit, stored, kept),
    }
}

/// What stands at an address of the page after these bytes were stored.
fn byte_after(
    terms: &mut Builder,
    memory: &Pages,
    along: Along,
    bytes: &[Byte],
    address: u32,
) -> Result<Byte, NoMemory>
    requires few { along.way.scale + along.way.count ≤ 31 }
    requires bits { AreWayBits terms.old along.way along.bits }
    requires stored { AreBytesFor terms.old along.width bytes.now }
    requires kept { IsByte terms.old (memory_byte memory.now address) }
    ensures continues { Continues terms.old terms.new }
    ensures ok { IfOk result (λ byte. GivesByte terms.old terms.new byte
        (λ input. worth_after terms.old memory.now along.width along.way bytes.now input address)) }
    ensures expression { IfOk result (λ byte. byte_expression terms.new byte
        ≡ expressed_after terms.old memory.now along.width along.way bytes.now address) }
{
    let many = bytes_of(along.width);
    let bit = comes_to(terms, along.way, along.bits, address / many * many)?;
    let stored = bytes[(address % many) as usize];
    byte_where(terms, bit, stored, byte_in(memory, address))
}

/// Stores bytes along a way. After want of memory some bytes of the page may be as after the store, and others as before.
pub(crate) fn scatter(
    terms: &mut Builder,
    memory: &mut Pages,
    along: Along,
    bytes: &[Byte],
) -> Result<(), NoMemory>
    requires page { along.page < 2 ^ 24 }
    requires mapped { IsSome (memory_flags memory.old along.page) }
    requires few { along.way.scale + along.way.count ≤ 31 }
    requires bits { AreWayBits terms.old along.way along.bits }
    requires stored { AreBytesFor terms.old along.width bytes.now }
    requires memory { HasBytes terms.old memory.old }
    ensures continues { Continues terms.old terms.new }
    ensures memory { HasBytes terms.new memory.new }
    ensures ok { OnOk result (Scatters terms.old terms.new memory.old memory.new along.width along.page
        along.way bytes.now 256) }
{
    for offset in 0..PAGE {
        let address = PAGE * along.page + offset;
        let byte = byte_after(terms, memory, along, bytes, address)?;
        memory.write(address, byte)?;
    }
    Ok(())
}
