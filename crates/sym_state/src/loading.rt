//! What is loaded from an address that is a term, and whose page is known.

ghost use Rattle.std.specs.Prelude.{◌≡◌, ◌≤◌, ◌<◌, ◌+◌, ◌*◌, ◌^◌, ℕ, true, false, IfOk, length};
ghost use Rattle.bv_dag.specs.Graphs.{width_of};
ghost use Rattle.rv_decode.specs.declared.ops.LoadWidth.TheVariants.{Lw};
ghost use Rattle.rv_spec.specs.Machine as machine;
ghost use Rattle.rv_spec.specs.Memory.{half_at, word_at};
ghost use Rattle.term_simplify.specs.Operations as operations;
ghost use Rattle.term_trees.specs.Growth.{Continues};
ghost use Rattle.sym_state.specs.Expressions.{widened_byte, widened_half, word_of};
ghost use Rattle.sym_state.specs.Loading as loading;
ghost use Rattle.sym_state.specs.Moves.{IsGrown};
ghost use Rattle.sym_state.specs.Placing.{HasBytes};
ghost use Rattle.sym_state.specs.Selecting.{AreBitsOf, Loads, MakesLoaded};

use crate::bytes::{from_byte, from_half, from_word};
use crate::recalling::recalled;
use crate::selecting::{Place, byte_by, push_bits};
use crate::state::State;
use crate::updates::{Site, updates_at};
use crate::value::{Bit, Value};
use crate::ways::{way_bits, way_to};
use cow_pages::Pages;
use rv_decode::LoadWidth;
use std::alloc::AllocError as NoMemory;
use term_simplify::Builder;

/// A byte in 32 bits, with copies of its sign above it or zeros.
fn load_byte(
    terms: &mut Builder,
    memory: &Pages,
    place: Place,
    signed: bool,
    bits: &[Bit],
) -> Result<Value, NoMemory>
    requires one { 1 ≤ loading.bytes place.width }
    requires few { place.scale + length bits.now ≤ 31 }
    requires bits { AreBitsOf terms.old bits.now }
    requires memory { HasBytes terms.old memory.now }
    ensures continues { Continues terms.old terms.new }
    ensures ok { IfOk result (Loads terms.old terms.new memory.now place bits.now
        (λ byte address. operations.widened signed 8 (byte address))
        (λ byte address. widened_byte signed (byte address))) }
{
    let byte = byte_by(terms, memory, place, 0, bits)?;
    from_byte(terms, signed, byte)
}

/// Two bytes in 32 bits, with copies of their sign above them or zeros.
fn load_half(
    terms: &mut Builder,
    memory: &Pages,
    place: Place,
    signed: bool,
    bits: &[Bit],
) -> Result<Value, NoMemory>
    requires two { 2 ≤ loading.bytes place.width }
    requires few { place.scale + length bits.now ≤ 31 }
    requires bits { AreBitsOf terms.old bits.now }
    requires memory { HasBytes terms.old memory.now }
    ensures continues { Continues terms.old terms.new }
    ensures ok { IfOk result (Loads terms.old terms.new memory.now place bits.now
        (λ byte address. operations.widened signed 16 (half_at byte address))
        (λ byte address. widened_half signed (byte address) (byte (address + 1)))) }
{
    let low = byte_by(terms, memory, place, 0, bits)?;
    let high = byte_by(terms, memory, place, 1, bits)?;
    from_half(terms, signed, low, high)
}

/// Four bytes.
fn load_word(
    terms: &mut Builder,
    memory: &Pages,
    place: Place,
    bits: &[Bit],
) -> Result<Value, NoMemory>
    requires four { 4 ≤ loading.bytes place.width }
    requires few { place.scale + length bits.now ≤ 31 }
    requires bits { AreBitsOf terms.old bits.now }
    requires memory { HasBytes terms.old memory.now }
    ensures continues { Continues terms.old terms.new }
    ensures ok { IfOk result (Loads terms.old terms.new memory.now place bits.now
        (λ byte address. word_at byte address)
        (λ byte address. word_of (byte address) (byte (address + 1)) (byte (address + 2)) (byte (address + 3)))) }
{
    let b0 = byte_by(terms, memory, place, 0, bits)?;
    let b1 = byte_by(terms, memory, place, 1, bits)?;
    let b2 = byte_by(terms, memory, place, 2, bits)?;
    let b3 = byte_by(terms, memory, place, 3, bits)?;
    from_word(terms, b0, b1, b2, b3)
}

/// What is loaded from where bits lead.
fn load_from(
    terms: &mut Builder,
    memory: &Pages,
    place: Place,
    bits: &[Bit],
) -> Result<Value, NoMemory>
    requires few { place.scale + length bits.now ≤ 31 }
    requires bits { AreBitsOf terms.old bits.now }
    requires memory { HasBytes terms.old memory.now }
    ensures continues { Continues terms.old terms.new }
    ensures ok { IfOk result (Loads terms.old terms.new memory.now place bits.now
        (machine.loaded place.width) (loading.loaded place.width)) }
{
    match place.width {
        LoadWidth::Lb => load_byte(terms, memory, place, true, bits),
        LoadWidth::Lh => load_half(terms, memory, place, true, bits),
        LoadWidth::Lw => load_word(terms, memory, place, bits),
        LoadWidth::Lbu => load_byte(terms, memory, place, false, bits),
        LoadWidth::Lhu => load_half(terms, memory, place, false, bits),
    }
}

impl State {
    /// What is loaded from the address that a term is, where that stands on this page. Some terms may be left after want of memory.
    pub fn loaded_on(&mut self, width: LoadWidth, page: u32, term: usize) -> Result<Value, NoMemory>
        requires wide { width_of self.old.terms term ≡ 32 }
        requires page { page < 2 ^ 24 }
        ensures ok { IfOk result (MakesLoaded self.old self.new width page term) }
        ensures grown { IsGrown self.old self.new }
    {
        let way = way_to(self.terms.terms(), width, page, term);
        let mut bits = Vec::new(self.alloc);
        push_bits(&mut self.terms, &mut bits, way.term, way.first, way.count)?;
        let place = Place {
            width,
            page,
            start: way.start,
            scale: way.scale,
        };
        let site = Site {
            page,
            width,
            stride: way.stride(),
        };
        let Some(list) = updates_at(&self.updates, site) else {
            return load_from(&mut self.terms, &self.memory, place, &bits);
        };
        let before = load_from(&mut self.terms, &list.before, place, &bits)?;
        let bits = way_bits(&mut self.terms, way)?;
        recalled(&mut self.terms, width, bits, list, before)
    }
}
