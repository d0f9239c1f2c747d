//! The run of all assignments, before its first step.

ghost use Rattle.std.specs.Prelude.{◌≡◌, ◌+◌, ◌≤◌, IfOk, OnOk, drop};
ghost use Rattle.cow_pages.specs.SymbolicMemory.{memory_flags};
ghost use Rattle.rv_machine.specs.Pages.{AreMapped, IsMapped, filled};
ghost use Rattle.rv_spec.specs.Machine as machine;
ghost use Rattle.rv_spec.specs.Memory.{count_of, placed};
ghost use Rattle.sym_state.specs.First.{first_run, number_values};
ghost use Rattle.sym_state.specs.Placing.{HasBytes, PutsBytes, bytes_expressed, bytes_worth, inputs_filled};
ghost use Rattle.sym_state.specs.Runs.{IsFirst, IsOpen, IsSampled};
ghost use Rattle.sym_state.specs.Unfolded.{inputs_placed};

use crate::known::Known;
use crate::program::Program;
use crate::state::State;
use crate::value::Value;
use byte_list::Bytes;
use cow_pages::{Byte, Pages};
use cow_vec::CowVec;
use elf_load::Region;
use rv_machine::STACK_POINTER;
use std::alloc::{AllocError as NoMemory, Global};
use term_simplify::Builder;

/// The registers at the start.
fn first_registers() -> [Value; 32]
    ensures { result ≡ number_values machine.first_registers }
{
    let mut registers = [Value::Number(0); 32];
    registers[2] = Value::Number(STACK_POINTER);
    registers
}

/// How many bytes regions have.
fn count_bytes(regions: &[Region]) -> usize
    requires few { count_of regions.now ≤ 1024 }
    ensures { result ≡ count_of regions.now }
{
    let mut count = 0;
    for region in regions {
        count += region.count as usize;
    }
    count
}

/// Puts input bytes to a region, from the input `first` on.
fn fill(
    memory: &mut Pages,
    terms: &mut Builder,
    region: &Region,
    first: usize,
) -> Result<(), NoMemory>
    requires mapped { IsMapped (memory_flags memory.old) region.now }
    requires has_bytes { HasBytes terms.old memory.old }
    requires inputs { first + region.now.count ≤ terms.old.inputs }
    requires few { terms.old.inputs ≤ 1024 }
    ensures { OnOk result (PutsBytes terms.old terms.new memory.old memory.new
        (inputs_filled region.now.start region.now.count first
        (bytes_expressed terms.old memory.old))
        (λ input. filled region.now.start region.now.count (drop first input)
        (bytes_worth terms.old memory.old input))) }
{
    for i in 0..region.count {
        let byte = terms.input(first + i as usize)?;
        memory.write(region.start + i, Byte::Term(byte))?;
    }
    Ok(())
}

/// Puts the input bytes to their regions.
fn place_inputs(memory: &mut Pages, terms: &mut Builder, regions: &[Region]) -> Result<(), NoMemory>
    requires mapped { AreMapped (memory_flags memory.old) regions.now }
    requires has_bytes { HasBytes terms.old memory.old }
    requires inputs { count_of regions.now ≡ terms.old.inputs }
    requires few { terms.old.inputs ≤ 1024 }
    ensures { OnOk result (PutsBytes terms.old terms.new memory.old memory.new
        (inputs_placed regions.now 0 (bytes_expressed terms.old memory.old))
        (λ input. placed regions.now input (bytes_worth terms.old memory.old input))) }
{
    let mut first = 0;
    for region in regions {
        fill(memory, terms, region, first)?;
        first += region.count as usize;
    }
    Ok(())
}

/// A run before its first step, with this memory and these terms.
fn begin(alloc: Global, entry: u32, memory: Pages, terms: Builder) -> Result<State, NoMemory>
    requires has_bytes { HasBytes terms memory }
    ensures { IfOk result (λ state. state ≡ first_run entry memory terms) }
{
    let inputs = terms.terms().inputs();
    Ok(State {
        alloc,
        pc: entry,
        registers: first_registers(),
        memory,
        terms,
        condition: CowVec::new(alloc),
        output: CowVec::new(alloc),
        path: CowVec::new(alloc),
        choices: CowVec::new(alloc),
        steps: 0,
        known: Known::nothing(),
        sample: Bytes::from_vec(vec![in alloc; 0; inputs]?),
        updates: Vec::new(alloc),
    })
}

impl State {
    /// The run of all assignments, before its first step: it stands for each list of bytes, one for each place of the regions.
    pub fn first(alloc: Global, program: &Program) -> Result<State, NoMemory>
        ensures first { IfOk result (IsFirst program.now) }
        ensures open { IfOk result (IsOpen program.now) }
        ensures sampled { IfOk result IsSampled }
    {
        let image = program.image();
        let regions = program.regions().as_slice();
        let mut memory = Pages::new(alloc, image)?;
        let mut terms = Builder::new(alloc, count_bytes(regions));
        place_inputs(&mut memory, &mut terms, regions)?;
        begin(alloc, image.entry(), memory, terms)
    }
}
