//! The one hardware thread of the machine: its registers, its memory and what it has written.

ghost use Rattle.std.specs.Prelude.{◌≡◌, ◌<◌, ◌++◌, ◌∷◌, [], true, map, slice_index, IfOk, OnOk, OnErr};
ghost use Rattle.rv_decode.specs.Instructions.{ShiftsBelow32};
ghost use Rattle.rv_spec.specs.Arithmetic.{sum32};
ghost use Rattle.rv_spec.specs.Machine.{addresses, fetch, first_registers, written};
ghost use Rattle.rv_spec.specs.Memory.{can_write, is_mapped, with_bytes};
ghost use Rattle.rv_machine.specs.Pages.{byte_on, flags_on};

use crate::memory::Memory;
use crate::step::Step;
use elf_load::Image;
use rv_decode::{Instr, PathStep, Register, Trap};
use std::alloc::{AllocError as NoMemory, Global};
use std::marker::Model;

/// What the stack pointer, x2, is at the start.
pub const STACK_POINTER: u32 = 0x7FFF_FFF0;

/// Registers, memory, what was written, and the path.
#[derive(Debug)]
pub struct Hart {
    pc: u32,
    /// x0 to x31.
    registers: [u32; 32],
    memory: Memory,
    /// The bytes written so far.
    output: Vec<u8>,
    /// What each conditional branch so far did, and where each JALR went.
    path: Vec<PathStep>,
}

impl Drop for Hart {
    fn drop(self) {
        let Self {
            pc: _pc,
            registers: _registers,
            memory: _memory,
            output: _output,
            path: _path,
        } = self;
    }
}

impl Model for Hart {
    ghost use Rattle.std.specs.Coded.{codes};
    ghost use Rattle.rv_machine.specs.Pages.{pages_code};
    ghost use Rattle.rv_machine.specs.HartStates.{HartState};

    ghost Value = { HartState };

    ghost coded = { Prim.hlevel (codes, pages_code) };

    ghost view = { λ h. record {
      pc = h.pc;
      registers = h.registers;
      pages = h.memory;
      output = h.output.items;
      path = h.path.items;
    } };
}

/// Appends the bytes at so many addresses.
///
/// # Errors
///
/// Where memory is wanting; nothing is appended then.
fn append_bytes(
    memory: &mut Memory,
    output: &mut Vec<u8>,
    start: u32,
    count: u32,
) -> Result<(), NoMemory>
    ensures same { memory.new ≡ memory.old }
    ensures ok { OnOk result (output.new.items
        ≡ output.old.items ++ map (byte_on memory.old) (addresses start count)) }
    ensures err { OnErr result (output.new.items ≡ output.old.items) }
{
    output.reserve(count as usize)?;
    for i in 0..count {
        output.push_reserved(memory.read(start.wrapping_add(i)));
    }
    Ok(())
}

/// The registers at the start.
fn first_registers() -> [u32; 32]
    ensures { result ≡ first_registers }
{
    let mut registers = [0; 32];
    registers[2] = STACK_POINTER;
    registers
}

impl Hart {
    /// At the entry of an image, in its memory.
    pub(crate) fn of_image(alloc: Global, image: &Image) -> Result<Hart, NoMemory>
        ensures { IfOk result (λ hart. hart
            ≡ record {
              pc = image.now.entry;
              registers = first_registers;
              pages = image.now.pages;
              output = [];
              path = [];
            }) }
    {
        Ok(Hart {
            pc: image.entry(),
            registers: first_registers(),
            memory: Memory::of_image(alloc, image)?,
            output: Vec::new(alloc),
            path: Vec::new(alloc),
        })
    }

    /// What a register holds.
    pub fn x(&self, register: Register) -> u32
        ensures { result ≡ slice_index self.now.registers register }
    {
        self.registers[register.index()]
    }

    /// The address that is so far from this instruction's, modulo 2^32.
    pub fn address(&self, offset: u32) -> u32
        ensures { result ≡ sum32 self.now.pc offset }
    {
        self.pc.wrapping_add(offset)
    }

    /// The instruction that comes next, or why there is none.
    pub fn fetch(&mut self) -> Result<Instr, Trap>
        ensures same { self.new ≡ self.old }
        ensures value { result ≡ fetch (flags_on self.old.pages)
            (byte_on self.old.pages) self.old.pc }
        ensures amount { IfOk result ShiftsBelow32 }
    {
        self.memory.fetch(self.pc)
    }

    /// Whether a page is mapped at this address.
    pub fn is_mapped(&mut self, address: u32) -> bool
        ensures same { self.new ≡ self.old }
        ensures value { result ≡ is_mapped (flags_on self.old.pages) address }
    {
        self.memory.is_mapped(address)
    }

    /// Whether bytes can be written at this address.
    pub fn can_write(&mut self, address: u32) -> bool
        ensures same { self.new ≡ self.old }
        ensures value { result ≡ can_write (flags_on self.old.pages) address }
    {
        self.memory.can_write(address)
    }

    /// The byte at this address, 0 where no page is mapped.
    pub fn read(&mut self, address: u32) -> u8
        ensures same { self.new ≡ self.old }
        ensures value { result ≡ byte_on self.old.pages address }
    {
        self.memory.read(address)
    }

    /// Puts a byte to this address of a mapped page.
    pub fn put(&mut self, address: u32, byte: u8)
        requires { is_mapped (flags_on self.old.pages) address ≡ true }
        ensures rest { self.new ≡ record self.old { pages = self.new.pages } }
        ensures flags { flags_on self.new.pages ≡ flags_on self.old.pages }
        ensures bytes { byte_on self.new.pages
            ≡ with_bytes (byte_on self.old.pages) address (byte ∷ []) }
    {
        self.memory.write(address, byte);
    }

    /// Writes a register; x0 is never written.
    pub fn set(&mut self, register: Register, value: u32)
        ensures { self.new ≡ record self.old
            { registers = written self.old.registers register value } }
    {
        let index = register.index();
        if index != 0 {
            self.registers[index] = value;
        }
    }

    /// Goes to an address.
    pub fn go_to(&mut self, pc: u32)
        ensures { self.new ≡ record self.old { pc = pc } }
    {
        self.pc = pc;
    }

    /// Goes to the next instruction.
    pub fn go_on(&mut self) -> Step
        ensures running { result ≡ Step.Running }
        ensures state { self.new ≡ record self.old { pc = sum32 self.old.pc 4 } }
    {
        self.pc = self.pc.wrapping_add(4);
        Step::Running
    }

    /// Writes a register, and goes to the next instruction.
    pub fn go_on_with(&mut self, register: Register, value: u32) -> Step
        ensures running { result ≡ Step.Running }
        ensures state { self.new
            ≡ record self.old {
              pc = sum32 self.old.pc 4;
              registers = written self.old.registers register value;
            } }
    {
        self.set(register, value);
        self.go_on()
    }

    /// Appends the bytes at so many addresses to the output.
    ///
    /// # Errors
    ///
    /// Where memory is wanting; nothing changes then.
    pub fn emit(&mut self, start: u32, count: u32) -> Result<(), NoMemory>
        ensures ok { OnOk result (self.new
            ≡ record self.old {
              output = self.old.output
                  ++ map (byte_on self.old.pages) (addresses start count);
            }) }
        ensures err { OnErr result (self.new ≡ self.old) }
    {
        append_bytes(&mut self.memory, &mut self.output, start, count)
    }

    /// Notes an entry of the path.
    ///
    /// # Errors
    ///
    /// Where memory is wanting; nothing changes then.
    pub fn note(&mut self, entry: PathStep) -> Result<(), NoMemory>
        ensures ok { OnOk result (self.new
            ≡ record self.old { path = self.old.path ++ entry ∷ [] }) }
        ensures err { OnErr result (self.new ≡ self.old) }
    {
        self.path.push(entry)?;
        Ok(())
    }

    /// The path and the output.
    pub fn into_parts(self) -> (Vec<PathStep>, Vec<u8>)
        ensures path { result.0.items ≡ self.path }
        ensures output { result.1.items ≡ self.output }
    {
        let Self {
            pc: _pc,
            registers: _registers,
            memory: _memory,
            output,
            path,
        } = self;
        (path, output)
    }
}
