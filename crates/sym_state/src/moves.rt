//! How a symbolic run changes.

ghost use Rattle.std.specs.Prelude.{◌≡◌, ◌==◌, ◌<◌, ◌/◌, ◌∷◌, ◌++◌, ℕ, [], All, IsSome, OnErr, OnOk, length, if◌then◌else◌};
ghost use Rattle.bv_dag.specs.Graphs.{width_of};
ghost use Rattle.cow_pages.specs.SymbolicMemory.{memory_byte, memory_flags};
ghost use Rattle.fork_spec.specs.Leaves.{IsSmallStep};
ghost use Rattle.tree_core.specs.Choices.{IsSmallChoice};
ghost use Rattle.sym_state.specs.Moves.{counted, informed, stored_at};
ghost use Rattle.sym_state.specs.Symbolic.{IsFormed, most_decisions, most_steps, set_value};
ghost use Rattle.sym_state.specs.Values.{IsByte, IsWide};

use crate::decided::Decided;
use crate::state::State;
use crate::updates::give_up;
use crate::value::Value;
use byte_list::Bytes;
use cow_pages::Byte;
use rv_decode::{PathStep, Register};
use std::alloc::AllocError as NoMemory;
use tree_core::Choice;

// A list of bytes has no greater numbers.
fn are_bytes(bytes: &[u8])
    ensures { All (λ b. b < 256) bytes.now }
{}

impl State {
    /// Writes a register; x0 is never written.
    pub fn set(&mut self, register: Register, value: Value)
        requires wide { IsWide self.old.terms value }
        ensures value { self.new
            ≡ record self.old { registers = set_value self.old.registers register value } }
        ensures formed { IsFormed self.new }
    {
        let index = register.index();
        if index != 0 {
            self.registers[index] = value;
        }
    }

    /// Goes to an address.
    pub fn go_to(&mut self, pc: u32)
        ensures value { self.new ≡ record self.old { pc = pc } }
        ensures formed { IsFormed self.new }
    {
        self.pc = pc;
    }

    /// Counts a step. Of the next one nothing is known yet.
    pub fn count(&mut self)
        requires few { self.old.steps < most_steps }
        ensures value { self.new ≡ counted self.old }
        ensures formed { IsFormed self.new }
    {
        self.steps += 1;
        self.known.clear();
    }

    /// Keeps what the decision at a place of the next step is.
    pub fn know(&mut self, place: usize, decided: Decided)
        requires place { place < most_decisions }
        ensures value { self.new ≡ informed self.old place decided }
        ensures formed { IsFormed self.new }
    {
        self.known.put(place, decided);
    }

    /// Notes an entry of the path.
    pub fn note(&mut self, entry: PathStep) -> Result<(), NoMemory>
        requires small { IsSmallStep entry }
        ensures ok { OnOk result (self.new
            ≡ record self.old { path = self.old.path ++ entry ∷ [] }) }
        ensures err { OnErr result (self.new ≡ self.old) }
        ensures formed { IsFormed self.new }
    {
        self.path.push(entry)?;
        Ok(())
    }

    /// Puts a byte behind the output.
    pub fn emit(&mut self, byte: Byte) -> Result<(), NoMemory>
        requires is_byte { IsByte self.old.terms byte }
        ensures ok { OnOk result (self.new
            ≡ record self.old { output = self.old.output ++ byte ∷ [] }) }
        ensures err { OnErr result (self.new ≡ self.old) }
        ensures formed { IsFormed self.new }
    {
        self.output.push(byte)?;
        Ok(())
    }

    /// Puts a byte to an address of a mapped page. A list of updates for a byte there is given up.
    pub fn put(&mut self, address: u32, byte: Byte) -> Result<(), NoMemory>
        requires mapped { IsSome (memory_flags self.old.memory (address / 256)) }
        requires is_byte { IsByte self.old.terms byte }
        ensures ok { OnOk result (self.new ≡ stored_at self.old address byte) }
        ensures bytes { OnOk result ((at : ℕ)
            → memory_byte self.new.memory at
            ≡ (if at == address then byte else memory_byte self.old.memory at)) }
        ensures flags { OnOk result ((page : ℕ)
            → memory_flags self.new.memory page ≡ memory_flags self.old.memory page) }
        ensures err { OnErr result (self.new ≡ self.old) }
        ensures formed { IsFormed self.new }
    {
        self.memory.write(address, byte)?;
        give_up(&mut self.updates, address);
        Ok(())
    }

    /// Notes the side of a fork.
    pub fn choose(&mut self, choice: Choice) -> Result<(), NoMemory>
        requires small { IsSmallChoice choice }
        ensures ok { OnOk result (self.new
            ≡ record self.old { choices = self.old.choices ++ choice ∷ [] }) }
        ensures err { OnErr result (self.new ≡ self.old) }
        ensures formed { IsFormed self.new }
    {
        self.choices.push(choice)?;
        Ok(())
    }

    /// Asks for one more term of one bit to be 1.
    pub fn assert(&mut self, term: usize) -> Result<(), NoMemory>
        requires bit { width_of self.old.terms term ≡ 1 }
        ensures ok { OnOk result (self.new
            ≡ record self.old { condition = self.old.condition ++ term ∷ [] }) }
        ensures err { OnErr result (self.new ≡ self.old) }
        ensures formed { IsFormed self.new }
    {
        self.condition.push(term)?;
        Ok(())
    }

    /// Takes another assignment as the sample.
    pub fn sample_by(&mut self, sample: Bytes)
        requires each_input { length sample ≡ self.old.terms.inputs }
        ensures value { self.new ≡ record self.old { sample = sample } }
        ensures formed { IsFormed self.new }
        ensures bytes { All (λ b. b < 256) sample }
    {
        are_bytes(sample.as_slice());
        self.sample = sample;
    }
}
