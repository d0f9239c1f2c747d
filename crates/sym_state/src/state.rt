//! A symbolic run.

ghost use Rattle.std.specs.Prelude.{◌≡◌, ◌+◌, ◌%◌, ◌<◌, IfOk};
ghost use Rattle.cow_pages.specs.SymbolicMemory.{memory_byte, memory_flags};
ghost use Rattle.rv_spec.specs.Arithmetic.{sum32};
ghost use Rattle.sym_state.specs.Symbolic.{IsFormed, known_at, most_decisions, value_at};
ghost use Rattle.sym_state.specs.Values.{IsByte, IsWide};

use crate::decided::Decided;
use crate::known::Known;
use crate::selecting::byte_in;
use crate::updates::{UpdateList, shared};
use crate::value::Value;
use byte_list::Bytes;
use cow_pages::{Byte, Pages};
use cow_vec::CowVec;
use fork_spec::Placed;
use rv_decode::{PathStep, Register};
use rv_machine::PAGE;
use std::alloc::{AllocError as NoMemory, Global};
use std::marker::Model;
use term_simplify::Builder;
use term_table::Terms;
use tree_core::{Cause, Choice};

/// A symbolic run, somewhere before its end. Copies share what they hold until one of them changes.
pub struct State {
    pub(crate) alloc: Global,
    pub(crate) pc: u32,
    /// x0 to x31.
    pub(crate) registers: [Value; 32],
    pub(crate) memory: Pages,
    pub(crate) terms: Builder,
    /// The terms of one bit that are to be 1.
    pub(crate) condition: CowVec<usize>,
    /// The bytes written so far.
    pub(crate) output: CowVec<Byte>,
    pub(crate) path: CowVec<PathStep>,
    /// The sides taken at the forks so far.
    pub(crate) choices: CowVec<Choice>,
    /// How many steps were made.
    pub(crate) steps: u32,
    /// What is known of the decisions of the step that comes next, by their places.
    pub(crate) known: Known,
    /// An assignment that meets the condition.
    pub(crate) sample: Bytes,
    /// The last stores by terms.
    pub(crate) updates: Vec<UpdateList>,
}

impl Drop for State {
    fn drop(self) {
        let Self {
            alloc: _alloc,
            pc: _pc,
            registers: _registers,
            memory: _memory,
            terms: _terms,
            condition: _condition,
            output: _output,
            path: _path,
            choices: _choices,
            steps: _steps,
            known: _known,
            sample: _sample,
            updates: _tables,
        } = self;
    }
}

impl Model for State {
    ghost use Rattle.std.specs.Coded.{codes};
    ghost use Rattle.cow_pages.specs.SymbolicMemory.{memory_code};
    ghost use Rattle.sym_state.specs.Symbolic as spec;

    ghost Value = { spec.Symbolic };

    ghost coded = { Prim.hlevel (codes, memory_code) };

    ghost view = { λ s. record {
      pc = s.pc;
      registers = s.registers;
      memory = s.memory;
      terms = s.terms;
      condition = s.condition;
      output = s.output;
      path = s.path;
      choices = s.choices;
      steps = s.steps;
      known = s.known;
      sample = s.sample;
      updates = s.updates.items;
    } };

    ghost invariant = { λ s. spec.IsFormed (record {
      pc = s.pc;
      registers = s.registers;
      memory = s.memory;
      terms = s.terms;
      condition = s.condition;
      output = s.output;
      path = s.path;
      choices = s.choices;
      steps = s.steps;
      known = s.known;
      sample = s.sample;
      updates = s.updates.items;
    }) };
}

impl Placed for State {
    ghost use Rattle.sym_state.specs.Places.{run_place};

    ghost place = { run_place };

    fn cut(&self) -> Option<Cause> {
        None
    }
}

impl State {
    /// An equal one; a change in one changes nothing in the other. It takes memory for tables of references alone.
    pub fn share(&self) -> Result<State, NoMemory>
        ensures same { IfOk result (λ other. other ≡ self.now) }
        ensures formed { IsFormed self.now }
    {
        Ok(State {
            alloc: self.alloc,
            pc: self.pc,
            registers: self.registers,
            memory: self.memory.share()?,
            terms: self.terms.share()?,
            condition: self.condition.share()?,
            output: self.output.share()?,
            path: self.path.share()?,
            choices: self.choices.share()?,
            steps: self.steps,
            known: self.known.copy(),
            sample: Bytes::from_slice(self.alloc, self.sample.as_slice())?,
            updates: shared(self.alloc, &self.updates)?,
        })
    }

    /// The address of the instruction that comes next.
    pub fn pc(&self) -> u32
        ensures value { result ≡ self.now.pc }
        ensures formed { IsFormed self.now }
    {
        self.pc
    }

    /// The address that is so far from the next instruction's, modulo 2^32.
    pub fn address(&self, offset: u32) -> u32
        ensures { result ≡ sum32 self.now.pc offset }
    {
        self.pc.wrapping_add(offset)
    }

    /// How many steps were made.
    pub fn steps(&self) -> u32
        ensures { result ≡ self.now.steps }
    {
        self.steps
    }

    /// What a register holds.
    pub fn value(&self, register: Register) -> Value
        ensures value { result ≡ value_at self.now.registers register }
        ensures wide { IsWide self.now.terms result }
        ensures formed { IsFormed self.now }
    {
        self.registers[register.index()]
    }

    /// What may be done on a page, if it is mapped.
    pub fn flags(&self, page: u32) -> Option<u8>
        ensures { result ≡ memory_flags self.now.memory page }
    {
        self.memory.flags(page)
    }

    /// The byte at an address, 0 where no page is mapped.
    pub fn byte(&self, address: u32) -> Byte
        ensures value { result ≡ memory_byte self.now.memory address }
        ensures is_byte { IsByte self.now.terms result }
    {
        byte_in(&self.memory, address)
    }

    /// The four bytes from an address on that is a multiple of 4, 0 where no page is mapped.
    pub fn word_bytes(&self, address: u32) -> (Byte, Byte, Byte, Byte)
        requires aligned { address % 4 ≡ 0 }
        ensures b0 { result.0 ≡ memory_byte self.now.memory address }
        ensures b1 { result.1 ≡ memory_byte self.now.memory (address + 1) }
        ensures b2 { result.2 ≡ memory_byte self.now.memory (address + 2) }
        ensures b3 { result.3 ≡ memory_byte self.now.memory (address + 3) }
        ensures formed { IsFormed self.now }
    {
        let Some(page) = self.memory.page(address / PAGE) else {
            return (
                Byte::Number(0),
                Byte::Number(0),
                Byte::Number(0),
                Byte::Number(0),
            );
        };
        let at = (address % PAGE) as u8;
        (
            page.byte(at),
            page.byte(at + 1),
            page.byte(at + 2),
            page.byte(at + 3),
        )
    }

    /// What is known of the decision at a place of the step that comes next.
    pub fn known(&self, place: usize) -> Option<Decided>
        requires { place < most_decisions }
        ensures { result ≡ known_at self.now place }
    {
        self.known.at(place)
    }

    /// An assignment that meets the condition, one byte for each input.
    pub fn sample(&self) -> &Bytes
        ensures value { result.now ≡ self.now.sample }
        ensures formed { IsFormed self.now }
    {
        &self.sample
    }

    /// Its terms.
    pub fn terms(&self) -> &Terms
        ensures value { result.now ≡ self.now.terms }
        ensures formed { IsFormed self.now }
    {
        self.terms.terms()
    }

    /// The terms of one bit that are to be 1.
    pub fn condition(&self) -> &CowVec<usize>
        ensures { result.now ≡ self.now.condition }
    {
        &self.condition
    }

    /// The bytes written so far.
    pub fn output(&self) -> &CowVec<Byte>
        ensures value { result.now ≡ self.now.output }
        ensures formed { IsFormed self.now }
    {
        &self.output
    }

    /// What each conditional branch and each JALR so far has done.
    pub fn path(&self) -> &CowVec<PathStep>
        ensures { result.now ≡ self.now.path }
    {
        &self.path
    }

    /// The sides taken at the forks so far.
    pub fn choices(&self) -> &CowVec<Choice>
        ensures { result.now ≡ self.now.choices }
    {
        &self.choices
    }
}
