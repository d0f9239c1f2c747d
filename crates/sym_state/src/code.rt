//! What stands where an instruction is fetched.

ghost use Rattle.std.specs.Prelude.{◌≡◌, ◌%◌};
ghost use Rattle.sym_state.specs.Codes.{IsCode};
ghost use Rattle.sym_state.specs.Symbolic.{IsFormed};

use crate::state::State;
use rv_machine::{EXECUTE, PAGE};

/// What stands at an address from which an instruction is fetched.
#[derive(Clone, Copy, Debug, PartialEq, Eq)]
pub enum Code {
    /// Nothing that can be executed.
    Closed,
    /// This word.
    Word(u32),
    /// Four bytes, among which terms may be.
    Bytes,
}

impl State {
    /// What stands at an address that is a multiple of 4. What stands near it is found more quickly from then on.
    pub fn code(&mut self, address: u32) -> Code
        requires aligned { address % 4 ≡ 0 }
        ensures same { self.new ≡ self.old }
        ensures code { IsCode self.old.memory address result }
        ensures formed { IsFormed self.old }
    {
        self.memory.turn_to(address / PAGE);
        let Some(page) = self.memory.page(address / PAGE) else {
            return Code::Closed;
        };
        if page.flags() % 2 != EXECUTE {
            return Code::Closed;
        }
        match page.word((address % PAGE) as u8) {
            Some(word) => Code::Word(word),
            None => Code::Bytes,
        }
    }
}
