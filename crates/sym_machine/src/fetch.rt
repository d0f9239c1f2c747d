//! The instruction that comes next.

ghost use Rattle.std.specs.Prelude.{◌≡◌, ◌+◌, ◌%◌, Ok, Err, IfOk, IfErr, OnErr};
ghost use Rattle.rv_spec.specs.Machine as machine;
ghost use Rattle.rv_spec.specs.Memory.{word_at};
ghost use Rattle.sym_state.specs.Expressions.{value_expression, word_of};
ghost use Rattle.sym_state.specs.Moves.{IsGrown, MakesValue};
ghost use Rattle.sym_state.specs.Symbolic.{KnowsTruth, concrete};
ghost use Rattle.sym_state.specs.Unfolded.{unfolded};
ghost use Rattle.sym_machine.specs.Fetching.{IsFetchedWord};
ghost use Rattle.sym_machine.specs.Stops.{Stops};

use crate::halt::Halt;
use crate::needs::number_at;
use rv_decode::Trap;
use std::alloc::AllocError as NoMemory;
use sym_state::{Code, State, Value};

/// The word at an address, low byte first.
pub(crate) fn word(state: &mut State, address: u32) -> Result<Value, NoMemory>
    requires aligned { address % 4 ≡ 0 }
    ensures ok { IfOk result (λ value. MakesValue state.old state.new value
        (λ input. word_at (concrete state.old input).byte address)) }
    ensures expression { IfOk result (λ value. value_expression state.new.terms value
        ≡ word_of ((unfolded state.old).byte address) ((unfolded state.old).byte (address + 1))
        ((unfolded state.old).byte (address + 2)) ((unfolded state.old).byte (address + 3))) }
    ensures err { OnErr result (state.new ≡ state.old) }
{
    let (b0, b1, b2, b3) = state.word_bytes(address);
    state.from_word(b0, b1, b2, b3)
}

/// The word of the instruction that comes next, or why there is none.
pub(crate) fn fetch(state: &mut State) -> Result<Result<u32, Trap>, Halt>
    requires knows { KnowsTruth state.old }
    ensures grown { IfOk result (λ _. IsGrown state.old state.new) }
    ensures ok { IfOk result (IsFetchedWord state.old) }
    ensures err { IfErr result (Stops state.old state.new) }
{
    let pc = state.pc();
    if pc % 4 != 0 {
        return Ok(Err(Trap::FetchMisaligned));
    }
    match state.code(pc) {
        Code::Closed => Ok(Err(Trap::FetchAccess)),
        Code::Word(word) => Ok(Ok(word)),
        Code::Bytes => {
            let value = word(state, pc)?;
            Ok(Ok(number_at(state, 0, value)?))
        }
    }
}
