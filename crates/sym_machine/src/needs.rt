//! What an instruction needs to know before it does anything: numbers, and the side of a branch. Each stands at a place of the
//! step's decisions. It is known where no term decides it, or where the run was told; else the instruction stops. What was told is of
//! the other kind only where the run stands for no assignment: any answer does there.

ghost use Rattle.std.specs.Prelude.{◌≡◌, ◌<◌, ℕ, true, List, IfOk, IfErr};
ghost use Rattle.fork_spec.specs.Decisions.{Side, Number as Needs};
ghost use Rattle.sym_state.specs.Symbolic.{KnowsTruth, most_decisions, stands_for};
ghost use Rattle.sym_state.specs.Values.{IsBit, IsWide, bit_worth, worth_of};
ghost use Rattle.sym_state.specs.Undecided.{StandsAt};
ghost use Rattle.sym_machine.specs.Stops.{StopsAt};

use crate::halt::Halt;
use sym_state::{Bit, Decided, State, Value};

/// The number that a value is.
pub(crate) fn number_at(state: &State, place: usize, value: Value) -> Result<u32, Halt>
    requires knows { KnowsTruth state.now }
    requires wide { IsWide state.now.terms value }
    requires in_range { place < most_decisions }
    requires stands { StandsAt state.now place
        (λ input. Needs (worth_of state.now.terms input value)) }
    ensures ok { IfOk result (λ number. (input : List ℕ) → stands_for state.now input ≡ true
        → worth_of state.now.terms input value ≡ number) }
    ensures err { IfErr result (StopsAt state.now) }
{
    let term = match value {
        Value::Number(number) => return Ok(number),
        Value::Term(term) => term,
    };
    match state.known(place) {
        None => Err(Halt::Number { place, term }),
        Some(Decided::Number(number)) => Ok(number),
        Some(Decided::Side(_)) => Ok(0),
    }
}

/// Whether a conditional branch is taken.
pub(crate) fn side_of(state: &State, bit: Bit) -> Result<bool, Halt>
    requires knows { KnowsTruth state.now }
    requires is_bit { IsBit state.now.terms bit }
    requires stands { StandsAt state.now 1 (λ input. Side (bit_worth state.now.terms input bit)) }
    ensures ok { IfOk result (λ side. (input : List ℕ) → stands_for state.now input ≡ true
        → bit_worth state.now.terms input bit ≡ side) }
    ensures err { IfErr result (StopsAt state.now) }
{
    let term = match bit {
        Bit::Known(side) => return Ok(side),
        Bit::Term(term) => term,
    };
    match state.known(1) {
        None => Err(Halt::Side(term)),
        Some(Decided::Side(side)) => Ok(side),
        Some(Decided::Number(_)) => Ok(false),
    }
}
