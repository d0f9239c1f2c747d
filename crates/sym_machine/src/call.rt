//! The environment call: exit, and write. Its number has to be known, and of a write its file, its start and its length.

ghost use Rattle.std.specs.Prelude.{◌≡◌, ◌<◌, true, ℕ, List, IfOk, IfErr, OnOk, min};
ghost use Rattle.std.specs.List.{list_all};
ghost use Rattle.cow_pages.specs.SymbolicMemory.{memory_flags};
ghost use Rattle.rv_decode.specs.declared.instr.Instr.TheVariants.{Ecall};
ghost use Rattle.fork_spec.specs.Decisions.{Number as Needs};
ghost use Rattle.rv_spec.specs.Machine as machine;
ghost use Rattle.rv_spec.specs.Machine.{addresses, x};
ghost use Rattle.rv_spec.specs.Memory.{is_mapped};
ghost use Rattle.sym_state.specs.Symbolic.{KnowsTruth, concrete, most_decisions, stands_for};
ghost use Rattle.sym_state.specs.Undecided.{StandsAt};
ghost use Rattle.sym_state.specs.Unfolded.{unfolded};
ghost use Rattle.sym_state.specs.Unfolding as symbolic;
ghost use Rattle.sym_machine.specs.Calls.{WritesOutput};
ghost use Rattle.sym_machine.specs.Steps.{Carries, Comes};
ghost use Rattle.sym_machine.specs.Stops.{DecidesBy, Stops};

use crate::going::go_on_with;
use crate::halt::Halt;
use crate::needs::number_at;
use crate::outcome::{Step, trapped};
use crate::transfer;
use rv_decode::{Register, Trap};
use rv_machine::{EXIT, MOST_WRITTEN, WRITE, is_file};
use std::alloc::AllocError as NoMemory;
use sym_state::{RunEnd, State, Value};

/// Whether each of so many addresses is on a mapped page.
fn are_mapped(state: &State, start: u32, count: u32) -> bool
    ensures { result ≡ list_all (is_mapped (memory_flags state.now.memory))
        (addresses start count) }
{
    let mut mapped = true;
    for i in 0..count {
        mapped &= transfer::is_mapped(state, start.wrapping_add(i));
    }
    mapped
}

/// Appends the bytes at so many addresses to the output.
fn emit(state: &mut State, start: u32, count: u32) -> Result<(), NoMemory>
    ensures { OnOk result (WritesOutput state.old state.new start count) }
{
    for i in 0..count {
        state.emit(state.byte(start.wrapping_add(i)))?;
    }
    Ok(())
}

/// Writes bytes of memory to the output, 4096 at most, and answers their number in a0.
fn write_out(state: &mut State, start: u32, asked: u32) -> Result<Step, NoMemory>
    ensures comes { IfOk result (λ step. Comes state.old state.new step
        (λ c. machine.write c 1 start asked)) }
    ensures terms { IfOk result (λ _. unfolded state.new
        ≡ symbolic.write (unfolded state.old) start (min asked 4096)) }
{
    let count = asked.min(MOST_WRITTEN);
    if !are_mapped(state, start, count) {
        return Ok(trapped(Trap::LoadAccess));
    }
    emit(state, start, count)?;
    Ok(go_on_with(state, Register::new(10), Value::Number(count)))
}

/// The number in a register, at a place of the step's decisions.
fn needs(state: &State, place: usize, register: Register) -> Result<u32, Halt>
    requires knows { KnowsTruth state.now }
    requires in_range { place < most_decisions }
    requires stands { StandsAt state.now place
        (λ input. Needs (x (concrete state.now input) register)) }
    ensures ok { IfOk result (λ number. (input : List ℕ) → stands_for state.now input ≡ true
        → x (concrete state.now input) register ≡ number) }
    ensures err { IfErr result (Stops state.now state.now) }
{
    number_at(state, place, state.value(register))
}

/// Carries out the environment call that a7 names.
pub(crate) fn call(state: &mut State) -> Result<Step, Halt>
    requires knows { KnowsTruth state.old }
    requires decides { DecidesBy state.old Ecall }
    ensures ok { IfOk result (λ step. Carries state.old state.new step Ecall) }
    ensures err { IfErr result (Stops state.old state.new) }
{
    let number = needs(state, 1, Register::new(17))?;
    if number == EXIT {
        return Ok(Step::Ended(RunEnd::Exits));
    }
    if number != WRITE {
        return Ok(trapped(Trap::Call));
    }
    let file = needs(state, 2, Register::new(10))?;
    if !is_file(file) {
        return Ok(trapped(Trap::Call));
    }
    let start = needs(state, 3, Register::new(11))?;
    let count = needs(state, 4, Register::new(12))?;
    let step = write_out(state, start, count)?;
    Ok(step)
}
