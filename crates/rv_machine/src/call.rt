//! The environment call: exit, and write.

ghost use Rattle.std.specs.Prelude.{◌≡◌, ◌==◌, ◌||◌, IfErr, IfOk, OnErr};
ghost use Rattle.std.specs.List.{list_all};
ghost use Rattle.rv_spec.specs.Machine as machine;
ghost use Rattle.rv_spec.specs.Machine.{addresses, x};
ghost use Rattle.rv_spec.specs.Memory.{is_mapped};
ghost use Rattle.rv_machine.specs.Pages.{flags_on};
ghost use Rattle.rv_machine.specs.HartStates.{state_of};
ghost use Rattle.rv_machine.specs.Steps.{outcome_of};

use crate::hart::Hart;
use crate::step::{Step, trapped};
use rv_decode::{End, Register, Trap};
use std::alloc::AllocError as NoMemory;

/// The number of the call that exits, in a7.
pub const EXIT: u32 = 93;

/// The number of the call that writes, in a7.
pub const WRITE: u32 = 64;

/// The most bytes that a call writes.
pub const MOST_WRITTEN: u32 = 4096;

/// Whether each of so many addresses is on a mapped page.
fn are_mapped(hart: &mut Hart, start: u32, count: u32) -> bool
    ensures same { hart.new ≡ hart.old }
    ensures value { result ≡ list_all (is_mapped (flags_on hart.old.pages))
        (addresses start count) }
{
    let mut mapped = true;
    for i in 0..count {
        mapped &= hart.is_mapped(start.wrapping_add(i));
    }
    mapped
}

/// Whether a file of this number is there to be written to: standard output and standard error, which are one.
pub fn is_file(file: u32) -> bool
    ensures { result ≡ (file == 1 || file == 2) }
{
    file == 1 || file == 2
}

/// Writes bytes of memory to the output, 4096 at most, and answers their number in a0.
#[tactic(auto, unfolding(rv_spec::specs::Machine::write))]
fn write(hart: &mut Hart, file: u32, start: u32, asked: u32) -> Result<Step, NoMemory>
    ensures ok { IfOk result (λ step. outcome_of hart.new step
        ≡ machine.write (state_of hart.old) file start asked) }
    ensures err { OnErr result (hart.new ≡ hart.old) }
{
    let count = asked.min(MOST_WRITTEN);
    if !is_file(file) {
        return Ok(trapped(Trap::Call));
    }
    if !are_mapped(hart, start, count) {
        return Ok(trapped(Trap::LoadAccess));
    }
    hart.emit(start, count)?;
    Ok(hart.go_on_with(Register::new(10), count))
}

/// Carries out the environment call that a7 names.
pub fn call(hart: &mut Hart) -> Result<Step, NoMemory>
    ensures ok { IfOk result (λ step. outcome_of hart.new step
        ≡ machine.call (state_of hart.old) (x (state_of hart.old) 17)) }
    ensures err { OnErr result (hart.new ≡ hart.old) }
    ensures records { IfErr result (λ _. x (state_of hart.old) 17 ≡ 64) }
{
    let number = hart.x(Register::new(17));
    let first = hart.x(Register::new(10));
    if number == EXIT {
        return Ok(Step::Ended(End::Exit((first % 0x100) as u8)));
    }
    if number != WRITE {
        return Ok(trapped(Trap::Call));
    }
    let start = hart.x(Register::new(11));
    let count = hart.x(Register::new(12));
    write(hart, first, start, count)
}
