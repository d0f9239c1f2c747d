//! One instruction: the cases are those of the definitions.

ghost use Rattle.std.specs.Prelude.{◌≡◌, IfErr, IfOk, OnErr};
ghost use Rattle.rv_decode.specs.Instructions.{ShiftsBelow32};
ghost use Rattle.rv_decode.specs.declared.ends.PathStep.TheVariants.{Target};
ghost use Rattle.rv_decode.specs.declared.instr.Instr.TheVariants.{Jalr};
ghost use Rattle.rv_spec.specs.Machine as machine;
ghost use Rattle.rv_machine.specs.HartStates.{state_of};
ghost use Rattle.rv_machine.specs.Steps.{Records, outcome_of};

use crate::arithmetic::{combined, passes, shifted, with_immediate};
use crate::call::call;
use crate::hart::Hart;
use crate::step::{Step, trapped};
use crate::transfer::{load, store};
use rv_decode::{Instr, PathStep, Register, Trap};
use std::alloc::AllocError as NoMemory;

/// Goes to a target, and writes the next instruction's address into a register.
fn jump_and_link(hart: &mut Hart, rd: Register, target: u32) -> Step
    ensures { outcome_of hart.new result ≡ machine.linked (state_of hart.old) rd target }
{
    if target % 4 != 0 {
        return trapped(Trap::FetchMisaligned);
    }
    let after = hart.address(4);
    hart.set(rd, after);
    hart.go_to(target);
    Step::Running
}

/// Jumps to an address in a register, which the path notes.
fn jump_to_register(hart: &mut Hart, rd: Register, target: u32) -> Result<Step, NoMemory>
    ensures ok { IfOk result (λ step. outcome_of hart.new step
        ≡ machine.linked (machine.noted (state_of hart.old) (Target target)) rd target) }
    ensures err { OnErr result (hart.new ≡ hart.old) }
{
    hart.note(PathStep::Target(target))?;
    Ok(jump_and_link(hart, rd, target))
}

/// Goes along one side of a conditional branch. The path notes it before the target is tested.
fn branch(hart: &mut Hart, taken: bool, target: u32) -> Result<Step, NoMemory>
    ensures ok { IfOk result (λ step. outcome_of hart.new step
        ≡ machine.branch (state_of hart.old) taken target) }
    ensures err { OnErr result (hart.new ≡ hart.old) }
{
    if !taken {
        hart.note(PathStep::NotTaken)?;
        return Ok(hart.go_on());
    }
    hart.note(PathStep::Taken)?;
    if target % 4 != 0 {
        return Ok(trapped(Trap::FetchMisaligned));
    }
    hart.go_to(target);
    Ok(Step::Running)
}

/// Jumps to the sum of a register and an offset, with its lowest bit cleared.
fn jump_register(
    hart: &mut Hart,
    rd: Register,
    rs1: Register,
    offset: u32,
) -> Result<Step, NoMemory>
    ensures ok { IfOk result (λ step. outcome_of hart.new step
        ≡ machine.execute (state_of hart.old) (Jalr rd rs1 offset)) }
    ensures err { OnErr result (hart.new ≡ hart.old) }
{
    let sum = hart.x(rs1).wrapping_add(offset);
    jump_to_register(hart, rd, sum / 2 * 2)
}

/// Carries out an instruction.
///
/// # Errors
///
/// Where memory is wanting for the path or the output; nothing changes then.
pub fn execute(hart: &mut Hart, instr: Instr) -> Result<Step, NoMemory>
    requires { ShiftsBelow32 instr }
    ensures ok { IfOk result (λ step. outcome_of hart.new step
        ≡ machine.execute (state_of hart.old) instr) }
    ensures err { OnErr result (hart.new ≡ hart.old) }
    ensures records { IfErr result (λ _. Records (state_of hart.old) instr) }
{
    match instr {
        Instr::Lui { rd, upper } => Ok(hart.go_on_with(rd, upper)),
        Instr::Auipc { rd, upper } => Ok(hart.go_on_with(rd, hart.address(upper))),
        Instr::Jal { rd, offset } => Ok(jump_and_link(hart, rd, hart.address(offset))),
        Instr::Jalr { rd, rs1, offset } => jump_register(hart, rd, rs1, offset),
        Instr::Branch {
            test,
            rs1,
            rs2,
            offset,
        } => branch(
            hart,
            passes(test, hart.x(rs1), hart.x(rs2)),
            hart.address(offset),
        ),
        Instr::Load {
            width,
            rd,
            rs1,
            offset,
        } => Ok(load(hart, width, rd, hart.x(rs1).wrapping_add(offset))),
        Instr::Store {
            width,
            rs1,
            rs2,
            offset,
        } => Ok(store(hart, width, hart.x(rs1).wrapping_add(offset), hart.x(rs2))),
        Instr::Immediate {
            op,
            rd,
            rs1,
            immediate,
        } => Ok(hart.go_on_with(rd, with_immediate(op, hart.x(rs1), immediate))),
        Instr::ShiftImmediate {
            op,
            rd,
            rs1,
            amount,
        } => Ok(hart.go_on_with(rd, shifted(op, hart.x(rs1), amount))),
        Instr::Binary { op, rd, rs1, rs2 } => {
            Ok(hart.go_on_with(rd, combined(op, hart.x(rs1), hart.x(rs2))))
        }
        Instr::Fence => Ok(hart.go_on()),
        Instr::Ecall => call(hart),
        Instr::Ebreak => Ok(trapped(Trap::Break)),
    }
}
