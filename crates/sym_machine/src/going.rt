//! To the next instruction, or to another.

ghost use Rattle.std.specs.Prelude.{◌≡◌, IfOk};
ghost use Rattle.rv_decode.specs.declared.ends.PathStep.TheVariants.{Target};
ghost use Rattle.rv_spec.specs.Arithmetic.{sum32};
ghost use Rattle.rv_spec.specs.Machine as machine;
ghost use Rattle.sym_state.specs.Symbolic.{set_value};
ghost use Rattle.sym_state.specs.Unfolded.{unfolded};
ghost use Rattle.sym_state.specs.Unfolding as symbolic;
ghost use Rattle.sym_state.specs.Values.{IsWide};
ghost use Rattle.sym_machine.specs.Steps.{Comes};

use crate::outcome::{Step, trapped};
use rv_decode::{PathStep, Register, Trap};
use std::alloc::AllocError as NoMemory;
use sym_state::{State, Value};

/// Goes to the next instruction.
pub(crate) fn go_on(state: &mut State) -> Step
    ensures running { result ≡ Step.Running }
    ensures state { state.new ≡ record state.old { pc = sum32 state.old.pc 4 } }
{
    state.go_to(state.address(4));
    Step::Running
}

/// Writes a register, and goes to the next instruction.
pub(crate) fn go_on_with(state: &mut State, register: Register, value: Value) -> Step
    requires wide { IsWide state.old.terms value }
    ensures running { result ≡ Step.Running }
    ensures state { state.new
        ≡ record state.old {
          pc = sum32 state.old.pc 4;
          registers = set_value state.old.registers register value;
        } }
{
    state.set(register, value);
    go_on(state)
}

/// Goes to a target, and writes the next instruction's address into a register.
pub(crate) fn jump_and_link(state: &mut State, rd: Register, target: u32) -> Step
    ensures comes { Comes state.old state.new result (λ c. machine.linked c rd target) }
    ensures terms { unfolded state.new ≡ symbolic.linked (unfolded state.old) rd target }
{
    if target % 4 != 0 {
        return trapped(Trap::FetchMisaligned);
    }
    let after = state.address(4);
    state.set(rd, Value::Number(after));
    state.go_to(target);
    Step::Running
}

/// Goes to an address out of a register, which the path notes.
pub(crate) fn jump_to_register(
    state: &mut State,
    rd: Register,
    target: u32,
) -> Result<Step, NoMemory>
    ensures comes { IfOk result (λ step. Comes state.old state.new step
        (λ c. machine.linked (machine.noted c (Target target)) rd target)) }
    ensures terms { IfOk result (λ _. unfolded state.new
        ≡ symbolic.linked (symbolic.noted (unfolded state.old) (Target target)) rd target) }
{
    state.note(PathStep::Target(target))?;
    Ok(jump_and_link(state, rd, target))
}

/// Goes along one side of a conditional branch. The path notes it before the target is tested.
pub(crate) fn branch(state: &mut State, taken: bool, target: u32) -> Result<Step, NoMemory>
    ensures comes { IfOk result (λ step. Comes state.old state.new step
        (λ c. machine.branch c taken target)) }
    ensures terms { IfOk result (λ _. unfolded state.new
        ≡ symbolic.branch (unfolded state.old) taken target) }
{
    if !taken {
        state.note(PathStep::NotTaken)?;
        return Ok(go_on(state));
    }
    state.note(PathStep::Taken)?;
    if target % 4 != 0 {
        return Ok(trapped(Trap::FetchMisaligned));
    }
    state.go_to(target);
    Ok(Step::Running)
}
