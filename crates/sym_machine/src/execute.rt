//! One instruction: the cases are those of the machine, over numbers and terms.

ghost use Rattle.std.specs.Prelude.{◌≡◌, ◌<◌, true, ℕ, List, IfOk, IfErr};
ghost use Rattle.rv_decode.specs.Instructions.{ShiftsBelow32};
ghost use Rattle.rv_decode.specs.declared.instr.Instr.TheVariants.{Branch, Jalr};
ghost use Rattle.rv_spec.specs.Arithmetic as arithmetic;
ghost use Rattle.rv_spec.specs.Machine as machine;
ghost use Rattle.rv_spec.specs.Machine.{x};
ghost use Rattle.sym_state.specs.Expressions.{combined_of, value_expression};
ghost use Rattle.sym_state.specs.Symbolic.{KnowsTruth, concrete, most_steps, stands_for};
ghost use Rattle.sym_state.specs.Unfolded.{expression_at, unfolded};
ghost use Rattle.sym_state.specs.Unfolding as symbolic;
ghost use Rattle.sym_state.specs.Values.{IsWide, worth_of};
ghost use Rattle.sym_machine.specs.Steps.{Carries, Comes, Steps};
ghost use Rattle.sym_machine.specs.Stops.{DecidesBy, Stops};

use crate::call::call;
use crate::decoded::Decoded;
use crate::fetch::fetch;
use crate::going::{branch, go_on, go_on_with, jump_and_link, jump_to_register};
use crate::halt::Halt;
use crate::loading::load;
use crate::needs::{number_at, side_of};
use crate::outcome::{Step, trapped};
use crate::storing::store;
use rv_decode::{ImmediateOp, Instr, Register, RegisterOp, ShiftOp, Test, Trap};
use std::alloc::AllocError as NoMemory;
use sym_state::{State, Value};

/// The operation of two registers that an operation with an immediate is.
fn of_immediate(op: ImmediateOp) -> RegisterOp
    ensures computes { (a b : ℕ)
        → arithmetic.combined result a b ≡ arithmetic.with_immediate op a b }
    ensures op { result ≡ symbolic.of_immediate op }
{
    match op {
        ImmediateOp::Addi => RegisterOp::Add,
        ImmediateOp::Slti => RegisterOp::Slt,
        ImmediateOp::Sltiu => RegisterOp::Sltu,
        ImmediateOp::Xori => RegisterOp::Xor,
        ImmediateOp::Ori => RegisterOp::Or,
        ImmediateOp::Andi => RegisterOp::And,
    }
}

/// The operation of two registers that a shift by a number below 32 is.
fn of_shift(op: ShiftOp) -> RegisterOp
    ensures computes { (a amount : ℕ) → amount < 32
        → arithmetic.combined result a amount ≡ arithmetic.shifted op a amount }
    ensures op { result ≡ symbolic.of_shift op }
{
    match op {
        ShiftOp::Slli => RegisterOp::Sll,
        ShiftOp::Srli => RegisterOp::Srl,
        ShiftOp::Srai => RegisterOp::Sra,
    }
}

/// Writes what an instruction computes of a register and a value.
fn compute(
    state: &mut State,
    op: RegisterOp,
    rd: Register,
    rs1: Register,
    second: Value,
) -> Result<Step, NoMemory>
    requires wide { IsWide state.old.terms second }
    ensures comes { IfOk result (λ step. (of : machine.State → ℕ)
        → ((input : List ℕ) → stands_for state.old input ≡ true
        → of (concrete state.old input) ≡ worth_of state.old.terms input second) →
        Comes state.old state.new step
        (λ c. machine.to_register c rd (arithmetic.combined op (x c rs1) (of c)))) }
    ensures terms { IfOk result (λ _. unfolded state.new
        ≡ symbolic.to_register (unfolded state.old) rd
        (combined_of op (expression_at (unfolded state.old).registers rs1)
        (value_expression state.old.terms second))) }
{
    let first = state.value(rs1);
    let value = state.combined(op, first, second)?;
    Ok(go_on_with(state, rd, value))
}

/// Goes along the side of a conditional branch that its registers say.
fn branch_on(
    state: &mut State,
    test: Test,
    rs1: Register,
    rs2: Register,
    offset: u32,
) -> Result<Step, Halt>
    requires knows { KnowsTruth state.old }
    requires decides { DecidesBy state.old (Branch test rs1 rs2 offset) }
    ensures ok { IfOk result (λ step. Carries state.old state.new step
        (Branch test rs1 rs2 offset)) }
    ensures err { IfErr result (Stops state.old state.new) }
{
    let target = state.address(offset);
    let (first, second) = (state.value(rs1), state.value(rs2));
    let bit = state.passes(test, first, second)?;
    let taken = side_of(state, bit)?;
    let step = branch(state, taken, target)?;
    Ok(step)
}

/// Jumps to the sum of a register and an offset, with its lowest bit cleared.
fn jump_register(state: &mut State, rd: Register, rs1: Register, offset: u32) -> Result<Step, Halt>
    requires knows { KnowsTruth state.old }
    requires decides { DecidesBy state.old (Jalr rd rs1 offset) }
    ensures ok { IfOk result (λ step. Carries state.old state.new step (Jalr rd rs1 offset)) }
    ensures err { IfErr result (Stops state.old state.new) }
{
    let base = state.value(rs1);
    let sum = state.combined(RegisterOp::Add, base, Value::Number(offset))?;
    let target = state.cleared(sum)?;
    let target = number_at(state, 1, target)?;
    let step = jump_to_register(state, rd, target)?;
    Ok(step)
}

/// Carries out an instruction, where all that it needs is known.
fn execute(state: &mut State, instr: Instr) -> Result<Step, Halt>
    requires knows { KnowsTruth state.old }
    requires shifts { ShiftsBelow32 instr }
    requires decides { DecidesBy state.old instr }
    ensures ok { IfOk result (λ step. Carries state.old state.new step instr) }
    ensures err { IfErr result (Stops state.old state.new) }
{
    match instr {
        Instr::Lui { rd, upper } => Ok(go_on_with(state, rd, Value::Number(upper))),
        Instr::Auipc { rd, upper } => {
            let address = state.address(upper);
            Ok(go_on_with(state, rd, Value::Number(address)))
        }
        Instr::Jal { rd, offset } => Ok(jump_and_link(state, rd, state.address(offset))),
        Instr::Jalr { rd, rs1, offset } => jump_register(state, rd, rs1, offset),
        Instr::Branch {
            test,
            rs1,
            rs2,
            offset,
        } => branch_on(state, test, rs1, rs2, offset),
        Instr::Load {
            width,
            rd,
            rs1,
            offset,
        } => load(state, width, rd, rs1, offset),
        Instr::Store {
            width,
            rs1,
            rs2,
            offset,
        } => store(state, width, rs1, rs2, offset),
        Instr::Immediate {
            op,
            rd,
            rs1,
            immediate,
        } => Ok(compute(state, of_immediate(op), rd, rs1, Value::Number(immediate))?),
        Instr::ShiftImmediate {
            op,
            rd,
            rs1,
            amount,
        } => Ok(compute(state, of_shift(op), rd, rs1, Value::Number(amount))?),
        Instr::Binary { op, rd, rs1, rs2 } => {
            let second = state.value(rs2);
            Ok(compute(state, op, rd, rs1, second)?)
        }
        Instr::Fence => Ok(go_on(state)),
        Instr::Ecall => call(state),
        Instr::Ebreak => Ok(trapped(Trap::Break)),
    }
}

/// One step, where all that it needs is known.
pub(crate) fn step(state: &mut State, decoded: &mut Decoded) -> Result<Step, Halt>
    requires knows { KnowsTruth state.old }
    requires few { state.old.steps < most_steps }
    ensures ok { IfOk result (Steps state.old state.new) }
    ensures err { IfErr result (Stops state.old state.new) }
{
    let pc = state.pc();
    let step = match fetch(state)? {
        Ok(word) => match decoded.decode(pc, word) {
            Some(instr) => execute(state, instr)?,
            None => trapped(Trap::Illegal),
        },
        Err(trap) => trapped(trap),
    };
    state.count();
    Ok(step)
}
