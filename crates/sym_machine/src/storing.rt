//! Stores. A store needs to know what a load of as many bytes does: whether its address is misaligned, where it may be, and then its
//! page, but not the place in it.

ghost use Rattle.std.specs.Prelude.{◌≡◌, ◌<◌, ◌^◌, ℕ, true, List, IfOk, IfErr};
ghost use Rattle.bv_dag.specs.Graphs.{number_of};
ghost use Rattle.fork_spec.specs.Decisions.{as_load};
ghost use Rattle.rv_decode.specs.declared.instr.Instr.TheVariants.{Store};
ghost use Rattle.rv_spec.specs.Machine as machine;
ghost use Rattle.term_trees.specs.Trees.{tree_of};
ghost use Rattle.sym_state.specs.Expressions.{Number as ANumber, Unknown};
ghost use Rattle.sym_state.specs.Symbolic.{IsFormed, KnowsTruth, concrete, stands_for};
ghost use Rattle.sym_state.specs.Values.{IsUnknown};
ghost use Rattle.sym_machine.specs.Loading.{DecidesLoad, IsAligned, IsOnPage};
ghost use Rattle.sym_machine.specs.Steps.{Carries};
ghost use Rattle.sym_machine.specs.Stops.{DecidesBy, Stops};
ghost use Rattle.sym_machine.specs.Storing.{CarriesStore};

use crate::going::go_on;
use crate::halt::Halt;
use crate::loading::{is_misaligned, page_of};
use crate::outcome::{Step, trapped};
use crate::transfer::{can_write, put};
use rv_decode::{Register, RegisterOp, StoreWidth, Trap};
use rv_machine::{PAGE, is_store_aligned};
use std::alloc::AllocError as NoMemory;
use sym_state::{State, Value, as_load};

/// Stores a register to an address that is known.
fn store_at(
    state: &mut State,
    width: StoreWidth,
    address: u32,
    rs2: Register,
) -> Result<Step, NoMemory>
    ensures { IfOk result (λ step. (of : machine.State → ℕ)
        → ((input : List ℕ) → stands_for state.old input ≡ true
        → of (concrete state.old input) ≡ address)
        → CarriesStore of state.old state.new step width rs2 (ANumber address)) }
{
    if !is_store_aligned(width, address) {
        return Ok(trapped(Trap::StoreMisaligned));
    }
    if !can_write(state, address / PAGE) {
        return Ok(trapped(Trap::StoreAccess));
    }
    let value = state.value(rs2);
    put(state, width, address, value)?;
    Ok(go_on(state))
}

/// Stores a register to this page.
fn store_on(
    state: &mut State,
    width: StoreWidth,
    page: u32,
    term: usize,
    rs2: Register,
) -> Result<Step, NoMemory>
    requires address { IsUnknown state.old.terms 32 term }
    requires aligned { IsAligned state.old (as_load width) term }
    requires page { IsOnPage state.old term page }
    requires small { page < 2 ^ 24 }
    ensures { IfOk result (λ step. (of : machine.State → ℕ)
        → ((input : List ℕ) → stands_for state.old input ≡ true
        → of (concrete state.old input) ≡ number_of state.old.terms term input)
        → CarriesStore of state.old state.new step width rs2
        (Unknown (tree_of state.old.terms term))) }
{
    if !can_write(state, page) {
        return Ok(trapped(Trap::StoreAccess));
    }
    let value = state.value(rs2);
    state.store_on(width, page, term, value)?;
    Ok(go_on(state))
}

/// Stores a register to the address that a term is.
fn store_by(state: &mut State, width: StoreWidth, term: usize, rs2: Register) -> Result<Step, Halt>
    requires formed { IsFormed state.old }
    requires knows { KnowsTruth state.old }
    requires address { IsUnknown state.old.terms 32 term }
    requires decides { DecidesLoad state.old (as_load width) term }
    ensures ok { IfOk result (λ step. (of : machine.State → ℕ)
        → ((input : List ℕ) → stands_for state.old input ≡ true
        → of (concrete state.old input) ≡ number_of state.old.terms term input)
        → CarriesStore of state.old state.new step width rs2
        (Unknown (tree_of state.old.terms term))) }
    ensures err { IfErr result (Stops state.old state.new) }
{
    let load = as_load(width);
    if is_misaligned(state, load, term)? {
        return Ok(trapped(Trap::StoreMisaligned));
    }
    let page = page_of(state, load, term)?;
    let step = store_on(state, width, page, term, rs2)?;
    Ok(step)
}

/// Stores a register.
pub(crate) fn store(
    state: &mut State,
    width: StoreWidth,
    rs1: Register,
    rs2: Register,
    offset: u32,
) -> Result<Step, Halt>
    requires knows { KnowsTruth state.old }
    requires decides { DecidesBy state.old (Store width rs1 rs2 offset) }
    ensures ok { IfOk result (λ step. Carries state.old state.new step
        (Store width rs1 rs2 offset)) }
    ensures err { IfErr result (Stops state.old state.new) }
{
    let base = state.value(rs1);
    let sum = state.combined(RegisterOp::Add, base, Value::Number(offset))?;
    match sum {
        Value::Number(address) => Ok(store_at(state, width, address, rs2)?),
        Value::Term(term) => store_by(state, width, term, rs2),
    }
}
