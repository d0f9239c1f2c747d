//! Loads. A load needs to know whether its address is misaligned, where it may be, and then its page, but not the place in it.

ghost use Rattle.std.specs.Prelude.{◌≡◌, ◌<◌, ◌^◌, ℕ, true, List, IfOk, IfErr, nat_lt, not};
ghost use Rattle.std.specs.Int.Bits.{bit_and};
ghost use Rattle.bv_dag.specs.Graphs.{number_of};
ghost use Rattle.rv_decode.specs.declared.instr.Instr.TheVariants.{Load};
ghost use Rattle.rv_spec.specs.Arithmetic.{one_where};
ghost use Rattle.rv_spec.specs.Machine as machine;
ghost use Rattle.term_trees.specs.Trees.{tree_of};
ghost use Rattle.sym_state.specs.Expressions.{Number as ANumber, Unknown};
ghost use Rattle.sym_state.specs.Moves.{IsGrown, MakesValue};
ghost use Rattle.sym_state.specs.Symbolic.{IsFormed, KnowsTruth, concrete, stands_for};
ghost use Rattle.sym_state.specs.Values.{IsUnknown};
ghost use Rattle.sym_machine.specs.Loading.{CarriesLoad, DecidesLoad, IsAligned, IsOnPage, mask_of, page_place};
ghost use Rattle.sym_machine.specs.Steps.{Carries};
ghost use Rattle.sym_machine.specs.Stops.{DecidesBy, Stops};

use crate::going::go_on_with;
use crate::halt::Halt;
use crate::needs::number_at;
use crate::outcome::{Step, trapped};
use crate::transfer::{is_mapped, loaded};
use rv_decode::{LoadWidth, Register, RegisterOp, Trap};
use rv_machine::is_load_aligned;
use std::alloc::AllocError as NoMemory;
use sym_state::{State, Value, bytes_of};

/// How many pages there are.
const PAGES: u32 = 1 << 24;

/// Loads from an address that is known into a register.
fn load_at(
    state: &mut State,
    width: LoadWidth,
    rd: Register,
    address: u32,
) -> Result<Step, NoMemory>
    ensures { IfOk result (λ step. (of : machine.State → ℕ)
        → ((input : List ℕ) → stands_for state.old input ≡ true
        → of (concrete state.old input) ≡ address)
        → CarriesLoad of state.old state.new step width rd (ANumber address)) }
{
    if !is_load_aligned(width, address) {
        return Ok(trapped(Trap::LoadMisaligned));
    }
    if !is_mapped(state, address) {
        return Ok(trapped(Trap::LoadAccess));
    }
    let value = loaded(state, width, address)?;
    Ok(go_on_with(state, rd, value))
}

/// 1 where one of these bits of a term is 1, else 0.
fn any_of(state: &mut State, mask: u32, term: usize) -> Result<Value, NoMemory>
    requires address { IsUnknown state.old.terms 32 term }
    ensures { IfOk result (λ value. MakesValue state.old state.new value
        (λ input. one_where (nat_lt 0 (bit_and (number_of state.old.terms term input) mask)))) }
{
    let bits = state.combined(RegisterOp::And, Value::Term(term), Value::Number(mask))?;
    state.combined(RegisterOp::Sltu, Value::Number(0), bits)
}

/// The bits that are 0 in an aligned address.
fn mask_of(width: LoadWidth) -> u32
    ensures { result ≡ mask_of width }
{
    bytes_of(width) - 1
}

/// The place of the page among what the step decides: behind the word, and behind whether the address is misaligned.
fn page_place(width: LoadWidth) -> usize
    ensures { result ≡ page_place width }
{
    if mask_of(width) == 0 { 1 } else { 2 }
}

/// Whether the address that a term is is misaligned.
pub(crate) fn is_misaligned(state: &mut State, width: LoadWidth, term: usize) -> Result<bool, Halt>
    requires formed { IsFormed state.old }
    requires knows { KnowsTruth state.old }
    requires address { IsUnknown state.old.terms 32 term }
    requires decides { DecidesLoad state.old width term }
    ensures grown { IfOk result (λ _. IsGrown state.old state.new) }
    ensures ok { IfOk result (λ misaligned. (input : List ℕ) → stands_for state.old input ≡ true
        → machine.is_load_aligned width (number_of state.old.terms term input)
        ≡ not misaligned) }
    ensures err { IfErr result (Stops state.old state.new) }
{
    let mask = mask_of(width);
    if mask == 0 {
        return Ok(false);
    }
    let misaligned = any_of(state, mask, term)?;
    Ok(number_at(state, 1, misaligned)? == 1)
}

/// The page of the address that a term is. A number that was told of a run that stands for no assignment may be past the last page.
pub(crate) fn page_of(state: &mut State, width: LoadWidth, term: usize) -> Result<u32, Halt>
    requires knows { KnowsTruth state.old }
    requires address { IsUnknown state.old.terms 32 term }
    requires decides { DecidesLoad state.old width term }
    requires aligned { IsAligned state.old width term }
    ensures grown { IfOk result (λ _. IsGrown state.old state.new) }
    ensures ok { IfOk result (IsOnPage state.old term) }
    ensures small { IfOk result (λ page. page < 2 ^ 24) }
    ensures err { IfErr result (Stops state.old state.new) }
{
    let page = state.combined(RegisterOp::Srl, Value::Term(term), Value::Number(8))?;
    Ok(number_at(state, page_place(width), page)? % PAGES)
}

/// Loads from this page into a register.
fn load_on(
    state: &mut State,
    width: LoadWidth,
    rd: Register,
    page: u32,
    term: usize,
) -> Result<Step, NoMemory>
    requires address { IsUnknown state.old.terms 32 term }
    requires aligned { IsAligned state.old width term }
    requires page { IsOnPage state.old term page }
    requires small { page < 2 ^ 24 }
    ensures { IfOk result (λ step. (of : machine.State → ℕ)
        → ((input : List ℕ) → stands_for state.old input ≡ true
        → of (concrete state.old input) ≡ number_of state.old.terms term input)
        → CarriesLoad of state.old state.new step width rd
        (Unknown (tree_of state.old.terms term))) }
{
    if state.flags(page).is_none() {
        return Ok(trapped(Trap::LoadAccess));
    }
    let value = state.loaded_on(width, page, term)?;
    Ok(go_on_with(state, rd, value))
}

/// Loads from the address that a term is into a register.
fn load_by(state: &mut State, width: LoadWidth, rd: Register, term: usize) -> Result<Step, Halt>
    requires formed { IsFormed state.old }
    requires knows { KnowsTruth state.old }
    requires address { IsUnknown state.old.terms 32 term }
    requires decides { DecidesLoad state.old width term }
    ensures ok { IfOk result (λ step. (of : machine.State → ℕ)
        → ((input : List ℕ) → stands_for state.old input ≡ true
        → of (concrete state.old input) ≡ number_of state.old.terms term input)
        → CarriesLoad of state.old state.new step width rd
        (Unknown (tree_of state.old.terms term))) }
    ensures err { IfErr result (Stops state.old state.new) }
{
    if is_misaligned(state, width, term)? {
        return Ok(trapped(Trap::LoadMisaligned));
    }
    let page = page_of(state, width, term)?;
    let step = load_on(state, width, rd, page, term)?;
    Ok(step)
}

/// Loads into a register.
pub(crate) fn load(
    state: &mut State,
    width: LoadWidth,
    rd: Register,
    rs1: Register,
    offset: u32,
) -> Result<Step, Halt>
    requires knows { KnowsTruth state.old }
    requires decides { DecidesBy state.old (Load width rd rs1 offset) }
    ensures ok { IfOk result (λ step. Carries state.old state.new step (Load width rd rs1 offset)) }
    ensures err { IfErr result (Stops state.old state.new) }
{
    let base = state.value(rs1);
    let sum = state.combined(RegisterOp::Add, base, Value::Number(offset))?;
    match sum {
        Value::Number(address) => Ok(load_at(state, width, rd, address)?),
        Value::Term(term) => load_by(state, width, rd, term),
    }
}
