//! The leaves of runs that go on no more.

ghost use Rattle.std.specs.Prelude.{◌≡◌, ◌%◌, ◌<◌, ◌≤◌, [], IfOk, None, Some};
ghost use Rattle.sym_state.specs.Moves.{MakesTerm};
ghost use Rattle.sym_state.specs.Programs.{Program};
ghost use Rattle.sym_state.specs.Runs.{IsEnded, IsOpen, IsSampled};
ghost use Rattle.sym_state.specs.Symbolic.{value_at};
ghost use Rattle.sym_state.specs.Values.{worth_of};
ghost use Rattle.sym_state.specs.declared.ended.RunEnd.TheVariants.{Exits, Traps};
ghost use Rattle.tree_core.specs.declared.budgets.Budgets.{Budgets};
ghost use Rattle.tree_core.specs.declared.cause.Cause.TheVariants.{Nodes, Steps};
ghost use Rattle.run_leaves.specs.Leaving.{HasTextRoom};
ghost use Rattle.run_leaves.specs.Places.{IsLeafAt, end_place};

use crate::leaf::{leaf_of, leaf_terms, sample_of};
use fork_spec::LeafEnd;
use leaf_part::{Evidence, LeafPart};
use rv_decode::{Register, Trap};
use std::alloc::{AllocError as NoMemory, Global};
use sym_state::{RunEnd, State};
use tree_core::Cause;

/// The leaf of a run that has spent its steps. The run is of no use after that.
pub fn cut_steps(alloc: Global, state: &mut State) -> Result<LeafPart, NoMemory>
    requires writable { HasTextRoom state.old }
    ensures sample { IfOk result (λ part. part.sample ≡ Some state.old.sample) }
    ensures leaf { IfOk result (λ part. (p : Program) (budgets : Budgets)
        → budgets.steps ≡ state.old.steps → IsOpen p state.old → IsSampled state.old
        → IsLeafAt p budgets [] None (end_place state.old (Some Steps)) part) }
{
    let terms = leaf_terms(alloc, state, &[])?;
    let sample = Some(sample_of(alloc, state)?);
    leaf_of(
        alloc,
        state,
        terms,
        LeafEnd::Cut(Cause::Steps),
        sample,
        None,
    )
}

/// The leaf of a run that may not part, since there are so many nodes. The run is of no use after that.
pub fn cut_nodes(alloc: Global, state: &mut State, nodes: u32) -> Result<LeafPart, NoMemory>
    requires writable { HasTextRoom state.old }
    ensures sample { IfOk result (λ part. part.sample ≡ None) }
    ensures leaf { IfOk result (λ part. (p : Program) (budgets : Budgets)
        → state.old.steps < budgets.steps → budgets.nodes ≤ nodes → IsOpen p state.old
        → IsLeafAt p budgets [] (Some nodes) (end_place state.old (Some Nodes)) part) }
{
    let terms = leaf_terms(alloc, state, &[])?;
    let end = LeafEnd::Cut(Cause::Nodes);
    let evidence = Some(Evidence::Nodes(nodes));
    leaf_of(alloc, state, terms, end, None, evidence)
}

// The leaf of a run whose runs have all trapped so.
fn trapped(alloc: Global, state: &mut State, trap: Trap) -> Result<LeafPart, NoMemory>
    requires writable { HasTextRoom state.old }
    ensures sample { IfOk result (λ part. part.sample ≡ Some state.old.sample) }
    ensures leaf { IfOk result (λ part. (p : Program) (budgets : Budgets)
        → IsEnded p state.old (Traps trap) → IsSampled state.old
        → state.old.steps ≤ budgets.steps
        → IsLeafAt p budgets [] None (end_place state.old None) part) }
{
    let terms = leaf_terms(alloc, state, &[])?;
    let sample = Some(sample_of(alloc, state)?);
    leaf_of(alloc, state, terms, LeafEnd::Traps(trap), sample, None)
}

// The term of the status of an exit: the low byte of x10.
fn exit_status(state: &mut State) -> Result<usize, NoMemory>
    ensures { IfOk result (λ status. MakesTerm state.old state.new 8 status
        (λ input. worth_of state.old.terms input (value_at state.old.registers 10) % 256)) }
{
    let value = state.value(Register::new(10));
    let byte = state.byte_at(value, 0)?;
    state.byte_term(byte)
}

// The leaf of a run whose runs have all exited.
fn exited(alloc: Global, state: &mut State) -> Result<LeafPart, NoMemory>
    requires writable { HasTextRoom state.old }
    ensures sample { IfOk result (λ part. part.sample ≡ Some state.old.sample) }
    ensures leaf { IfOk result (λ part. (p : Program) (budgets : Budgets)
        → IsEnded p state.old Exits → IsSampled state.old
        → state.old.steps ≤ budgets.steps
        → IsLeafAt p budgets [] None (end_place state.old None) part) }
{
    let status = exit_status(state)?;
    let terms = leaf_terms(alloc, state, &[status])?;
    let status = terms.more[0];
    let sample = Some(sample_of(alloc, state)?);
    leaf_of(alloc, state, terms, LeafEnd::Exits { status }, sample, None)
}

/// The leaf of a run whose runs have all ended so. The run is of no use after that.
pub fn finish(alloc: Global, state: &mut State, end: RunEnd) -> Result<LeafPart, NoMemory>
    requires writable { HasTextRoom state.old }
    ensures sample { IfOk result (λ part. part.sample ≡ Some state.old.sample) }
    ensures leaf { IfOk result (λ part. (p : Program) (budgets : Budgets)
        → IsEnded p state.old end → IsSampled state.old
        → state.old.steps ≤ budgets.steps
        → IsLeafAt p budgets [] None (end_place state.old None) part) }
{
    match end {
        RunEnd::Traps(trap) => trapped(alloc, state, trap),
        RunEnd::Exits => exited(alloc, state),
    }
}
