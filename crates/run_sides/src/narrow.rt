//! A run on one side of a fork.

ghost use Rattle.std.specs.Prelude.{◌≡◌, OnOk};
ghost use Rattle.bv_dag.specs.Graphs.{width_of};
ghost use Rattle.tree_core.specs.Choices.{IsSmallChoice};
ghost use Rattle.sym_state.specs.Moves.{narrowed};

use std::alloc::AllocError as NoMemory;
use sym_state::State;
use tree_core::Choice;

/// Narrows a run to the side of a fork on which a term is 1. Its sample stays.
pub(crate) fn narrow(state: &mut State, choice: Choice, term: usize) -> Result<(), NoMemory>
    requires small { IsSmallChoice choice }
    requires bit { width_of state.old.terms term ≡ 1 }
    ensures { OnOk result (state.new ≡ narrowed state.old choice term state.old.sample) }
{
    state.choose(choice)?;
    state.assert(term)
}
