//! A question about a run.

ghost use Rattle.std.specs.Prelude.{◌≡◌, IfOk, true};
ghost use Rattle.bv_dag.specs.Graphs.{width_of};
ghost use Rattle.bv_dag.specs.Queries.{holds};
ghost use Rattle.query_front.specs.Asks.{IsAsked};
ghost use Rattle.sym_state.specs.Symbolic.{condition_of};

use query_front::{Asked, Shared, ask};
use std::alloc::{AllocError as NoMemory, Global};
use std::sync::Wait;
use sym_state::{State, listed};

/// Whether a run can go on where one more term is 1.
pub(crate) fn ask_run(
    rt: &impl Wait,
    alloc: Global,
    shared: &Shared,
    state: &State,
    new: usize,
    budget: u32,
) -> Result<Asked, NoMemory>
    requires bit { width_of state.now.terms new ≡ 1 }
    requires sampled { holds (condition_of state.now) state.now.sample ≡ true }
    ensures { IfOk result (IsAsked (condition_of state.now) new budget) }
{
    let terms = state.terms();
    let condition = listed(alloc, state.condition())?;
    ask(
        rt,
        alloc,
        shared,
        terms,
        condition,
        state.sample(),
        new,
        budget,
    )
}
