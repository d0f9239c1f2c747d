//! Terms that have to be numbers: the run goes on where one has one value, and else parts by its values, up to the budget of targets.

ghost use Rattle.std.specs.Prelude.{◌≡◌, ◌==◌, ◌≤◌, All, IfOk, length};
ghost use Rattle.bv_dag.specs.Graphs.{number_of};
ghost use Rattle.sym_state.specs.Runs.{IsSampled};
ghost use Rattle.sym_state.specs.Symbolic.{IsFormed};
ghost use Rattle.sym_state.specs.Undecided.{IsPin};
ghost use Rattle.tree_core.specs.declared.choice.Choice.TheVariants.{Value as OfValue};
ghost use Rattle.run_leaves.specs.Leaving.{HasTextRoom};
ghost use Rattle.run_leaves.specs.Values.{AreValues, HasValue};
ghost use Rattle.run_sides.specs.Narrowing.{IsNarrower};
ghost use Rattle.node_split.specs.Splits.{AreSidesOf, IsForked};
ghost use Rattle.node_split.specs.Values.{IsLeft};
ghost use Rattle.node_split.specs.declared.values.Left.TheVariants.{Nothing};

use crate::forked::{Forked, leaf_kid, run_kid};
use crate::values::{Left, find_values};
use byte_list::Bytes;
use fork_spec::Found;
use fork_tree::Content;
use leaf_part::LeafPart;
use query_front::Shared;
use run_leaves::{cut_conflicts, cut_targets};
use run_sides::{Pin, value_side};
use std::alloc::{AllocError as NoMemory, Global};
use std::sync::Wait;
use sym_state::{Decided, State};
use tree_core::{Budgets, Choice, Kid};

// The side on which the term has this value, with an assignment on which it has.
fn found_side(alloc: Global, state: &State, pin: &Pin, at: &Found) -> Result<State, NoMemory>
    requires at { IsPin state.now pin.now.place pin.now.term }
    requires has { HasValue state.now pin.now.term at.now }
    ensures narrower { IfOk result (λ side. IsNarrower state.now side (OfValue at.now.value)
        (λ input. number_of state.now.terms pin.now.term input == at.now.value)) }
    ensures sampled { IfOk result IsSampled }
{
    let mut side = value_side(state, pin, at.value)?;
    side.sample_by(Bytes::from_slice(alloc, at.input.as_slice())?);
    Ok(side)
}

// A side for each value.
fn value_sides(
    alloc: Global,
    state: &State,
    pin: &Pin,
    found: &[Found],
) -> Result<Vec<Kid<Content<State, LeafPart>>>, NoMemory>
    requires at { IsPin state.now pin.now.place pin.now.term }
    requires each { All (HasValue state.now pin.now.term) found.now }
    ensures { IfOk result (λ kids. AreSidesOf state.now pin.now.term found.now kids.items) }
{
    let mut kids = Vec::with_capacity(alloc, found.len())?;
    for at in found {
        let side = found_side(alloc, state, pin, at)?;
        kids.push(run_kid(alloc, Choice::Value(at.value), side)?)?;
    }
    Ok(kids)
}

// Parts by the values, and what is left where there may be more.
fn part(
    alloc: Global,
    state: &State,
    pin: &Pin,
    found: Vec<Found>,
    rest: &mut State,
    left: Left,
    budgets: &Budgets,
) -> Result<Forked, NoMemory>
    requires formed { IsFormed state.now }
    requires writable { HasTextRoom state.now }
    requires at { IsPin state.now pin.now.place pin.now.term }
    requires values { AreValues state.now pin.now.term budgets.now.targets found.items }
    requires some { 1 ≤ length found.items }
    requires left { IsLeft state.now pin.now.term budgets.now found.items rest.old left }
    requires several { left ≡ Nothing → 2 ≤ length found.items }
    ensures { IfOk result (IsForked budgets.now state.now) }
{
    let mut kids = value_sides(alloc, state, pin, &found)?;
    let last = match left {
        Left::Nothing => return Ok(Forked::Split(kids)),
        Left::More => cut_targets(alloc, rest, pin.term, found)?,
        Left::Unknown(learnt) => cut_conflicts(alloc, rest, Choice::Rest, learnt)?,
    };
    kids.push(leaf_kid(Choice::Rest, last))?;
    Ok(Forked::Split(kids))
}

/// Goes on from a term that has to be a number: with its value where it has one, and else along its values, so many at most.
pub(crate) fn at_pin(
    rt: &impl Wait,
    alloc: Global,
    shared: &Shared,
    state: &State,
    pin: &Pin,
    budgets: &Budgets,
) -> Result<Forked, NoMemory>
    requires sampled { IsSampled state.now }
    requires writable { HasTextRoom state.now }
    requires at { IsPin state.now pin.now.place pin.now.term }
    requires some { 1 ≤ budgets.now.targets }
    ensures { IfOk result (IsForked budgets.now state.now) }
{
    let values = find_values(rt, alloc, shared, state, pin.term, budgets)?;
    if values.left.is_nothing() && values.found.len() == 1 {
        let decided = Decided::Number(values.found[0].value);
        return Ok(Forked::One {
            place: pin.place,
            decided,
        });
    }
    let (found, mut rest, left) = values.into_parts();
    part(alloc, state, pin, found, &mut rest, left, budgets)
}
