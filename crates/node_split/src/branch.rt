//! Branches that may go both ways: the run goes on along the side of its sample where the other has no assignment, and else parts
//! into two. A side of which the budget of conflicts leaves open whether it has one is a leaf.

ghost use Rattle.std.specs.Prelude.{◌≡◌, ◌∷◌, [], ◌<◌, ◌≤◌, ℕ, List, All, IfNone, IfOk, IfSome, OnOk, if◌then◌else◌, length, true, false};
ghost use Rattle.bv_dag.specs.Graphs.{number_of, width_of};
ghost use Rattle.query_front.specs.Asks.{IsAsked};
ghost use Rattle.query_front.specs.declared.asked.Asked.TheVariants.{Spent};
ghost use Rattle.sym_state.specs.Runs.{IsSampled};
ghost use Rattle.sym_state.specs.Symbolic.{Symbolic, condition_of, stands_for};
ghost use Rattle.sym_state.specs.Undecided.{IsBranch};
ghost use Rattle.tree_core.specs.declared.budgets.Budgets.{Budgets};
ghost use Rattle.run_leaves.specs.Leaving.{HasTextRoom};
ghost use Rattle.run_sides.specs.Sides.{IsSideTested, branch_choice, is_side};
ghost use Rattle.node_split.specs.Splits.{IsBranchSide, IsForked, IsSide};

use crate::asking::ask_run;
use crate::forked::{Forked, leaf_kid, run_kid, sampled};
use byte_list::Bytes;
use fork_tree::Content;
use leaf_part::{LeafPart, Learnt};
use query_front::{Asked, Shared};
use run_leaves::{cut_conflicts, sample_of};
use run_sides::{SIDE, Tested, choice_of, take_side, with_test};
use std::alloc::{AllocError as NoMemory, Global};
use std::sync::Wait;
use sym_state::{Decided, State};
use tree_core::{Budgets, Kid};

// The side of a branch, with an assignment that is on it.
fn open_side(
    alloc: Global,
    tested: Tested,
    side: bool,
    sample: Bytes,
) -> Result<Kid<Content<State, LeafPart>>, NoMemory>
    requires bit { width_of tested.run.terms tested.test ≡ 1 }
    requires each_input { length sample ≡ tested.run.terms.inputs }
    ensures bytes { OnOk result (All (λ b. b < 256) sample) }
    ensures side { IfOk result (λ kid. (s : Symbolic) (term : ℕ) → IsBranch s term
        → IsSideTested s term side tested
        → stands_for s sample ≡ true → is_side side (number_of s.terms term sample) ≡ true
        → IsSide s (branch_choice side)
        (λ input. is_side side (number_of s.terms term input)) kid) }
{
    let mut run = take_side(tested, side)?;
    run.sample_by(sample);
    run_kid(alloc, choice_of(side), run)
}

// The side of a branch of which the budget of conflicts leaves open whether it has an assignment.
fn spent_side(
    alloc: Global,
    tested: &mut Tested,
    side: bool,
    learnt: Learnt,
) -> Result<Kid<Content<State, LeafPart>>, NoMemory>
    requires writable { HasTextRoom tested.old.run }
    requires bit { width_of tested.old.run.terms tested.old.test ≡ 1 }
    ensures { IfOk result (λ kid. (budgets : Budgets) (s : Symbolic) (term : ℕ)
        → IsSideTested s term side tested.old
        → IsAsked (condition_of tested.old.run) tested.old.test budgets.conflicts
        (Spent learnt.question learnt.log)
        → IsBranchSide budgets s term side kid) }
{
    tested.run.assert(tested.test)?;
    let leaf = cut_conflicts(alloc, &mut tested.run, choice_of(side), learnt)?;
    Ok(leaf_kid(choice_of(side), leaf))
}

// The side of a branch on which the sample isn't, if it has an assignment or may have one.
fn other_side(
    rt: &impl Wait,
    alloc: Global,
    shared: &Shared,
    state: &State,
    term: usize,
    side: bool,
    budgets: &Budgets,
) -> Result<Option<Kid<Content<State, LeafPart>>>, NoMemory>
    requires sampled { IsSampled state.now }
    requires writable { HasTextRoom state.now }
    requires at { IsBranch state.now term }
    ensures some { IfOk result (λ kid. IfSome kid (IsBranchSide budgets.now state.now term side)) }
    ensures none { IfOk result (λ kid. IfNone kid
        ((input : List ℕ) → stands_for state.now input ≡ true
        → is_side side (number_of state.now.terms term input) ≡ false)) }
{
    let mut tested = with_test(state, term, side)?;
    match ask_run(
        rt,
        alloc,
        shared,
        &tested.run,
        tested.test,
        budgets.conflicts,
    )? {
        Asked::Unsat => Ok(None),
        Asked::Sat(input) => Ok(Some(open_side(alloc, tested, side, input)?)),
        Asked::Spent(question, log) => {
            let learnt = Learnt { question, log };
            Ok(Some(spent_side(alloc, &mut tested, side, learnt)?))
        }
    }
}

// The side on which the sample is.
fn own_side(
    alloc: Global,
    state: &State,
    term: usize,
    side: bool,
) -> Result<Kid<Content<State, LeafPart>>, NoMemory>
    requires sampled { IsSampled state.now }
    requires at { IsBranch state.now term }
    requires on_side { is_side side (number_of state.now.terms term state.now.sample) ≡ true }
    ensures { IfOk result (IsSide state.now (branch_choice side)
        (λ input. is_side side (number_of state.now.terms term input))) }
{
    let tested = with_test(state, term, side)?;
    let sample = sample_of(alloc, state)?;
    open_side(alloc, tested, side, sample)
}

// Both sides, the one that isn't taken first.
fn in_order(
    alloc: Global,
    side: bool,
    own: Kid<Content<State, LeafPart>>,
    other: Kid<Content<State, LeafPart>>,
) -> Result<Vec<Kid<Content<State, LeafPart>>>, NoMemory>
    ensures { IfOk result (λ kids. kids.items
        ≡ (if side then other ∷ own ∷ [] else own ∷ other ∷ [])) }
{
    let mut kids = Vec::with_capacity(alloc, 2)?;
    let (first, second) = if side { (other, own) } else { (own, other) };
    kids.push(first)?;
    kids.push(second)?;
    Ok(kids)
}

/// Goes on from a branch: along the side of the sample where the other has no assignment, and else along both.
pub(crate) fn at_branch(
    rt: &impl Wait,
    alloc: Global,
    shared: &Shared,
    state: &State,
    term: usize,
    budgets: &Budgets,
) -> Result<Forked, NoMemory>
    requires sampled { IsSampled state.now }
    requires writable { HasTextRoom state.now }
    requires at { IsBranch state.now term }
    requires some { 1 ≤ budgets.now.targets }
    ensures { IfOk result (IsForked budgets.now state.now) }
{
    let side = sampled(alloc, state, term)?.number() == 1;
    let Some(other) = other_side(rt, alloc, shared, state, term, !side, budgets)? else {
        let decided = Decided::Side(side);
        return Ok(Forked::One {
            place: SIDE,
            decided,
        });
    };
    let own = own_side(alloc, state, term, side)?;
    Ok(Forked::Split(in_order(alloc, side, own, other)?))
}
