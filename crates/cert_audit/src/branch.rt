//! What lines make of a run at a branch: it goes on along one side where the other has no assignment, and else parts into two.

ghost use Rattle.std.specs.Prelude.{◌≡◌, ◌≢◌, Bool, false, IfOk, IfErr, MatchOption, map};
ghost use Rattle.bv_dag.specs.Graphs.{number_of};
ghost use Rattle.sym_state.specs.Undecided.{IsBranch};
ghost use Rattle.tree_core.specs.declared.budgets.Budgets.{Budgets};
ghost use Rattle.run_sides.specs.Sides.{branch_choice, is_side};
ghost use Rattle.cert_audit.specs.ForkFaults.{AreBranchSides, AreNoBranchSides, IsBranchFault, IsOneSideFault, begins_with_cut_nodes};
ghost use Rattle.cert_audit.specs.Kids.{AreKids, IsKid, IsPut, cut_if, own_ahead};
ghost use Rattle.cert_audit.specs.Names.{side_ahead};
ghost use Rattle.cert_audit.specs.Steps.{IsWent};

use crate::going::go_on;
use crate::proof::take_proof;
use crate::taken::Went;
use crate::todo::{Asked, Todo};
use cert_form::{CertLine, Side};
use cert_query::{Fault, Reason};
use run_sides::{SIDE, choice_of, take_side, with_test};
use std::alloc::{AllocError as NoMemory, Global};
use sym_state::{Decided, State};
use tree_core::{Cause, Choice};

// The side that a choice leads to at a branch, if it is one there.
fn side_of(choice: Choice) -> Option<bool>
    ensures { MatchOption result ((side : Bool) → choice ≢ branch_choice side)
        (λ side. choice ≡ branch_choice side) }
{
    match choice {
        Choice::No => Some(false),
        Choice::Yes => Some(true),
        Choice::Value(_) | Choice::Rest => None,
    }
}

// Whether the side that isn't taken and the one that is are cut by conflicts, if these are the sides of a branch, of which one is cut
// at most.
fn cuts_of(sides: &[Side]) -> Option<(bool, bool)>
    ensures { MatchOption result (AreNoBranchSides sides.now)
        (λ cuts. AreBranchSides sides.now cuts.0 cuts.1) }
{
    let [no, yes] = sides else {
        return None;
    };
    match (no.choice, no.cut, yes.choice, yes.cut) {
        (Choice::No, None, Choice::Yes, None) => Some((false, false)),
        (Choice::No, Some(Cause::Conflicts), Choice::Yes, None) => Some((true, false)),
        (Choice::No, None, Choice::Yes, Some(Cause::Conflicts)) => Some((false, true)),
        _ => None,
    }
}

// A side of a branch, cut by conflicts or not.
fn side_todo(run: &State, term: usize, side: bool, is_cut: bool) -> Result<Todo, NoMemory>
    requires { IsBranch run.now term }
    ensures { IfOk result (IsKid run.now
        (record { choice = branch_choice side; cut = cut_if is_cut })
        (λ input. is_side side (number_of run.now.terms term input))) }
{
    let tested = with_test(run, term, side)?;
    if !is_cut {
        return Ok(Todo::Node(take_side(tested, side)?));
    }
    let (mut run, test) = tested.into_parts();
    run.assert(test)?;
    let choice = choice_of(side);
    Ok(Todo::Conflicts(Asked { run, choice }))
}

// The two sides of a branch.
fn two_sides(
    alloc: Global,
    run: &State,
    term: usize,
    sides: &[Side],
) -> Result<Option<Vec<Todo>>, NoMemory>
    requires { IsBranch run.now term }
    ensures { IfOk result (λ found. MatchOption found (AreNoBranchSides sides.now)
        (λ kids. AreKids run.now (map (side_ahead run.now.choices) sides.now) kids.items)) }
{
    let Some((is_no_cut, is_yes_cut)) = cuts_of(sides) else {
        return Ok(None);
    };
    let mut kids = Vec::with_capacity(alloc, 2)?;
    kids.push(side_todo(run, term, false, is_no_cut)?)?;
    kids.push(side_todo(run, term, true, is_yes_cut)?)?;
    Ok(Some(kids))
}

// The run goes on along one side, if lines show that the other has no assignment.
fn one_side<'a>(
    alloc: Global,
    run: &State,
    term: usize,
    side: bool,
    lines: &'a [CertLine],
) -> Result<Result<Went<'a>, Fault>, NoMemory>
    requires { IsBranch run.now term }
    ensures put { IfOk result (λ went. IfOk went (λ w.
        IsPut run.now (own_ahead run.now) lines.now w.kids.items w.rest.now)) }
    ensures cause { IfOk result (λ went. IfErr went
        (IsOneSideFault run.now term side lines.now)) }
{
    let mut other = with_test(run, term, !side)?;
    other.run.assert(other.test)?;
    match take_proof(alloc, &other.run, other.test, lines)? {
        Ok(rest) => Ok(Ok(go_on(alloc, run, SIDE, Decided::Side(side), rest)?)),
        Err(fault) => Ok(Err(fault)),
    }
}

/// What lines make of a run at a branch: it goes on one way, or parts into two sides.
pub(crate) fn at_branch<'a>(
    alloc: Global,
    run: &State,
    term: usize,
    lines: &'a [CertLine],
) -> Result<Result<Went<'a>, Fault>, NoMemory>
    requires { IsBranch run.now term }
    ensures went { IfOk result (λ went. IfOk went (λ w. (budgets : Budgets)
        → IsWent budgets run.now lines.now w.kids.items w.rest.now)) }
    ensures cause { IfOk result (λ went. IfErr went (λ fault.
        begins_with_cut_nodes lines.now ≡ false → IsBranchFault run.now term lines.now fault)) }
{
    match lines {
        [CertLine::One(choice), rest @ ..] => match side_of(*choice) {
            Some(side) => one_side(alloc, run, term, side, rest),
            None => Ok(Err(Fault::at(lines, Reason::Place))),
        },
        [CertLine::Split(sides), rest @ ..] => {
            match two_sides(alloc, run, term, sides.as_slice())? {
                Some(kids) => Ok(Ok(Went { kids, rest })),
                None => Ok(Err(Fault::at(lines, Reason::Place))),
            }
        }
        _ => Ok(Err(Fault::at(lines, Reason::Place))),
    }
}
