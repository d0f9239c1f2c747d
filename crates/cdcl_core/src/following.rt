//! What follows from the literals that have become true: only the clauses are looked at in which one became false, and those
//! that weren't looked at before. Where each other clause was calm, that is enough: then all are calm at the end.

ghost use Rattle.std.specs.Prelude.{◌≡◌, ℕ, ◌≤◌, ◌<◌, ◌+◌, ◌^◌, ◌||◌, ◌==◌, nat_le, Bool, false, true, length, IfOk, IfSome, OnOk, None};
ghost use Rattle.std.specs.List.{list_all};
ghost use Rattle.cnf_form.specs.Propagation.{numbered, hint_is_falsified};
ghost use Rattle.cnf_form.specs.Variables.{is_below};
ghost use Rattle.cdcl_core.specs.Places.{is_among};
ghost use Rattle.cdcl_core.specs.Trails.{trail_values, IsTrail, AreCalm, AreCalmFirst};
ghost use Rattle.cdcl_core.specs.Passes.{IsLiteralAt, ArePending, IsFollowed};

use crate::clause_list::ClauseList;
use crate::propagation::{State, state_of};
use crate::spots::Spots;
use crate::trail::{Entry, Trail};
use cnf_form::{Clauses, Lit};
use std::alloc::AllocError as NoMemory;

// Looks at the clause at this place: makes the literal true that it forces, or answers its number if it is false.
fn look(
    trail: &mut Trail,
    clauses: &Clauses,
    spots: &mut Spots,
    place: usize,
) -> Result<Option<usize>, NoMemory>
    requires below { list_all (is_below (length trail.old.marks)) clauses.now ≡ true }
    requires trail { IsTrail clauses.now trail.old.entries }
    ensures followed { OnOk result (IsFollowed clauses.now trail.old trail.new) }
    ensures conflict { IfOk result (λ o. IfSome o
        (λ k. hint_is_falsified (trail_values trail.new.entries) (numbered clauses.now k) ≡ true)) }
    ensures looked { (first : ℕ) (to_come : ℕ → Bool) → first ≤ length trail.old.entries
        → ArePending clauses.now trail.old.entries first (λ k. (place == k) || to_come k)
        → IfOk result (λ o. o ≡ None → ArePending clauses.now trail.new.entries first to_come) }
{
    if place >= clauses.len() {
        return Ok(None);
    }
    let clause = clauses.at(place);
    let mut spot = spots.of(place);
    if spot.shows_calm(trail, clause) {
        return Ok(None);
    }
    match state_of(trail, clause, &mut spot) {
        State::Falsified => Ok(Some(place + 1)),
        State::Forces(literal) => {
            spots.note(place, spot);
            let reason = Some(place + 1);
            trail.push(Entry { literal, reason })?;
            Ok(None)
        }
        State::Open(_) => {
            spots.note(place, spot);
            Ok(None)
        }
        State::Satisfied => {
            spots.note(place, spot);
            Ok(None)
        }
    }
}

// Looks at the clauses at these places.
fn look_at(
    trail: &mut Trail,
    clauses: &Clauses,
    spots: &mut Spots,
    places: &[usize],
) -> Result<Option<usize>, NoMemory>
    requires below { list_all (is_below (length trail.old.marks)) clauses.now ≡ true }
    requires trail { IsTrail clauses.now trail.old.entries }
    ensures followed { OnOk result (IsFollowed clauses.now trail.old trail.new) }
    ensures conflict { IfOk result (λ o. IfSome o
        (λ k. hint_is_falsified (trail_values trail.new.entries) (numbered clauses.now k) ≡ true)) }
    ensures looked { (first : ℕ) → first ≤ length trail.old.entries
        → ArePending clauses.now trail.old.entries first (is_among places.now)
        → IfOk result (λ o. o ≡ None
        → ArePending clauses.now trail.new.entries first (λ k. false)) }
{
    for place in places {
        if let Some(number) = look(trail, clauses, spots, *place)? {
            return Ok(Some(number));
        }
    }
    Ok(None)
}

// Looks at the clauses of which the entry at this place made a literal false.
fn look_after(
    trail: &mut Trail,
    clauses: &ClauseList,
    spots: &mut Spots,
    literal: Lit,
) -> Result<Option<usize>, NoMemory>
    requires below { list_all (is_below (length trail.old.marks)) clauses.now ≡ true }
    requires trail { IsTrail clauses.now trail.old.entries }
    ensures followed { OnOk result (IsFollowed clauses.now trail.old trail.new) }
    ensures conflict { IfOk result (λ o. IfSome o
        (λ k. hint_is_falsified (trail_values trail.new.entries) (numbered clauses.now k) ≡ true)) }
    ensures looked { (place : ℕ) → IsLiteralAt trail.old.entries place literal
        → ArePending clauses.now trail.old.entries place (λ k. false) → IfOk result (λ o. o ≡ None
        → ArePending clauses.now trail.new.entries (place + 1) (λ k. false)) }
{
    look_at(
        trail,
        clauses.list(),
        spots,
        clauses.places(literal.negated()),
    )
}

fn literal_at(trail: &Trail, place: usize) -> Option<Lit>
    ensures some { IfSome result (IsLiteralAt trail.now.entries place) }
    ensures none { result ≡ None → length trail.now.entries ≤ place }
    ensures fits { IfSome result (λ l. place + 1 < 2 ^ 64) }
{
    match trail.entries().get(place) {
        Some(entry) => Some(entry.literal),
        None => None,
    }
}

/// Makes literals true that follow from the entries from this place on, until a clause is false, whose number is the
/// answer, or nothing more is found.
pub fn follow(
    trail: &mut Trail,
    clauses: &ClauseList,
    spots: &mut Spots,
    first: usize,
) -> Result<Option<usize>, NoMemory>
    requires below { list_all (is_below (length trail.old.marks)) clauses.now ≡ true }
    requires trail { IsTrail clauses.now trail.old.entries }
    ensures followed { OnOk result (IsFollowed clauses.now trail.old trail.new) }
    ensures conflict { IfOk result (λ o. IfSome o
        (λ k. hint_is_falsified (trail_values trail.new.entries) (numbered clauses.now k) ≡ true)) }
    ensures calm { ArePending clauses.now trail.old.entries first (λ k. false)
        → IfOk result (λ o. o ≡ None → AreCalm (trail_values trail.new.entries) clauses.now) }
{
    let mut place = first;
    while let Some(literal) = literal_at(trail, place) {
        let conflict = look_after(trail, clauses, spots, literal)?;
        if conflict.is_some() {
            return Ok(conflict);
        }
        place += 1;
    }
    Ok(None)
}

// Looks at the clauses from this place on.
fn look_from(
    trail: &mut Trail,
    clauses: &Clauses,
    spots: &mut Spots,
    start: usize,
) -> Result<Option<usize>, NoMemory>
    requires below { list_all (is_below (length trail.old.marks)) clauses.now ≡ true }
    requires trail { IsTrail clauses.now trail.old.entries }
    ensures followed { OnOk result (IsFollowed clauses.now trail.old trail.new) }
    ensures conflict { IfOk result (λ o. IfSome o
        (λ k. hint_is_falsified (trail_values trail.new.entries) (numbered clauses.now k) ≡ true)) }
    ensures looked { (first : ℕ) → first ≤ length trail.old.entries
        → ArePending clauses.now trail.old.entries first (nat_le start) → IfOk result (λ o. o ≡ None
        → ArePending clauses.now trail.new.entries first (λ k. false)) }
{
    for place in start..clauses.len() {
        if let Some(number) = look(trail, clauses, spots, place)? {
            return Ok(Some(number));
        }
    }
    Ok(None)
}

/// Where the first clauses are calm, looks at the others, and makes literals true that follow, until a clause is false,
/// whose number is the answer, or each is calm.
pub(crate) fn settle(
    trail: &mut Trail,
    clauses: &ClauseList,
    spots: &mut Spots,
    calm: usize,
) -> Result<Option<usize>, NoMemory>
    requires below { list_all (is_below (length trail.old.marks)) clauses.now ≡ true }
    requires trail { IsTrail clauses.now trail.old.entries }
    requires calm { AreCalmFirst calm (trail_values trail.old.entries) clauses.now }
    ensures followed { OnOk result (IsFollowed clauses.now trail.old trail.new) }
    ensures conflict { IfOk result (λ o. IfSome o
        (λ k. hint_is_falsified (trail_values trail.new.entries) (numbered clauses.now k) ≡ true)) }
    ensures calm { IfOk result (λ o. o ≡ None
        → AreCalm (trail_values trail.new.entries) clauses.now) }
{
    let first = trail.entries().len();
    if let Some(number) = look_from(trail, clauses.list(), spots, calm)? {
        return Ok(Some(number));
    }
    follow(trail, clauses, spots, first)
}
