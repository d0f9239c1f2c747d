//! Choices and propagation in turn, until a clause is false or each is satisfied. A choice is made where each clause is
//! *calm*: none is false or forces a literal. After that only the clauses are looked at in which a literal becomes false,
//! and the others stay calm.

ghost use Rattle.std.specs.Prelude.{◌≡◌, ◌<◌, true, length, IfOk, IfSome, OnOk, None};
ghost use Rattle.std.specs.List.{list_all};
ghost use Rattle.cnf_form.specs.Propagation.{numbered, hint_is_falsified};
ghost use Rattle.cnf_form.specs.Variables.{is_below, occurs};
ghost use Rattle.cdcl_core.specs.Trails.{trail_values, IsTrail, AreCalm, AreCalmFirst, free_count};
ghost use Rattle.cdcl_core.specs.Passes.{IsFree, IsSettled};
ghost use Rattle.cdcl_core.specs.Searches.{IsDescent};

use crate::clause_list::ClauseList;
use crate::following::{follow, settle};
use crate::order::Order;
use crate::propagation::{State, state_of};
use crate::spots::{Spot, Spots};
use crate::trail::{Entry, Trail};
use cnf_form::{Clauses, Lit};
use std::alloc::AllocError as NoMemory;

/// Where unit propagation ends.
#[derive(Clone, Copy, Debug)]
pub enum Settled {
    /// The clause of this number is false.
    AtConflict(usize),
    /// Each clause is calm, and this literal's variable has no value and occurs in a clause.
    AtChoice(Lit),
    /// Each clause is satisfied.
    AtEnd,
}

// A literal without a value of a clause that isn't satisfied, where each clause is calm.
fn open_literal(trail: &Trail, clauses: &Clauses) -> Settled
    requires below { list_all (is_below (length trail.now.marks)) clauses.now ≡ true }
    requires calm { AreCalm (trail_values trail.now.entries) clauses.now }
    ensures { IsSettled clauses.now (length trail.now.marks)
        (trail_values trail.now.entries) result }
{
    let mut spot = Spot::new(0, 0);
    for i in 0..clauses.len() {
        match state_of(trail, clauses.at(i), &mut spot) {
            State::Falsified => return Settled::AtConflict(i + 1),
            State::Forces(literal) => return Settled::AtChoice(literal),
            State::Open(literal) => return Settled::AtChoice(literal),
            State::Satisfied => {}
        }
    }
    Settled::AtEnd
}

// The literal to choose where each clause is calm: the first of the order, or if it has none one of a clause that isn't
// satisfied.
fn next_choice(trail: &Trail, clauses: &ClauseList, order: &mut Order) -> Settled
    requires below { list_all (is_below (length trail.now.marks)) clauses.now ≡ true }
    requires calm { AreCalm (trail_values trail.now.entries) clauses.now }
    ensures { IsSettled clauses.now (length trail.now.marks)
        (trail_values trail.now.entries) result }
{
    match order.pick(trail, clauses) {
        Some(literal) => Settled::AtChoice(literal),
        None => open_literal(trail, clauses.list()),
    }
}

// Chooses a literal, and makes those true that follow, until a clause is false, whose number is the answer, or none
// forces a literal.
fn choose(
    trail: &mut Trail,
    clauses: &ClauseList,
    spots: &mut Spots,
    literal: Lit,
) -> Result<Option<usize>, NoMemory>
    requires below { list_all (is_below (length trail.old.marks)) clauses.now ≡ true }
    requires trail { IsTrail clauses.now trail.old.entries }
    requires calm { AreCalm (trail_values trail.old.entries) clauses.now }
    requires free { IsFree (trail_values trail.old.entries) (length trail.old.marks) literal }
    requires occurs { occurs clauses.now literal.variable ≡ true }
    ensures trail { OnOk result (IsTrail clauses.now trail.new.entries) }
    ensures size { OnOk result (length trail.new.marks ≡ length trail.old.marks) }
    ensures fewer { OnOk result (free_count trail.new.marks < free_count trail.old.marks) }
    ensures conflict { IfOk result (λ o. IfSome o
        (λ k. hint_is_falsified (trail_values trail.new.entries) (numbered clauses.now k) ≡ true)) }
    ensures calm { IfOk result (λ o. o ≡ None
        → AreCalm (trail_values trail.new.entries) clauses.now) }
{
    let first = trail.entries().len();
    trail.push(Entry {
        literal,
        reason: None,
    })?;
    follow(trail, clauses, spots, first)
}

// Chooses literals where each clause is calm, and so on, as `descend` does.
fn descend_from(
    trail: &mut Trail,
    clauses: &ClauseList,
    spots: &mut Spots,
    order: &mut Order,
) -> Result<Option<usize>, NoMemory>
    requires below { list_all (is_below (length trail.old.marks)) clauses.now ≡ true }
    requires trail { IsTrail clauses.now trail.old.entries }
    requires calm { AreCalm (trail_values trail.old.entries) clauses.now }
    ensures trail { OnOk result (IsTrail clauses.now trail.new.entries) }
    ensures size { OnOk result (length trail.new.marks ≡ length trail.old.marks) }
    ensures descent { IfOk result (IsDescent clauses.now (trail_values trail.new.entries)) }
{
    'choices: loop {
        match next_choice(trail, clauses, order) {
            Settled::AtConflict(number) => return Ok(Some(number)),
            Settled::AtEnd => return Ok(None),
            Settled::AtChoice(literal) => {
                if let Some(number) = choose(trail, clauses, spots, literal)? {
                    return Ok(Some(number));
                }
            }
        }
    }
}

/// Where the first clauses are calm, makes literals true that the others force and that follow. Then it chooses literals and
/// makes those true that follow, until a clause is false, whose number is the answer, or each clause is satisfied.
pub(crate) fn descend(
    trail: &mut Trail,
    clauses: &ClauseList,
    spots: &mut Spots,
    order: &mut Order,
    calm: usize,
) -> Result<Option<usize>, NoMemory>
    requires below { list_all (is_below (length trail.old.marks)) clauses.now ≡ true }
    requires trail { IsTrail clauses.now trail.old.entries }
    requires calm { AreCalmFirst calm (trail_values trail.old.entries) clauses.now }
    ensures trail { OnOk result (IsTrail clauses.now trail.new.entries) }
    ensures size { OnOk result (length trail.new.marks ≡ length trail.old.marks) }
    ensures descent { IfOk result (IsDescent clauses.now (trail_values trail.new.entries)) }
{
    if let Some(number) = settle(trail, clauses, spots, calm)? {
        return Ok(Some(number));
    }
    descend_from(trail, clauses, spots, order)
}
