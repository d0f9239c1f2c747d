//! The literals to choose: the most active variable first, with the value that it had last. Where entries leave the trail, their
//! variables are put back, and the values that they had are kept as those to try next.
//!
//! What the order says is no more than a wish: whichever literal is chosen, the answers are as sure, and where no variable is
//! left the search looks for a literal itself. A variable that occurs in no clause is taken out and never chosen.

ghost use Rattle.std.specs.Prelude.{◌≡◌, true, Contains, IfSome, IsTrue, length};
ghost use Rattle.cnf_form.specs.Variables.{occurs};
ghost use Rattle.cdcl_core.specs.Trails.{trail_values};
ghost use Rattle.cdcl_core.specs.Passes.{IsFree};

use crate::clause_list::ClauseList;
use crate::trail::{Entry, Trail};
use cnf_form::Lit;
use std::alloc::{AllocError as NoMemory, Global};
use watched_search::Activity;

/// Variables by their activity.
#[derive(Debug)]
pub struct Order {
    /// The literal to choose for each variable, that of the variable k at place k - 1.
    literals: Vec<Lit>,
    activity: Activity,
}

impl Drop for Order {
    fn drop(self) {
        let Self {
            literals: _literals,
            activity: _activity,
        } = self;
    }
}

// The place of the literal's variable.
fn place_of(literal: Lit) -> usize {
    literal.variable() as usize - 1
}

// The variables up to this one, each false.
fn negations(alloc: Global, last: u32) -> Result<Vec<Lit>, NoMemory> {
    let mut literals = Vec::new(alloc);
    let mut variable = 0;
    while variable < last {
        variable += 1;
        literals.push(Lit::new(variable, false))?;
    }
    Ok(literals)
}

// Whether the literal may be chosen: its variable has no value, and occurs in a clause.
fn may_be_chosen(trail: &Trail, clauses: &ClauseList, literal: Lit) -> bool
    ensures free { IsTrue result
        → IsFree (trail_values trail.now.entries) (length trail.now.marks) literal }
    ensures occurs { IsTrue result → occurs clauses.now literal.variable ≡ true }
{
    trail.is_free(literal) && clauses.mentions(literal)
}

impl Order {
    /// The variables up to this one, each false first.
    pub fn new(alloc: Global, last: u32) -> Result<Order, NoMemory> {
        Ok(Order {
            literals: negations(alloc, last)?,
            activity: Activity::new(alloc, last)?,
        })
    }

    /// Takes out variables until one has no value and occurs in a clause, and answers the literal to choose for that one.
    pub fn pick(&mut self, trail: &Trail, clauses: &ClauseList) -> Option<Lit>
        ensures free { IfSome result (IsFree (trail_values trail.now.entries)
            (length trail.now.marks)) }
        ensures occurs { IfSome result (λ l. occurs clauses.now l.variable ≡ true) }
        ensures listed { IfSome result (Contains self.old.literals.items) }
    {
        while let Some(place) = self.activity.pop() {
            if let Some(literal) = self.literals.get(place) {
                if may_be_chosen(trail, clauses, *literal) {
                    return Some(*literal);
                }
            }
        }
        None
    }

    // Puts the literal's variable back, and makes the literal the one to choose for it.
    fn put(&mut self, literal: Lit) {
        let place = place_of(literal);
        if place < self.literals.len() {
            self.literals[place] = literal;
        }
        self.activity.put(place);
    }

    /// Puts the variables of the entries from this place on back, each with the value that it has there.
    pub(crate) fn put_back(&mut self, entries: &[Entry], start: usize) {
        for place in start..entries.len() {
            self.put(entries[place].literal);
        }
    }

    /// Raises the activity of the variables of these literals.
    pub(crate) fn raise(&mut self, met: &[Lit]) {
        for literal in met {
            self.activity.raise(place_of(*literal));
        }
        self.activity.grow();
    }
}
