//! Where to look at a clause first. Of each clause two places are remembered, of literals that showed that it is calm when
//! it was read last: one was true, or both had no value. As long as they show it, nothing else of the clause is read.
//!
//! The places are hints: what they are is tested each time, and nothing rests on them.

ghost use Rattle.std.specs.Prelude.{◌≡◌, IsTrue, slice_get};
ghost use Rattle.cdcl_core.specs.Trails.{trail_values, IsCalm};
ghost use Rattle.cdcl_core.specs.Spots.{keep_calm};

use crate::trail::Trail;
use cnf_form::Lit;
use std::alloc::{AllocError as NoMemory, Global};

/// Two places in a clause.
#[derive(Clone, Copy, Debug)]
pub struct Spot {
    first: u16,
    second: u16,
}

// The greatest place that is remembered: one further on is taken for it.
const GREATEST: usize = 65535;

fn short(place: usize) -> u16 {
    place.min(GREATEST) as u16
}

fn get_literal(clause: &[Lit], place: u16) -> Option<Lit>
    ensures { result ≡ slice_get clause.now place }
{
    clause.get(place as usize).copied()
}

// Whether a clause with these literals is calm by them: one is true, or they are of two variables without a value.
fn keep_calm(trail: &Trail, first: Lit, second: Lit) -> bool
    ensures { result ≡ keep_calm (trail_values trail.now.entries) first second }
{
    trail.is_true(first)
        || trail.is_true(second)
        || trail.value(first.variable()).is_none()
            && trail.value(second.variable()).is_none()
            && first.variable() != second.variable()
}

impl Spot {
    pub fn new(first: usize, second: usize) -> Spot {
        Spot {
            first: short(first),
            second: short(second),
        }
    }

    /// Whether the literals at these places show that the clause is calm.
    pub(crate) fn shows_calm(self, trail: &Trail, clause: &[Lit]) -> bool
        ensures { IsTrue result → IsCalm (trail_values trail.now.entries) clause.now }
    {
        let Some(first) = get_literal(clause, self.first) else {
            return false;
        };
        let Some(second) = get_literal(clause, self.second) else {
            return false;
        };
        keep_calm(trail, first, second)
    }
}

/// The places of each clause, by the place of the clause.
#[derive(Debug, Drop)]
pub struct Spots {
    spots: Vec<Spot>,
}

// The places of a clause that wasn't read yet.
const UNREAD: Spot = Spot {
    first: 0,
    second: 1,
};

impl Spots {
    /// Those of so many clauses, none of which was read yet.
    pub fn new(alloc: Global, count: usize) -> Result<Spots, NoMemory> {
        Ok(Spots {
            spots: vec![in alloc; UNREAD; count]?,
        })
    }

    /// Makes room for one clause more.
    pub fn push(&mut self) -> Result<(), NoMemory> {
        self.spots.push(UNREAD)?;
        Ok(())
    }

    pub fn of(&self, place: usize) -> Spot {
        match self.spots.get(place) {
            Some(spot) => *spot,
            None => UNREAD,
        }
    }

    /// Remembers the places of the clause at this place.
    pub fn note(&mut self, place: usize, spot: Spot) {
        if let Some(slot) = self.spots.get_mut(place) {
            *slot = spot;
        }
    }
}
