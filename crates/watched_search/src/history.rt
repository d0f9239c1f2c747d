//! By what the clauses that were learnt follow: for each the numbers of the clauses that are its hints, one behind the other in one
//! list. Their literals stand among the clauses of the search. So while it runs nothing else is kept for a log, and one that is
//! answered by a valuation makes none.

use crate::assignment::Cause;
use std::alloc::{AllocError as NoMemory, Global};

/// The hints of the clauses that were learnt, in their order.
#[derive(Debug)]
pub(crate) struct History {
    /// How many clauses the formula has. Those that were learnt have the numbers after that.
    given: u32,
    hints: Vec<u32>,
    /// For each clause that was learnt how many hints there are up to its end.
    ends: Vec<usize>,
}

impl Drop for History {
    fn drop(self) {
        let Self {
            given: _given,
            hints: _hints,
            ends: _ends,
        } = self;
    }
}

impl History {
    /// Nothing learnt from a formula of so many clauses.
    pub(crate) fn new(alloc: Global, given: u32) -> History {
        History {
            given,
            hints: Vec::new(alloc),
            ends: Vec::new(alloc),
        }
    }

    /// How many clauses were learnt.
    pub(crate) fn len(&self) -> usize {
        self.ends.len()
    }

    /// How many clauses the formula has.
    pub(crate) fn given(&self) -> u32 {
        self.given
    }

    /// The place of the clause of this number among those that were learnt. None of one of the formula.
    pub(crate) fn place_of(&self, number: u32) -> Option<usize> {
        let place = number.checked_sub(self.given)?.checked_sub(1)?;
        Some(place as usize)
    }

    /// The number of the clause at this place among those that were learnt.
    pub(crate) fn number_of(&self, place: usize) -> u32 {
        let place = u32::try_from(place).unwrap_or(u32::MAX);
        self.given.saturating_add(place).saturating_add(1)
    }

    /// Notes that a clause was learnt. Its hints are the clauses that these causes name, in the order of the trail, and the one that
    /// is false. None comes twice, since no clause forces two literals at a time.
    pub(crate) fn note(&mut self, used: &mut Vec<Cause>, conflict: u32) -> Result<(), NoMemory> {
        used.sort_unstable_by_key(|cause| cause.place);
        for cause in used.iter() {
            self.hints.push(cause.reason)?;
        }
        self.hints.push(conflict)?;
        self.ends.push(self.hints.len())?;
        Ok(())
    }

    /// The hints of the clause at this place.
    pub(crate) fn hints(&self, place: usize) -> &[u32] {
        let start = match place.checked_sub(1) {
            Some(before) => self.ends.get(before).copied().unwrap_or(0),
            None => 0,
        };
        let end = self.ends.get(place).copied().unwrap_or(0);
        self.hints.get(start..end).unwrap_or(&[])
    }
}
