//! For each literal, the clauses that it is watched in: a chain of watches through one list, so that a watch that moves from one
//! literal to another is linked anew and nothing is allocated.

use crate::code::Code;
use std::alloc::{AllocError as NoMemory, Global};

/// No watch: where a chain ends.
pub(crate) const END: u32 = u32::MAX;

/// That a literal is watched in a clause.
#[derive(Clone, Copy, Debug)]
pub(crate) struct Watch {
    /// The number of the clause.
    pub(crate) clause: u32,
    /// Another literal of the clause: where it is true, the clause need not be read.
    pub(crate) blocker: Code,
    /// The next watch of the same literal.
    next: u32,
}

/// The watches of all literals.
#[derive(Debug)]
pub(crate) struct Watches {
    /// The first watch of each literal, by the literal's code.
    firsts: Vec<u32>,
    watches: Vec<Watch>,
}

impl Drop for Watches {
    fn drop(self) {
        let Self {
            firsts: _firsts,
            watches: _watches,
        } = self;
    }
}

impl Watches {
    /// No watches of literals with codes below `size`, with room for two a clause.
    pub(crate) fn new(alloc: Global, size: usize, clauses: usize) -> Result<Watches, NoMemory> {
        Ok(Watches {
            firsts: vec![in alloc; END; size]?,
            watches: Vec::with_capacity(alloc, clauses.saturating_mul(2))?,
        })
    }

    /// How many watches there are.
    pub(crate) fn len(&self) -> usize {
        self.watches.len()
    }

    /// The place of the literal's first watch.
    pub(crate) fn first(&self, literal: Code) -> u32 {
        self.firsts.get(literal.index()).copied().unwrap_or(END)
    }

    pub(crate) fn get(&self, place: u32) -> Option<Watch> {
        self.watches.get(place as usize).copied()
    }

    /// The place of the next watch of the same literal.
    pub(crate) fn after(&self, place: u32) -> u32 {
        match self.watches.get(place as usize) {
            Some(watch) => watch.next,
            None => END,
        }
    }

    fn set_next(&mut self, place: u32, next: u32) {
        if let Some(watch) = self.watches.get_mut(place as usize) {
            watch.next = next;
        }
    }

    fn set_first(&mut self, literal: Code, place: u32) {
        if let Some(first) = self.firsts.get_mut(literal.index()) {
            *first = place;
        }
    }

    /// Watches a literal in a clause.
    pub(crate) fn add(
        &mut self,
        literal: Code,
        clause: u32,
        blocker: Code,
    ) -> Result<(), NoMemory> {
        let place = u32::try_from(self.watches.len()).unwrap_or(END);
        let next = self.first(literal);
        self.watches.push(Watch {
            clause,
            blocker,
            next,
        })?;
        self.set_first(literal, place);
        Ok(())
    }

    /// Notes another literal of the clause of a watch.
    pub(crate) fn block(&mut self, place: u32, blocker: Code) {
        if let Some(watch) = self.watches.get_mut(place as usize) {
            watch.blocker = blocker;
        }
    }

    /// Takes a watch of `old`, which comes after the one at `before` or first, and makes it one of `new`.
    pub(crate) fn move_to(&mut self, before: u32, place: u32, old: Code, new: Code) {
        let next = self.after(place);
        if before == END {
            self.set_first(old, next);
        } else {
            self.set_next(before, next);
        }
        let first = self.first(new);
        self.set_next(place, first);
        self.set_first(new, place);
    }
}
