//! The clauses of a search, one behind the other in one list of literals. In front of each stand the two that are watched; behind
//! those that are looked at stand the ones that were false before any decision when the clause was learnt. Nothing has to look at
//! them again, but the clause has them, so that its hints need not force them.

use crate::code::Code;
use std::alloc::{AllocError as NoMemory, Global};

/// Where the literals of a clause stand, and how many of them, the first ones, are looked at.
#[derive(Clone, Copy, Debug)]
struct Span {
    start: u32,
    looked_at: u32,
    len: u32,
}

/// Clauses, numbered from 1.
#[derive(Debug)]
pub(crate) struct ClauseStore {
    literals: Vec<Code>,
    spans: Vec<Span>,
}

impl Drop for ClauseStore {
    fn drop(self) {
        let Self {
            literals: _literals,
            spans: _spans,
        } = self;
    }
}

// A length or place as the tables have it. No formula is searched that has more.
fn short(n: usize) -> u32 {
    u32::try_from(n).unwrap_or(u32::MAX)
}

impl ClauseStore {
    /// No clauses, with room for so many of so many literals together.
    pub(crate) fn new(
        alloc: Global,
        clauses: usize,
        literals: usize,
    ) -> Result<ClauseStore, NoMemory> {
        Ok(ClauseStore {
            literals: Vec::with_capacity(alloc, literals)?,
            spans: Vec::with_capacity(alloc, clauses)?,
        })
    }

    /// How many clauses there are, which is the number of the last.
    pub(crate) fn count(&self) -> u32 {
        short(self.spans.len())
    }

    /// Puts a literal behind those of the clause to come.
    pub(crate) fn put(&mut self, literal: Code) -> Result<(), NoMemory> {
        self.literals.push(literal)?;
        Ok(())
    }

    /// Makes a clause of the last `len` literals, of which the first `looked_at` are looked at.
    pub(crate) fn close(&mut self, len: usize, looked_at: usize) -> Result<(), NoMemory> {
        let start = self.literals.len().saturating_sub(len);
        self.spans.push(Span {
            start: short(start),
            looked_at: short(looked_at),
            len: short(len),
        })?;
        Ok(())
    }

    fn span(&self, number: u32) -> Span {
        let place = (number as usize).wrapping_sub(1);
        let none = Span {
            start: 0,
            looked_at: 0,
            len: 0,
        };
        self.spans.get(place).copied().unwrap_or(none)
    }

    /// All literals of the clause of this number.
    pub(crate) fn all(&self, number: u32) -> &[Code] {
        let span = self.span(number);
        let start = span.start as usize;
        let end = start + span.len as usize;
        self.literals.get(start..end).unwrap_or(&[])
    }

    /// Those that are looked at.
    pub(crate) fn looked_at(&mut self, number: u32) -> &mut [Code] {
        let span = self.span(number);
        let start = span.start as usize;
        let end = start + span.looked_at as usize;
        if end <= self.literals.len() {
            &mut self.literals[start..end]
        } else {
            &mut []
        }
    }
}
