//! The log of a search that has ended: of the clauses that were learnt those that are wanted, numbered anew.

use crate::clause_store::ClauseStore;
use crate::code::Code;
use crate::history::History;
use cnf_form::{Clause, Lit, Log, LogStep};
use std::alloc::{AllocError as NoMemory, Global};

/// What a log is made from, and how far it is made.
struct Making<'a> {
    clauses: &'a ClauseStore,
    history: &'a History,
    /// The number in the log of each clause that was learnt, up to here. That of one that is left out is that of no clause.
    numbers: Vec<usize>,
    /// The number of the last clause.
    last: usize,
}

impl<'a> Drop for Making<'a> {
    fn drop(self) {
        let Self {
            clauses: _clauses,
            history: _history,
            numbers: _numbers,
            last: _last,
        } = self;
    }
}

// The literals of a clause, those of greater variables first, so that a clause finds the place of each at its front. In the other
// order it would look through all that it has for each, which costs more than to move them.
fn literals(alloc: Global, codes: &[Code]) -> Result<Vec<Lit>, NoMemory> {
    let mut literals: Vec<Lit> = codes
        .iter()
        .filter_map(|code| code.literal())
        .collect(alloc)?;
    literals.sort_unstable_by_key(|literal| u32::MAX - literal.variable());
    Ok(literals)
}

impl<'a> Making<'a> {
    // The number in the log of the clause that has this one in the search.
    fn renumbered(&self, number: u32) -> usize {
        match self.history.place_of(number) {
            Some(place) => self.numbers.get(place).copied().unwrap_or(0),
            None => number as usize,
        }
    }

    fn hints(&self, alloc: Global, place: usize) -> Result<Vec<usize>, NoMemory> {
        let old = self.history.hints(place);
        let mut hints = Vec::with_capacity(alloc, old.len())?;
        for hint in old {
            hints.push(self.renumbered(*hint))?;
        }
        Ok(hints)
    }

    // The step of the clause at this place. None if its literals make no clause.
    fn step(&self, alloc: Global, place: usize) -> Result<Option<LogStep>, NoMemory> {
        let literals = literals(alloc, self.clauses.all(self.history.number_of(place)))?;
        match Clause::from_literals(alloc, &literals)? {
            Some(clause) => Ok(Some(LogStep::new(clause, self.hints(alloc, place)?))),
            None => Ok(None),
        }
    }

    // Numbers the clause that comes next.
    fn number(&mut self, is_wanted: bool) -> Result<(), NoMemory> {
        if is_wanted {
            self.last = self.last.saturating_add(1);
            self.numbers.push(self.last)?;
        } else {
            self.numbers.push(0)?;
        }
        Ok(())
    }
}

/// The log of the clauses that are wanted, by their places. None if the literals of one make no clause.
pub(crate) fn log_of(
    alloc: Global,
    clauses: &ClauseStore,
    history: &History,
    wanted: &[bool],
) -> Result<Option<Log>, NoMemory> {
    let mut making = Making {
        clauses,
        history,
        numbers: Vec::with_capacity(alloc, wanted.len())?,
        last: history.given() as usize,
    };
    let mut log = Log::new(alloc);
    for (place, is_wanted) in wanted.iter().enumerate() {
        if *is_wanted {
            let Some(step) = making.step(alloc, place)? else {
                return Ok(None);
            };
            log.push(step)?;
        }
        making.number(*is_wanted)?;
    }
    Ok(Some(log))
}
