//! The analysis of a conflict. Backwards along the trail, each literal made true since the last decision on which the
//! conflict rests is replaced by the clause that forced it, until one is left, the first point through which all
//! led to the conflict. Its negation and the false literals of earlier levels are the clause to learn. Those of the
//! literals that were false before any decision are kept in it, so that its hints need not force them again.
//!
//! Whether the clause follows, and whether it is new, is tested where it is learnt: nothing rests on how it was found.

ghost use Rattle.std.specs.Prelude.{◌≡◌, [], IfOk, length};

use crate::trail::{Entry, Trail};
use cnf_form::{Clause, Clauses, Lit, LogStep};
use std::alloc::{AllocError as NoMemory, Global};

/// What an analysis has met. It is kept from one conflict to the next, and cleared by what it met, so that a conflict pays for
/// nothing else.
#[derive(Debug)]
pub struct Analysis {
    /// Whether a variable was met, by its number.
    seen: Vec<bool>,
    /// The literals of these variables, as they were met.
    met: Vec<Lit>,
    /// Literals of the clause, all of earlier levels until the first point is there.
    literals: Vec<Lit>,
    /// The clauses that forced literals, the last first.
    hints: Vec<usize>,
    /// How many variables of the last level were met and not yet replaced.
    pending: usize,
    /// The place of the last decision.
    last: usize,
}

impl Drop for Analysis {
    fn drop(self) {
        let Self {
            seen: _seen,
            met: _met,
            literals: _literals,
            hints: _hints,
            pending: _pending,
            last: _last,
        } = self;
    }
}

fn clause_of(clauses: &Clauses, number: usize) -> Option<&[Lit]> {
    clauses.get(number.checked_sub(1)?)
}

// The place of the last decision.
fn last_decision(entries: &[Entry]) -> Option<usize> {
    entries.iter().rposition(|e| e.reason.is_none())
}

impl Analysis {
    /// Nothing, of variables below `size`.
    pub fn new(alloc: Global, size: usize) -> Result<Analysis, NoMemory>
        ensures { IfOk result (λ analysis. length analysis.seen.items ≡ size) }
    {
        Ok(Analysis {
            seen: vec![in alloc; false; size]?,
            met: Vec::new(alloc),
            literals: Vec::new(alloc),
            hints: Vec::new(alloc),
            pending: 0,
            last: 0,
        })
    }

    /// Literals of the variables that the last analysis met, each once.
    pub fn met(&self) -> &[Lit] {
        self.met.as_slice()
    }

    // Forgets what was met, for a conflict whose last decision is at this place.
    fn clear(&mut self, last: usize)
        ensures met { self.new.met.items ≡ [] }
        ensures literals { self.new.literals.items ≡ [] }
        ensures hints { self.new.hints.items ≡ [] }
        ensures pending { self.new.pending ≡ 0 }
        ensures last { self.new.last ≡ last }
    {
        for literal in &self.met {
            if let Some(seen) = self.seen.get_mut(literal.variable() as usize) {
                *seen = false;
            }
        }
        self.met.clear();
        self.literals.clear();
        self.hints.clear();
        self.pending = 0;
        self.last = last;
    }

    fn is_seen(&self, literal: Lit) -> bool {
        match self.seen.get(literal.variable() as usize) {
            Some(is_seen) => *is_seen,
            None => false,
        }
    }

    fn see(&mut self, literal: Lit) -> Result<(), NoMemory> {
        self.met.push(literal)?;
        if let Some(seen) = self.seen.get_mut(literal.variable() as usize) {
            *seen = true;
        }
        Ok(())
    }

    // Meets a literal of a clause for the first time.
    fn meet(&mut self, literal: Lit, trail: &Trail) -> Result<(), NoMemory> {
        self.see(literal)?;
        if trail.number(literal) > self.last {
            self.pending = self.pending.saturating_add(1);
        } else {
            self.literals.push(literal)?;
        }
        Ok(())
    }

    fn meet_clause(&mut self, clause: &[Lit], trail: &Trail) -> Result<(), NoMemory> {
        for literal in clause {
            if !self.is_seen(*literal) {
                self.meet(*literal, trail)?;
            }
        }
        Ok(())
    }

    // Puts the clause that forced a literal in its place.
    fn replace(&mut self, trail: &Trail, clauses: &Clauses, reason: usize) -> Result<(), NoMemory> {
        self.hints.push(reason)?;
        self.pending = self.pending.saturating_sub(1);
        match clause_of(clauses, reason) {
            Some(clause) => self.meet_clause(clause, trail),
            None => Ok(()),
        }
    }

    // Goes backwards to the first point.
    fn walk(&mut self, trail: &Trail, clauses: &Clauses) -> Result<(), NoMemory> {
        for entry in trail.entries().iter().rev() {
            if self.is_seen(entry.literal) {
                match entry.reason {
                    Some(reason) if self.pending > 1 => self.replace(trail, clauses, reason)?,
                    _ => {
                        self.literals.push(entry.literal.negated())?;
                        return Ok(());
                    }
                }
            }
        }
        Ok(())
    }

    /// Analyses the conflict at the clause of this number, and answers whether a literal was decided.
    pub(crate) fn analyse(
        &mut self,
        trail: &Trail,
        clauses: &Clauses,
        conflict: usize,
    ) -> Result<bool, NoMemory> {
        let Some(last) = last_decision(trail.entries()) else {
            return Ok(false);
        };
        self.clear(last);
        if let Some(clause) = clause_of(clauses, conflict) {
            self.meet_clause(clause, trail)?;
        }
        self.walk(trail, clauses)?;
        Ok(true)
    }

    // The clauses that forced literals, in their order, and the one that is false.
    fn hints(&self, alloc: Global, conflict: usize) -> Result<Vec<usize>, NoMemory> {
        let mut hints: Vec<usize> = self.hints.iter().rev().copied().collect(alloc)?;
        hints.push(conflict)?;
        Ok(hints)
    }

    /// The step that was found: its clause with its hints. None if its literals make no clause.
    pub fn step(&mut self, alloc: Global, conflict: usize) -> Result<Option<LogStep>, NoMemory> {
        // The last variable comes first, so that a clause finds the place of each literal at its front.
        self.literals
            .sort_unstable_by_key(|literal| u32::MAX - literal.variable());
        match Clause::from_literals(alloc, &self.literals)? {
            Some(clause) => Ok(Some(LogStep::new(clause, self.hints(alloc, conflict)?))),
            None => Ok(None),
        }
    }
}
