//! The analysis of a conflict. Backwards along the trail, each literal made true since the last decision on which the conflict
//! rests is replaced by the clause that forced it, until one is left: the first unique implication point. Its negation and the
//! false literals of earlier levels are the clause to learn. Those that were false before any decision go with it apart.

use crate::assignment::{Assignment, Cause};
use crate::clause_store::ClauseStore;
use crate::code::Code;
use std::alloc::{AllocError as NoMemory, Global};

/// What an analysis has met. It is kept from one conflict to the next, and cleared by what it met, so that a conflict pays for
/// nothing else.
#[derive(Debug)]
pub(crate) struct Analysis {
    /// Whether a variable was met, by variable.
    pub(crate) seen: Vec<bool>,
    /// Literals of these variables, as they were met.
    pub(crate) met: Vec<Code>,
    /// The clause: the negation of the first point, and the literals of earlier levels.
    pub(crate) learnt: Vec<Code>,
    /// Its literals that were false before any decision.
    pub(crate) fixed: Vec<Code>,
    /// The causes of the literals that were replaced.
    pub(crate) used: Vec<Cause>,
    /// How many variables of the last level were met and not yet replaced.
    pending: u32,
}

impl Drop for Analysis {
    fn drop(self) {
        let Self {
            seen: _seen,
            met: _met,
            learnt: _learnt,
            fixed: _fixed,
            used: _used,
            pending: _pending,
        } = self;
    }
}

impl Analysis {
    /// Nothing, of variables up to this one.
    pub(crate) fn new(alloc: Global, last: u32) -> Result<Analysis, NoMemory> {
        Ok(Analysis {
            seen: vec![in alloc; false; last as usize + 1]?,
            met: Vec::new(alloc),
            learnt: Vec::new(alloc),
            fixed: Vec::new(alloc),
            used: Vec::new(alloc),
            pending: 0,
        })
    }

    pub(crate) fn is_seen(&self, literal: Code) -> bool {
        self.seen.get(literal.place()).copied().unwrap_or(true)
    }

    pub(crate) fn see(&mut self, literal: Code) -> Result<(), NoMemory> {
        self.met.push(literal)?;
        if let Some(seen) = self.seen.get_mut(literal.place()) {
            *seen = true;
        }
        Ok(())
    }

    /// Forgets what was met from this place on.
    pub(crate) fn forget_from(&mut self, start: usize) {
        for literal in self.met.get(start..).unwrap_or(&[]) {
            if let Some(seen) = self.seen.get_mut(literal.place()) {
                *seen = false;
            }
        }
        self.met.truncate(start);
    }

    // Forgets what was met.
    fn clear(&mut self) {
        self.forget_from(0);
        self.learnt.clear();
        self.fixed.clear();
        self.used.clear();
        self.pending = 0;
    }

    // Meets a false literal for the first time.
    fn meet(&mut self, literal: Code, assignment: &Assignment) -> Result<(), NoMemory> {
        self.see(literal)?;
        let level = assignment.cause(literal).level;
        if level == assignment.level() {
            self.pending = self.pending.saturating_add(1);
        } else if level == 0 {
            self.fixed.push(literal)?;
        } else {
            self.learnt.push(literal)?;
        }
        Ok(())
    }

    // Meets the literals of a clause.
    fn meet_clause(&mut self, clause: &[Code], assignment: &Assignment) -> Result<(), NoMemory> {
        for literal in clause {
            if !self.is_seen(*literal) {
                self.meet(*literal, assignment)?;
            }
        }
        Ok(())
    }

    // Goes backwards to the first point, and answers its negation.
    fn walk(
        &mut self,
        assignment: &Assignment,
        clauses: &ClauseStore,
    ) -> Result<Option<Code>, NoMemory> {
        for literal in assignment.trail().iter().rev() {
            if self.is_seen(*literal) {
                if self.pending <= 1 {
                    return Ok(Some(literal.negated()));
                }
                let cause = assignment.cause(*literal);
                self.pending -= 1;
                self.used.push(cause)?;
                self.meet_clause(clauses.all(cause.reason), assignment)?;
            }
        }
        Ok(None)
    }

    /// Analyses the conflict at the clause of this number, after a decision. The first literal of what is learnt is the negation
    /// of the first point.
    pub(crate) fn analyse(
        &mut self,
        assignment: &Assignment,
        clauses: &ClauseStore,
        conflict: u32,
    ) -> Result<(), NoMemory> {
        self.clear();
        self.meet_clause(clauses.all(conflict), assignment)?;
        if let Some(first) = self.walk(assignment, clauses)? {
            self.learnt.push(first)?;
            let last = self.learnt.len() - 1;
            self.learnt.swap(0, last);
        }
        Ok(())
    }

    /// Takes all that is true, before any decision, for what the conflict at the clause of this number rests on.
    pub(crate) fn refute(
        &mut self,
        assignment: &Assignment,
        clauses: &ClauseStore,
        conflict: u32,
    ) -> Result<(), NoMemory> {
        self.clear();
        for literal in clauses.all(conflict) {
            self.see(*literal)?;
        }
        for literal in assignment.trail().iter().rev() {
            if self.is_seen(*literal) {
                let cause = assignment.cause(*literal);
                self.used.push(cause)?;
                for other in clauses.all(cause.reason) {
                    if !self.is_seen(*other) {
                        self.see(*other)?;
                    }
                }
            }
        }
        Ok(())
    }
}
