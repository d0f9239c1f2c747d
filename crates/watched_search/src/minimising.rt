//! Literals of a learnt clause that follow from the others, by the clauses that forced them, and by those that forced what stands
//! in these, and so on. They are left out, as in MiniSat: a walk goes from such a literal through the clauses behind it, and ends
//! where it meets a decision, or a level of which the clause has no literal.

use crate::analysis::Analysis;
use crate::assignment::{Assignment, DECIDED};
use crate::clause_store::ClauseStore;
use crate::code::Code;
use std::alloc::{AllocError as NoMemory, Global};

/// What a walk has yet to look at.
#[derive(Debug, Drop)]
pub(crate) struct Minimiser {
    to_come: Vec<Code>,
}

// A set of levels, as far as 64 bits tell them apart.
fn level_bit(level: u32) -> u64 {
    1u64 << (level % 64)
}

// The levels of which the clause has literals.
fn levels_of(assignment: &Assignment, clause: &[Code]) -> u64 {
    let mut levels = 0;
    for literal in clause {
        levels |= level_bit(assignment.cause(*literal).level);
    }
    levels
}

/// The trail, the clauses, and the levels of which the clause has literals.
#[derive(Clone, Copy)]
struct Grounds<'a> {
    assignment: &'a Assignment,
    clauses: &'a ClauseStore,
    levels: u64,
}

// Whether the walk may go on from this literal, which isn't one of the clause.
fn may_follow(grounds: Grounds<'_>, literal: Code) -> bool {
    let cause = grounds.assignment.cause(literal);
    cause.level == 0 || cause.reason != DECIDED && grounds.levels & level_bit(cause.level) != 0
}

impl Minimiser {
    pub(crate) fn new(alloc: Global) -> Minimiser {
        Minimiser {
            to_come: Vec::new(alloc),
        }
    }

    // Meets the literals of the clause that forced a literal. It answers whether all may follow from the learnt clause.
    fn follow(
        &mut self,
        analysis: &mut Analysis,
        grounds: Grounds<'_>,
        literal: Code,
    ) -> Result<bool, NoMemory> {
        let reason = grounds.assignment.cause(literal).reason;
        for other in grounds.clauses.all(reason) {
            if !analysis.is_seen(*other) {
                if !may_follow(grounds, *other) {
                    return Ok(false);
                }
                analysis.see(*other)?;
                if grounds.assignment.cause(*other).level > 0 {
                    self.to_come.push(*other)?;
                }
            }
        }
        Ok(true)
    }

    // Whether a literal of the clause follows from the others. What is met on the way stays met.
    fn follows(
        &mut self,
        analysis: &mut Analysis,
        grounds: Grounds<'_>,
        literal: Code,
    ) -> Result<bool, NoMemory> {
        if grounds.assignment.cause(literal).reason == DECIDED {
            return Ok(false);
        }
        self.to_come.clear();
        self.to_come.push(literal)?;
        for _ in 0..analysis.seen.len() {
            let Some(next) = self.to_come.pop() else {
                return Ok(true);
            };
            if !self.follow(analysis, grounds, next)? {
                return Ok(false);
            }
        }
        Ok(self.to_come.is_empty())
    }

    // Keeps what a walk met from this place on: it was replaced, or was false before any decision.
    fn keep(
        &mut self,
        analysis: &mut Analysis,
        grounds: Grounds<'_>,
        start: usize,
    ) -> Result<(), NoMemory> {
        for literal in analysis.met.get(start..).unwrap_or(&[]) {
            let cause = grounds.assignment.cause(*literal);
            if cause.level == 0 {
                analysis.fixed.push(*literal)?;
            } else {
                analysis.used.push(cause)?;
            }
        }
        Ok(())
    }

    // Leaves the literal out, where it follows from the others.
    fn try_without(
        &mut self,
        analysis: &mut Analysis,
        grounds: Grounds<'_>,
        literal: Code,
    ) -> Result<bool, NoMemory> {
        let start = analysis.met.len();
        if self.follows(analysis, grounds, literal)? {
            analysis.used.push(grounds.assignment.cause(literal))?;
            self.keep(analysis, grounds, start)?;
            return Ok(true);
        }
        analysis.forget_from(start);
        Ok(false)
    }

    /// Leaves out of what is learnt, from its second literal on, those that follow from the others.
    pub(crate) fn minimise(
        &mut self,
        analysis: &mut Analysis,
        assignment: &Assignment,
        clauses: &ClauseStore,
    ) -> Result<(), NoMemory> {
        let levels = levels_of(assignment, analysis.learnt.get(1..).unwrap_or(&[]));
        let grounds = Grounds {
            assignment,
            clauses,
            levels,
        };
        let mut kept: usize = 1;
        for place in 1..analysis.learnt.len() {
            let Some(literal) = analysis.learnt.get(place).copied() else {
                return Ok(());
            };
            if !self.try_without(analysis, grounds, literal)? {
                if let Some(slot) = analysis.learnt.get_mut(kept) {
                    *slot = literal;
                }
                kept = kept.saturating_add(1);
            }
        }
        analysis.learnt.truncate(kept);
        Ok(())
    }
}
