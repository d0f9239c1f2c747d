//! Literals of a learnt clause that were false before any decision, and follow from others that were by the short clause that forced
//! each. They are left out, and that clause is a hint, so that a log has fewer literals to put in order.

use crate::analysis::Analysis;
use crate::assignment::{Assignment, DECIDED};
use crate::clause_store::ClauseStore;
use crate::code::Code;
use std::alloc::AllocError as NoMemory;

// Clauses with more literals aren't read for that.
const MOST_READ: usize = 8;

// Whether the learnt clause rests on all literals of the clause that made this one false.
fn follows(
    analysis: &Analysis,
    assignment: &Assignment,
    clauses: &ClauseStore,
    literal: Code,
) -> bool {
    let reason = assignment.cause(literal).reason;
    let clause = clauses.all(reason);
    if reason == DECIDED || clause.len() > MOST_READ {
        return false;
    }
    for other in clause {
        if !analysis.is_seen(*other) {
            return false;
        }
    }
    true
}

/// Leaves out of what was false before any decision what follows from the rest.
pub(crate) fn leave_out(
    analysis: &mut Analysis,
    assignment: &Assignment,
    clauses: &ClauseStore,
) -> Result<(), NoMemory> {
    let mut kept: usize = 0;
    for place in 0..analysis.fixed.len() {
        let Some(literal) = analysis.fixed.get(place).copied() else {
            return Ok(());
        };
        if follows(analysis, assignment, clauses, literal) {
            analysis.used.push(assignment.cause(literal))?;
        } else {
            if let Some(slot) = analysis.fixed.get_mut(kept) {
                *slot = literal;
            }
            kept = kept.saturating_add(1);
        }
    }
    analysis.fixed.truncate(kept);
    Ok(())
}
