//! What follows from the literals that have become true. Each clause watches two of its literals that aren't false, and only where
//! one of them becomes false is it read: for another literal to watch, and where there is none the other watched one is forced, or
//! the clause is false.

use crate::assignment::Assignment;
use crate::clause_store::ClauseStore;
use crate::code::Code;
use crate::watches::{END, Watches};
use std::alloc::AllocError as NoMemory;

/// What a clause comes to, of whose watched literals one has become false.
#[derive(Clone, Copy, Debug)]
enum Seen {
    /// This literal is true.
    Satisfied(Code),
    /// This literal isn't false, and is watched in the place of the other; the second is the one that stays.
    Moved(Code, Code),
    /// This literal is forced.
    Forces(Code),
    /// Each literal is false.
    Falsified,
}

// The first place from the third on of a literal that isn't false.
fn other_place(assignment: &Assignment, clause: &[Code]) -> Option<usize> {
    for place in 2..clause.len() {
        if !assignment.is_false(clause[place]) {
            return Some(place);
        }
    }
    None
}

// Looks at a clause of which this watched literal has become false, and puts those to watch in front.
fn look(assignment: &Assignment, clause: &mut [Code], falsified: Code) -> Seen {
    if clause.len() < 2 {
        return Seen::Satisfied(falsified);
    }
    if clause[0] == falsified {
        clause.swap(0, 1);
    }
    let first = clause[0];
    if assignment.is_true(first) {
        return Seen::Satisfied(first);
    }
    if let Some(place) = other_place(assignment, clause) {
        if place < clause.len() {
            clause.swap(1, place);
            return Seen::Moved(clause[1], first);
        }
    }
    if assignment.is_false(first) {
        Seen::Falsified
    } else {
        Seen::Forces(first)
    }
}

// Looks at the clauses in which the literal is watched, which has become false. It answers the number of one that is false.
fn look_at(
    assignment: &mut Assignment,
    clauses: &mut ClauseStore,
    watches: &mut Watches,
    falsified: Code,
) -> Result<Option<u32>, NoMemory> {
    let mut before = END;
    let mut place = watches.first(falsified);
    for _ in 0..watches.len() {
        let Some(watch) = watches.get(place) else {
            return Ok(None);
        };
        let next = watches.after(place);
        if assignment.is_true(watch.blocker) {
            before = place;
        } else {
            match look(assignment, clauses.looked_at(watch.clause), falsified) {
                Seen::Satisfied(literal) => {
                    watches.block(place, literal);
                    before = place;
                }
                Seen::Moved(literal, blocker) => {
                    watches.block(place, blocker);
                    watches.move_to(before, place, falsified, literal);
                }
                Seen::Forces(literal) => {
                    assignment.enqueue(literal, watch.clause)?;
                    before = place;
                }
                Seen::Falsified => return Ok(Some(watch.clause)),
            }
        }
        place = next;
    }
    Ok(None)
}

/// Makes literals true that follow, until a clause is false, whose number is the answer, or nothing more follows.
pub(crate) fn propagate(
    assignment: &mut Assignment,
    clauses: &mut ClauseStore,
    watches: &mut Watches,
    variables: u32,
) -> Result<Option<u32>, NoMemory> {
    for _ in 0..=variables {
        let Some(literal) = assignment.take_next() else {
            return Ok(None);
        };
        let conflict = look_at(assignment, clauses, watches, literal.negated())?;
        if conflict.is_some() {
            return Ok(conflict);
        }
    }
    Ok(None)
}
