//! Which of the clauses that were learnt the last one needs: itself, and the hints of each that is needed.

use crate::history::History;
use std::alloc::{AllocError as NoMemory, Global};

// Notes that these clauses are needed.
fn need(needed: &mut [bool], history: &History, hints: &[u32]) {
    for hint in hints {
        if let Some(place) = history.place_of(*hint) {
            if let Some(slot) = needed.get_mut(place) {
                *slot = true;
            }
        }
    }
}

/// Whether the last clause needs each. Hints come before what follows by them, so one walk backwards finds all.
pub(crate) fn needed_by_last(alloc: Global, history: &History) -> Result<Vec<bool>, NoMemory> {
    let mut needed = vec![in alloc; false; history.len()]?;
    if let Some(last) = needed.last_mut() {
        *last = true;
    }
    for place in (0..history.len()).rev() {
        if needed.get(place).copied().unwrap_or(false) {
            need(&mut needed, history, history.hints(place));
        }
    }
    Ok(needed)
}

/// Every clause, for a log that shows how many were learnt.
pub(crate) fn all(alloc: Global, history: &History) -> Result<Vec<bool>, NoMemory> {
    vec![in alloc; true; history.len()]
}
