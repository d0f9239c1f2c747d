//! The terms that some terms of a table stand on, found from the last of them down.

ghost use Rattle.std.specs.Prelude.{◌≡◌, ◌<◌, [], All, IfOk, length};
ghost use Rattle.std.specs.List.Sorted.{IsStrictlyIncreasing};
ghost use Rattle.query_pick.specs.Cones.{IsCone};
ghost use Rattle.query_pick.specs.Operands.{Adds};

use crate::operands::{add, add_operands};
use bv_dag::Table;
use std::alloc::{AllocError as NoMemory, Global};

// Room for so many places is there from the start. Most questions stand on fewer terms; and a list that grows asks the
// allocator for its turn each time, for which the workers wait.
const ROOM: usize = 96;

// These places in order, once each, with room for others.
fn in_order(alloc: Global, places: &[usize]) -> Result<Vec<usize>, NoMemory>
    ensures adds { IfOk result (λ all. Adds [] all.items places.now) }
    ensures increasing { IfOk result (λ all. IsStrictlyIncreasing all.items) }
{
    let mut all = Vec::with_capacity(alloc, places.len().saturating_add(ROOM))?;
    for id in places {
        add(&mut all, *id)?;
    }
    Ok(all)
}

/// The places of all terms under some terms of a table, in order. It looks at these terms only, and at each once.
pub fn cone<T: Table>(alloc: Global, terms: &T, tops: &[usize]) -> Result<Vec<usize>, NoMemory>
    requires { All (λ id. id < length (T.graph terms.now).nodes) tops.now }
    ensures { IfOk result (λ places. IsCone (T.graph terms.now) tops.now places.items) }
{
    let mut pending = in_order(alloc, tops)?;
    // The greatest first: what a term stands on comes after it.
    let mut found = Vec::with_capacity(alloc, ROOM)?;
    while let Some(id) = pending.pop() {
        found.push(id)?;
        add_operands(&mut pending, terms.node(id))?;
    }
    found.reverse();
    Ok(found)
}
