//! The slice of a condition.

ghost use Rattle.std.specs.Prelude.{◌≡◌, All, Contains, IfOk, filter, length, map};
ghost use Rattle.std.specs.List.Sorted.{IsStrictlyIncreasing};
ghost use Rattle.bv_dag.specs.Graphs.{Graph};
ghost use Rattle.bv_dag.specs.Queries.{AreBits};
ghost use Rattle.query_slice.specs.Classes.{first_under, is_reached};
ghost use Rattle.query_slice.specs.Slices.{IsCut};

use crate::linking::{Links, links_of};
use bv_dag::{Query, Table};
use query_pick::pick;
use std::alloc::{AllocError as NoMemory, Global};

// Whether a term is the new one, or stands on a byte of the class of one under the new one.
fn is_reached(links: &Links, new: usize, id: usize) -> bool
    requires increasing { IsStrictlyIncreasing links.now.places.items }
    requires each { length links.now.firsts.items ≡ length links.now.places.items }
    requires new { Contains links.now.places.items new }
    requires there { Contains links.now.places.items id }
    ensures { (graph : Graph)
        → links.now.firsts.items ≡ map (first_under graph) links.now.places.items
        → result ≡ is_reached graph links.now.classes new id }
{
    id == new || links.are_one(id, new)
}

// Those of some terms that are reached from the new one.
fn reached(
    alloc: Global,
    links: &Links,
    new: usize,
    asserted: &[usize],
) -> Result<Vec<usize>, NoMemory>
    requires increasing { IsStrictlyIncreasing links.now.places.items }
    requires each { length links.now.firsts.items ≡ length links.now.places.items }
    requires new { Contains links.now.places.items new }
    requires there { All (Contains links.now.places.items) asserted.now }
    ensures { (graph : Graph)
        → links.now.firsts.items ≡ map (first_under graph) links.now.places.items
        → IfOk result (λ kept. kept.items
        ≡ filter (is_reached graph links.now.classes new) asserted.now) }
{
    let mut kept = Vec::new(alloc);
    for id in asserted {
        if is_reached(links, new, *id) {
            kept.push(*id)?;
        }
    }
    Ok(kept)
}

/// The part of a condition that matters for one of its terms: the asserted terms of a table that share input bytes with it,
/// directly or through others, in a graph of only what they stand on.
pub fn slice<T: Table>(
    alloc: Global,
    terms: &T,
    asserted: &[usize],
    new: usize,
) -> Result<Query, NoMemory>
    requires bits { AreBits (T.graph terms.now) asserted.now }
    requires there { Contains asserted.now new }
    ensures { IfOk result (IsCut
        (record { graph = T.graph terms.now; asserted = asserted.now }) new) }
{
    let links = links_of(alloc, terms, asserted)?;
    let kept = reached(alloc, &links, new, asserted)?;
    pick(alloc, terms, &kept)
}
