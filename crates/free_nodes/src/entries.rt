//! A segment tree: the entries of a list, of which each with children is the sum of both.

ghost use Rattle.std.specs.Prelude.{◌≡◌, ◌+◌, ◌*◌, ◌/◌, ◌%◌, ◌<◌, ◌≤◌, ◌^◌, [], Some, IfOk, length, slice_set};
ghost use Rattle.free_nodes.specs.Entries.{sum_at, AreSameFrom, IsJoined};
ghost use Rattle.free_nodes.specs.Listings.{candidate_of, candidates_of, HasLeaves};
ghost use Rattle.free_nodes.specs.Sums.{sum_of_both, sum_of};

use crate::claimable::Claimable;
use crate::sum::FreeSum;
use std::alloc::{AllocError as NoMemory, Global};

// Makes an entry the sum of its children.
fn join_at(entries: &mut [FreeSum], at: usize)
    requires there { at * 2 + 1 < length entries.old }
    requires fits { (sum_at entries.old (at * 2)).free + (sum_at entries.old (at * 2 + 1)).free < 2 ^ 64 }
    ensures { entries.new ≡ slice_set entries.old at
        (sum_of_both (sum_at entries.old (at * 2)) (sum_at entries.old (at * 2 + 1))) }
{
    entries[at] = entries[at * 2].join(entries[at * 2 + 1]);
}

// Makes the entries above one the sums of their children again, where that one was changed.
fn join_above(entries: &mut [FreeSum], changed: usize)
    requires there { changed < length entries.old }
    requires long { length entries.old < 2 ^ 64 }
    requires even { length entries.old % 2 ≡ 0 }
    requires joined { IsJoined entries.old 1 (changed / 2) }
    ensures joined { IsJoined entries.new 1 0 }
    ensures same { AreSameFrom (length entries.old / 2) entries.old entries.new }
{
    let mut at = changed / 2;
    while at > 0 {
        join_at(entries, at);
        at /= 2;
    }
}

// Makes all entries the sums of their children, where the leaves stand.
fn join_all(entries: &mut [FreeSum])
    requires long { length entries.old < 2 ^ 64 }
    requires joined { IsJoined entries.old (length entries.old / 2) 0 }
    ensures joined { IsJoined entries.new 1 0 }
    ensures same { AreSameFrom (length entries.old / 2) entries.old entries.new }
{
    let mut at = entries.len() / 2;
    while at > 1 {
        at -= 1;
        join_at(entries, at);
    }
}

/// Puts a node in place of the one at a leaf.
pub(crate) fn put_leaf(entries: &mut [FreeSum], leaf: usize, node: Claimable)
    requires there { leaf < length entries.old }
    requires leaf { length entries.old ≤ leaf * 2 }
    requires long { length entries.old < 2 ^ 64 }
    requires even { length entries.old % 2 ≡ 0 }
    requires joined { IsJoined entries.old 1 0 }
    ensures joined { IsJoined entries.new 1 0 }
    ensures same { AreSameFrom (length entries.old / 2)
        (slice_set entries.old leaf (sum_of (Some (candidate_of node)))) entries.new }
{
    entries[leaf] = FreeSum::of(node);
    join_above(entries, leaf);
}

// Puts the nodes in the first leaves, where no leaf had one.
fn put_leaves(entries: &mut [FreeSum], nodes: &[Claimable])
    requires long { length entries.old < 2 ^ 64 }
    requires even { length entries.old % 2 ≡ 0 }
    requires within { length nodes.now * 2 ≤ length entries.old }
    requires joined { IsJoined entries.old (length entries.old / 2) 0 }
    requires none { HasLeaves [] (length entries.old / 2) entries.old }
    ensures joined { IsJoined entries.new (length entries.old / 2) 0 }
    ensures leaves { HasLeaves (candidates_of nodes.now) (length entries.old / 2) entries.new }
{
    let leaves = entries.len() / 2;
    for (i, node) in nodes.iter().enumerate() {
        entries[leaves + i] = FreeSum::of(*node);
    }
}

/// A segment tree with so many leaves, of which the first have these nodes.
pub(crate) fn tree_over(
    alloc: Global,
    nodes: &[Claimable],
    leaves: usize,
) -> Result<Vec<FreeSum>, NoMemory>
    requires fits { leaves * 2 < 2 ^ 64 }
    requires within { length nodes.now ≤ leaves }
    ensures long { IfOk result (λ entries. length entries.items ≡ leaves * 2) }
    ensures joined { IfOk result (λ entries. IsJoined entries.items 1 0) }
    ensures leaves { IfOk result (λ entries. HasLeaves (candidates_of nodes.now) leaves entries.items) }
{
    let mut entries = Vec::with_capacity(alloc, leaves * 2)?;
    entries.resize(leaves * 2, FreeSum::none())?;
    put_leaves(&mut entries, nodes);
    join_all(&mut entries);
    Ok(entries)
}
