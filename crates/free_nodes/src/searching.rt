//! The ways from the root of a segment tree to the node that an order names.

ghost use Rattle.std.specs.Prelude.{◌≡◌, ◌+◌, ◌*◌, ◌%◌, ◌/◌, ◌<◌, ◌^◌, length};
ghost use Rattle.tree_core.specs.Orders.{drawn};
ghost use Rattle.free_nodes.specs.Entries.{sum_at, sum_from, IsTree};
ghost use Rattle.free_nodes.specs.Named.{IsNamedBy};

use crate::sum::FreeSum;
use tree_core::Order;

// The free node with so many free ones before it.
fn nth_free(entries: &[FreeSum], mut before: usize) -> usize
    requires tree { IsTree entries.now }
    requires there { before < (sum_at entries.now 1).free }
    ensures there { result < length entries.now / 2 }
    ensures free { 0 < (sum_at entries.now (length entries.now / 2 + result)).free }
    ensures before { (sum_from entries.now (length entries.now / 2) result).free ≡ before }
{
    let leaves = entries.len() / 2;
    let mut at = 1;
    while at < leaves {
        at *= 2;
        let left = entries[at].free;
        if before >= left {
            before -= left;
            at += 1;
        }
    }
    at - leaves
}

// The first of the deepest free nodes.
fn first_deepest(entries: &[FreeSum]) -> usize
    requires tree { IsTree entries.now }
    requires there { 0 < (sum_at entries.now 1).free }
    ensures there { result < length entries.now / 2 }
    ensures free { 0 < (sum_at entries.now (length entries.now / 2 + result)).free }
    ensures deepest { (sum_at entries.now (length entries.now / 2 + result)).deepest
        ≡ (sum_at entries.now 1).deepest }
    ensures before { 0 < (sum_from entries.now (length entries.now / 2) result).free
        → (sum_from entries.now (length entries.now / 2) result).deepest
        < (sum_at entries.now 1).deepest }
{
    let leaves = entries.len() / 2;
    let deepest = entries[1].deepest;
    let mut at = 1;
    while at < leaves {
        at *= 2;
        let left = entries[at];
        if left.free == 0 || left.deepest < deepest {
            at += 1;
        }
    }
    at - leaves
}

// The number that looks drawn by lot.
fn drawn(events: usize) -> usize
    ensures { result ≡ drawn events }
{
    ((events as u128 * 1_103_515_245 + 12_345) % (1 << 32) / (1 << 16)) as usize
}

/// How many nodes are free.
pub(crate) fn free_in(entries: &[FreeSum]) -> usize
    ensures { result ≡ (sum_at entries.now 1).free }
{
    if entries.len() > 1 {
        entries[1].free
    } else {
        0
    }
}

/// The free node that the order names behind so many events.
pub(crate) fn named_in(entries: &[FreeSum], order: Order, events: usize) -> usize
    requires tree { IsTree entries.now }
    requires some { 0 < (sum_at entries.now 1).free }
    ensures there { result < length entries.now / 2 }
    ensures free { 0 < (sum_at entries.now (length entries.now / 2 + result)).free }
    ensures named { IsNamedBy order events entries.now result }
{
    match order {
        Order::Deepest => first_deepest(entries),
        Order::Oldest => nth_free(entries, 0),
        Order::Mixed => nth_free(entries, drawn(events) % free_in(entries)),
    }
}
