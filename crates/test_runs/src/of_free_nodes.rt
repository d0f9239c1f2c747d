//! Nodes that orders name, by rows that were followed by hand.

ghost use Rattle.std.specs.Prelude.{◌≡◌, ◌<◌, IfOk, length};

use free_nodes::FreeNodes;
use std::alloc::{AllocError as NoMemory, Global};
use std::test::Fail;
use tree_core::Order;

/// The root was parted into two nodes, and the second of these too; all but these two are free. Each row has how many choices lead
/// to a node, and whether it is free.
const THREE_FREE: [(usize, bool); 5] = [(0, false), (1, true), (1, false), (2, true), (2, true)];

/// Which of these nodes an order names behind so many events. Behind 0, 1 and 2, the numbers 0, 16838 and 33676 are drawn.
const NAMED: [(Order, usize, usize); 6] = [
    (Order::Deepest, 0, 3),
    (Order::Oldest, 0, 1),
    (Order::Mixed, 0, 1),
    (Order::Mixed, 1, 4),
    (Order::Mixed, 2, 3),
    (Order::Mixed, 0x1_0000_0002, 3),
];

/// The root was parted into six nodes that are free and one that isn't.
const SIX_FREE: [(usize, bool); 8] = [
    (0, false),
    (1, true),
    (1, true),
    (1, true),
    (1, true),
    (1, true),
    (1, true),
    (1, false),
];

// Finds room for each node as it comes.
fn listed(alloc: Global, rows: &[(usize, bool)]) -> Result<FreeNodes, NoMemory>
    requires { length rows.now < 100 }
    ensures { IfOk result (λ nodes. length nodes.nodes ≡ length rows.now) }
{
    let mut nodes = FreeNodes::new(alloc);
    for (depth, is_free) in rows {
        nodes.reserve(1)?;
        nodes.push(*depth, *is_free);
    }
    Ok(nodes)
}

#[test]
fn orders_name_free_nodes(rt: HostRuntime) -> Result<(), Fail> {
    let nodes = listed(rt.alloc(), &THREE_FREE)?;
    for (order, events, want) in NAMED {
        assert_eq!(rt;
            nodes.next(order, events),
            Some(want),
            "{order:?} behind {events}"
        );
    }
    Ok(())
}

#[test]
fn what_was_claimed_is_not_named(rt: HostRuntime) -> Result<(), Fail> {
    let mut nodes = listed(rt.alloc(), &SIX_FREE)?;
    assert_eq!(rt; nodes.next(Order::Mixed, 2), Some(5));
    nodes.set_free(5, false);
    assert_eq!(rt; nodes.next(Order::Mixed, 4), Some(3));
    assert_eq!(rt; nodes.depth(5), 1);
    nodes.set_free(5, true);
    assert_eq!(rt; nodes.next(Order::Mixed, 2), Some(5));
    Ok(())
}

#[test]
fn none_is_named_where_none_is_free(rt: HostRuntime) -> Result<(), Fail> {
    let mut nodes = FreeNodes::new(rt.alloc());
    assert_eq!(rt; nodes.next(Order::Deepest, 0), None);
    nodes.reserve(1)?;
    nodes.push(7, false);
    assert_eq!(rt; nodes.next(Order::Oldest, 0), None);
    Ok(())
}
