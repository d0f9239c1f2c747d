//! What holds of every story, whatever its contents are.

ghost use Rattle.std.specs.Prelude.{◌≡◌, ◌≢◌, ◌↔◌, ◌<◌, ◌++◌, ℕ, length, All, List, IsTrue, IsFalse, false};
ghost use Rattle.std.specs.Global.{Vec};
ghost use Rattle.tree_core.specs.Stories.{Story, status, content, LastIsClaim};
ghost use Rattle.tree_core.specs.Covers.{Partition, standing_count};
ghost use Rattle.tree_core.specs.Replays.{AreFit, Replays, after_event, after_all, may_come, opening};
ghost use Rattle.tree_core.specs.declared.event.Event.{Event};
ghost use Rattle.tree_core.specs.declared.event.Kid.{Kid};
ghost use Rattle.tree_core.specs.Nodes.{Node};
ghost use Rattle.tree_core.specs.Orders.{is_named};
ghost use Rattle.tree_core.specs.WorkedOrders.{five_free, six_free, three_free};
ghost use Rattle.tree_core.specs.declared.order.Order.TheVariants.{Deepest, Oldest, Mixed};
ghost use Rattle.tree_core.specs.declared.node.Status.TheVariants.{Held};

use crate::cover::Cover;

/// From one free root on, after any events of any workers, refused ones among them: each assignment that the root covers is
/// covered by exactly one node that is free, held or a leaf; a node is held by a worker exactly where the last event noted of it
/// is that worker's claim; and a refused event has changed nothing.
pub fn every_list_of_events<R: Cover>()
    ensures exactly_one { (most : ℕ) (root : R) (events : List (Event R (Vec (Kid R))))
        (input : List ℕ)
        → AreFit R.covers R.by_nodes most (opening root false) events → IsTrue (R.covers root input)
        → standing_count R.covers (after_all R.by_nodes most (opening root false) events) input
        ≡ 1 }
    ensures partition { (most : ℕ) (root : R) (events : List (Event R (Vec (Kid R))))
        → AreFit R.covers R.by_nodes most (opening root false) events
        → Partition R.covers (after_all R.by_nodes most (opening root false) events) }
    ensures replays { (most : ℕ) (root : R) (events : List (Event R (Vec (Kid R))))
        → AreFit R.covers R.by_nodes most (opening root false) events
        → Replays R.covers R.by_nodes most (after_all R.by_nodes most (opening root false) events) }
    ensures held { (most : ℕ) (root : R) (events : List (Event R (Vec (Kid R)))) (node by : ℕ)
        → (status (after_all R.by_nodes most (opening root false) events) node ≡ Held by)
        ↔ LastIsClaim (after_all R.by_nodes most (opening root false) events) node by }
    ensures refused { (most : ℕ) (s : Story R) (event : Event R (Vec (Kid R)))
        → IsFalse (may_come R.by_nodes most s event)
        → after_event R.by_nodes most s event ≡ s }
{}

/// A claim survives what others do: where a tree has grown by nodes and by events of other workers alone, a node that the worker
/// held is held by it still, with the content that it had.
pub fn a_claim_survives<R: Cover>()
    ensures { (most : ℕ) (s t : Story R) (nodes : List (Node R)) (events : List (Event R ℕ))
        (node by : ℕ)
        → Replays R.covers R.by_nodes most t → t.nodes ≡ s.nodes ++ nodes → t.events ≡ s.events ++ events
        → All (λ (e : Event R ℕ). e.by ≢ by) events → node < length s.nodes
        → status s node ≡ Held by → (status t node ≡ Held by) × (content t node ≡ content s node) }
{}

/// Orders, followed by hand.
#[tactic(auto, unfolding(crate::specs::Orders::drawn, crate::specs::Orders::is_named))]
pub fn worked_orders()
    ensures deepest { IsTrue (is_named Deepest 0 three_free 3) }
    ensures no_less_number { IsFalse (is_named Deepest 0 three_free 4) }
    ensures not_so_deep { IsFalse (is_named Deepest 0 three_free 1) }
    ensures oldest { IsTrue (is_named Oldest 0 three_free 1) }
    ensures not_free { IsFalse (is_named Oldest 0 three_free 0) }
    ensures not_there { IsFalse (is_named Oldest 0 three_free 5) }
    ensures mixed { IsTrue (is_named Mixed 2 six_free 5) }
    ensures mixed_again { IsTrue (is_named Mixed 4 five_free 3) }
    ensures not_drawn { IsFalse (is_named Mixed 4 five_free 4) }
{}
