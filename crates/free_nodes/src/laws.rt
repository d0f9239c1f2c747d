//! What follows from the definition of the orders.

ghost use Rattle.std.specs.Prelude.{◌≡◌, ◌<◌, ℕ, List, IsFalse, IsTrue, Some, length, slice_get};
ghost use Rattle.tree_core.specs.Orders.{Candidate, free_count, is_named};
ghost use Rattle.tree_core.specs.declared.order.Order.{Order};

/// What an order names is there, and free.
pub fn what_is_named_is_free()
    ensures there { (order : Order) (events : ℕ) (nodes : List Candidate) (node : ℕ)
        → IsTrue (is_named order events nodes node) → node < length nodes }
    ensures free { (order : Order) (events : ℕ) (nodes : List Candidate) (node : ℕ) (c : Candidate)
        → IsTrue (is_named order events nodes node) → slice_get nodes node ≡ Some c → IsTrue c.is_free }
{}

/// Where none is counted, none is free.
pub fn none_counted_none_free()
    ensures { (nodes : List Candidate) (node : ℕ) (c : Candidate) → free_count nodes ≡ 0
        → slice_get nodes node ≡ Some c → IsFalse c.is_free }
{}
