//! The nodes by number.

ghost use Rattle.std.specs.Prelude.{◌≡◌, ◌↔◌, ◌+◌, ◌++◌, ◌∷◌, ◌<◌, ◌≤◌, ◌^◌, [], IfSome, IsNone, IsTrue, OnOk, Some, length, slice_get, slice_set};
ghost use Rattle.tree_core.specs.Orders.{Candidate, free_count, is_named};

use crate::claimable::Claimable;
use crate::entries::{put_leaf, tree_over};
use crate::searching::{free_in, named_in};
use crate::sum::FreeSum;
use std::alloc::{AllocError as NoMemory, Global};
use std::marker::Model;
use tree_core::Order;

/// The nodes of a tree by number: how many choices lead to each, and whether it is free. Which of the free ones an order names is
/// found, and a change noted, in time that is logarithmic in how many there are.
pub struct FreeNodes {
    alloc: Global,
    nodes: Vec<Claimable>,
    /// There is room for so many, a power of two or 0.
    capacity: usize,
    /// A segment tree over the nodes: as many leaves as there is room for, and as many entries before them.
    entries: Vec<FreeSum>,
}

impl Drop for FreeNodes {
    fn drop(self) {
        let Self {
            alloc: _alloc,
            nodes: _nodes,
            capacity: _capacity,
            entries: _entries,
        } = self;
    }
}

impl Model for FreeNodes {
    ghost use Rattle.std.specs.Prelude.{◌≤◌, vec_capacity};
    ghost use Rattle.free_nodes.specs.Listings.{candidates_of, IsOver, Listed};

    ghost Value = { Listed };

    ghost view = { λ n. record { nodes = candidates_of n.nodes.items; capacity = n.capacity } };

    ghost invariant = { λ n. (n.capacity ≤ vec_capacity n.nodes) × IsOver (candidates_of n.nodes.items) n.capacity n.entries.items };
}

impl FreeNodes {
    /// No node yet, and no memory taken.
    pub fn new(alloc: Global) -> FreeNodes
        ensures nodes { result.nodes ≡ [] }
    {
        FreeNodes {
            alloc,
            nodes: Vec::new(alloc),
            capacity: 0,
            entries: Vec::new(alloc),
        }
    }

    /// Finds room for so many more nodes. Room that is too small is at least doubled, so that all copying together is linear in the
    /// number of nodes. No memory has room for 2^62 nodes.
    pub fn reserve(&mut self, more: usize) -> Result<(), NoMemory>
        requires fits { length self.old.nodes + more < 2 ^ 64 }
        ensures nodes { self.new.nodes ≡ self.old.nodes }
        ensures capacity { self.old.capacity ≤ self.new.capacity }
        ensures ok { OnOk result (length self.new.nodes + more ≤ self.new.capacity) }
    {
        let wanted = self.nodes.len() + more;
        if wanted <= self.capacity {
            return Ok(());
        }
        if wanted >= 1 << 62 {
            return Err(NoMemory);
        }
        let capacity = wanted.next_power_of_two();
        self.nodes.reserve(capacity - self.nodes.len())?;
        self.entries = tree_over(self.alloc, &self.nodes, capacity)?;
        self.capacity = capacity;
        Ok(())
    }

    /// Puts a node behind the others.
    pub fn push(&mut self, depth: usize, is_free: bool)
        requires room { length self.old.nodes < self.old.capacity }
        ensures nodes { self.new.nodes
            ≡ self.old.nodes ++ record { depth = depth; is_free = is_free } ∷ [] }
        ensures capacity { self.new.capacity ≡ self.old.capacity }
    {
        let node = Claimable { depth, is_free };
        put_leaf(&mut self.entries, self.capacity + self.nodes.len(), node);
        self.nodes.push_reserved(node);
    }

    /// Notes whether a node is free from now on.
    pub fn set_free(&mut self, node: usize, is_free: bool)
        requires there { node < length self.old.nodes }
        ensures nodes { (old : Candidate) → slice_get self.old.nodes node ≡ Some old
            → self.new.nodes ≡ slice_set self.old.nodes node (record old { is_free = is_free }) }
        ensures len { length self.new.nodes ≡ length self.old.nodes }
        ensures capacity { self.new.capacity ≡ self.old.capacity }
    {
        let changed = Claimable {
            depth: self.nodes[node].depth,
            is_free,
        };
        put_leaf(&mut self.entries, self.capacity + node, changed);
        self.nodes[node] = changed;
    }

    /// How many choices lead to a node.
    pub fn depth(&self, node: usize) -> usize
        requires there { node < length self.now.nodes }
        ensures within { length self.now.nodes ≤ self.now.capacity }
        ensures depth { (c : Candidate) → slice_get self.now.nodes node ≡ Some c → result ≡ c.depth }
    {
        self.nodes[node].depth
    }

    /// The free node that the order names behind so many events, if one is free.
    pub fn next(&self, order: Order, events: usize) -> Option<usize>
        ensures some { IfSome result (λ node. IsTrue (is_named order events self.now.nodes node)) }
        ensures none { IsNone result ↔ (free_count self.now.nodes ≡ 0) }
    {
        if free_in(&self.entries) == 0 {
            return None;
        }
        Some(named_in(&self.entries, order, events))
    }
}
