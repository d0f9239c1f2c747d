//! What a deed needs of its node and of the tree.

ghost use Rattle.std.specs.Prelude.{◌≡◌, ◌+◌, ◌<◌, ◌≤◌, ◌^◌};
ghost use Rattle.tree_core.specs.Replays.{allows, is_early, is_full};
ghost use Rattle.tree_core.specs.Cores.{takes, ends};

use crate::cover::Cover;
use crate::event::Deed;
use crate::node::Status;

impl<R, K> Deed<R, K> {
    /// Whether the worker may do this to a node that stands so.
    pub(crate) fn is_allowed(&self, status: Status, by: u32) -> bool
        ensures { result ≡ allows status by self.now }
    {
        match (self, status) {
            (Deed::Claim, Status::Free) => true,
            (Deed::Claim, _) => false,
            (_, Status::Held(holder)) => holder == by,
            (_, _) => false,
        }
    }

    // Whether it is a split where there are as many nodes as there may be, or more.
    pub(crate) fn is_full(&self, most: usize, nodes: usize) -> bool
        ensures { result ≡ is_full most nodes self.now }
    {
        match self {
            Deed::Split(_) => most <= nodes,
            Deed::Claim | Deed::Finish(_) | Deed::Cut(_) | Deed::Release => false,
        }
    }
}

impl<R: Cover, K> Deed<R, K> {
    // Whether it is a cut for want of nodes where there are fewer than there may be.
    pub(crate) fn is_early(&self, most: usize, nodes: usize) -> bool
        ensures { result ≡ is_early R.by_nodes most nodes self.now }
    {
        match self {
            Deed::Cut(leaf) => leaf.is_by_nodes() && nodes < most,
            Deed::Claim | Deed::Split(_) | Deed::Finish(_) | Deed::Release => false,
        }
    }
}

// How many nodes are held after the deed.
pub(crate) fn held_after<R>(held: usize, deed: &Deed<R>) -> usize
    requires ends { ends deed.now ≤ held }
    requires fits { held + takes deed.now < 2 ^ 64 }
    ensures { result + ends deed.now ≡ held + takes deed.now }
{
    match deed {
        Deed::Claim => held + 1,
        _ => held - 1,
    }
}
