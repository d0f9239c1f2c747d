//! Why an event isn't noted.

ghost use Rattle.std.specs.Prelude.{◌≡◌};
ghost use Rattle.tree_core.specs.declared.refusal.Refusal.TheVariants.{NoMemory};

use crate::node::Status;
use std::alloc::AllocError;

/// Why an event isn't noted.
#[derive(Clone, Copy, Debug, PartialEq, Eq)]
pub enum Refusal {
    /// The node doesn't stand as the event needs it: free for a claim, and else held by the event's worker.
    NotNow { node: usize, status: Status },
    /// The tree has as many nodes as it may have, or more, so that no node may be parted.
    Full { nodes: usize },
    /// The tree has fewer nodes than it may have, so that none may be cut for want of nodes.
    Early { nodes: usize },
    /// Memory was refused.
    NoMemory,
}

impl From<AllocError> for Refusal {
    ghost from_gives = { λ _ e. e ≡ NoMemory };

    fn from(_error: AllocError) -> Refusal {
        Refusal::NoMemory
    }
}
