//! What is known of several nodes together.

ghost use Rattle.std.specs.Prelude.{◌≡◌, ◌+◌, ◌<◌, ◌^◌, Some};
ghost use Rattle.free_nodes.specs.Listings.{candidate_of};
ghost use Rattle.free_nodes.specs.Sums.{sum_of_both, none_free, sum_of};

use crate::claimable::Claimable;

/// How many of several nodes are free, and the greatest depth of a free one, which is 0 where none is.
#[derive(Clone, Copy)]
pub(crate) struct FreeSum {
    pub(crate) free: usize,
    pub(crate) deepest: usize,
}

impl FreeSum {
    /// Of no nodes.
    pub(crate) fn none() -> FreeSum
        ensures { result ≡ none_free }
    {
        FreeSum {
            free: 0,
            deepest: 0,
        }
    }

    /// Of one node.
    pub(crate) fn of(node: Claimable) -> FreeSum
        ensures { result ≡ sum_of (Some (candidate_of node)) }
    {
        if node.is_free {
            FreeSum {
                free: 1,
                deepest: node.depth,
            }
        } else {
            FreeSum::none()
        }
    }

    /// Of the nodes of both.
    pub(crate) fn join(self, other: FreeSum) -> FreeSum
        requires { self.free + other.free < 2 ^ 64 }
        ensures { result ≡ sum_of_both self other }
    {
        FreeSum {
            free: self.free + other.free,
            deepest: self.deepest.max(other.deepest),
        }
    }
}
