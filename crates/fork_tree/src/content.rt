//! What a node holds.

ghost use Rattle.std.specs.Prelude.{◌≡◌};
ghost use Rattle.fork_spec.specs.Walks.{is_by_nodes};
ghost use Rattle.fork_tree.specs.Contents.{place_in};

use fork_spec::Placed;
use std::alloc::Global;
use std::sync::Arc;
use tree_core::{Cause, Cover};

/// A state, on which there is work left, or a leaf.
#[derive(Drop)]
pub enum Content<S: Drop, L: Drop> {
    Open(Arc<S, Global>),
    Shut(L),
}

impl<S: Placed, L: Placed> Placed for Content<S, L> {
    ghost place = { place_in S.place L.place };

    fn cut(&self) -> Option<Cause> {
        match self {
            Content::Open(state) => state.cut(),
            Content::Shut(leaf) => leaf.cut(),
        }
    }
}

// Whether a leaf that was cut so was cut for want of nodes.
fn is_by_nodes(cut: Option<Cause>) -> bool
    ensures { result ≡ is_by_nodes cut }
{
    match cut {
        Some(Cause::Nodes) => true,
        Some(Cause::Steps | Cause::Targets | Cause::Conflicts) | None => false,
    }
}

impl<S: Placed, L: Placed> Cover for Content<S, L> {
    ghost covers = { λ content. (place_in S.place L.place content).covers };

    ghost by_nodes = { λ content. is_by_nodes (place_in S.place L.place content).cut };

    fn is_by_nodes(&self) -> bool {
        is_by_nodes(self.cut())
    }
}
