//! A tree as a lock hands it out, and what a worker does to it in one turn.

ghost use Rattle.std.specs.Prelude.{◌≡◌, ◌<◌, Bool, IfOk, OnErr, length};
ghost use Rattle.tree_core.specs.declared.node.Status.TheVariants.{Held};
ghost use Rattle.tree_core.specs.Replays.{with_event};
ghost use Rattle.tree_core.specs.Stories.{status};
ghost use Rattle.fork_tree.specs.Calls.{IsClaim, release_event};
ghost use Rattle.fork_tree.specs.Drains.{GrowsBy};
ghost use Rattle.work_run.specs.Entering.{IsClaimEnded, IsNextClaim, IsResult};

use crate::ended::Ended;
use fork_tree::{Claim, Content, Parts, Tree, Work};
use std::alloc::{AllocError as NoMemory, Global};
use std::sync::Arc;
use tree_core::{Node, Noted};
use turn_lock::Growing;

/// A tree as a lock hands it out, with the states that were ended and not let go of yet. Its nodes and events grow, and its worker
/// stays.
#[derive(Drop)]
pub struct TurnTree<W: Work> {
    pub tree: Tree<W>,
    pub(crate) ended: Ended<W::State>,
}

/// What is let go of behind a turn: a run that parted, and a state that ended.
#[derive(Drop)]
pub(crate) struct Behind<S: Drop> {
    pub(crate) run: Option<S>,
    pub(crate) state: Option<Arc<S, Global>>,
}

impl<W: Work> Growing for TurnTree<W> {
    type Fixed = W;

    type Node = Node<Content<W::State, W::Leaf>>;

    type Event = Noted<Content<W::State, W::Leaf>>;

    ghost fixed = { λ t. t.tree.worker };

    ghost nodes = { λ t. t.tree.story.nodes };

    ghost events = { λ t. t.tree.story.events };

    ghost worker = { λ e. e.by };

    fn event_count(&self) -> u64 {
        self.tree.events().len() as u64
    }
}

impl<W: Work> TurnTree<W> {
    /// Claims a free node, and hands out its state.
    pub(crate) fn claim(&mut self, by: u32) -> Result<Claim<W::State>, NoMemory>
        ensures worker { self.new.tree.worker ≡ self.old.tree.worker }
        ensures ok { IfOk result (λ claim. IsClaim
            (W.rules self.old.tree.worker).IsWell self.old.tree.story by claim
            self.new.tree.story) }
        ensures err { OnErr result (self.new.tree.story ≡ self.old.tree.story) }
        ensures grows { GrowsBy by self.old.tree.story self.new.tree.story }
    {
        self.tree.reserve(0)?;
        self.tree.claim(by)
    }

    /// Enters what came of a node that the worker holds, of this state, and claims a free node. Where there is no memory for what
    /// comes in the place of the one it is free again, and where there is none for a claim nothing is claimed. What isn't needed
    /// any more is handed back, so that its memory is freed behind the turn.
    pub(crate) fn enter_and_claim(
        &mut self,
        alloc: Global,
        by: u32,
        node: usize,
        parts: Parts<W::State, W::Leaf>,
        state: Arc<W::State, Global>,
    ) -> Result<(Claim<W::State>, Behind<W::State>), NoMemory>
        requires there { node < length self.old.tree.story.nodes }
        requires held { status self.old.tree.story node ≡ Held by }
        requires worked { IsResult
            (W.rules self.old.tree.worker) W.State.place W.Leaf.place self.old.tree.story node
            parts }
        ensures worker { self.new.tree.worker ≡ self.old.tree.worker }
        ensures ok { IfOk result (λ entered. IsNextClaim
            (W.rules self.old.tree.worker).IsWell by node self.old.tree.story self.new.tree.story
            entered.0) }
        ensures err { OnErr result ((released : Bool)
            × IsClaimEnded released by node self.old.tree.story self.new.tree.story) }
        ensures grows { GrowsBy by self.old.tree.story self.new.tree.story }
    {
        let run = self.tree.enter(alloc, by, node, parts)?;
        self.ended.note(self.tree.len(), by);
        let state = self.ended.exchange(by, node, state);
        Ok((self.claim(by)?, Behind { run, state }))
    }

    /// Frees a node that the worker holds.
    pub(crate) fn release(&mut self, by: u32, node: usize)
        requires there { node < length self.old.tree.story.nodes }
        requires held { status self.old.tree.story node ≡ Held by }
        ensures worker { self.new.tree.worker ≡ self.old.tree.worker }
        ensures story { self.new.tree.story
            ≡ with_event self.old.tree.story (release_event by node) }
        ensures grows { GrowsBy by self.old.tree.story self.new.tree.story }
    {
        self.tree.release(by, node);
    }
}
