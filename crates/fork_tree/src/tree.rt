//! The tree, and the calls by which workers take nodes and enter what came of them.

ghost use Rattle.std.specs.Prelude.{◌≡◌, ◌<◌, ◌≤◌, ◌+◌, ◌++◌, ◌^◌, IfOk, nat_le, OnOk, OnErr, IsTrue, Some, None, All, [], length, map, vec_len};
ghost use Rattle.std.specs.Arc.{arc_value};
ghost use Rattle.tree_core.specs.declared.node.Status.TheVariants.{Free, Held, Leaf};
ghost use Rattle.tree_core.specs.Cores.{LacksRoom, held_count};
ghost use Rattle.tree_core.specs.Replays.{IsFit, may_come, with_event};
ghost use Rattle.tree_core.specs.Stories.{content, status};
ghost use Rattle.fork_tree.specs.declared.content.Content.TheVariants.{Shut};
ghost use Rattle.fork_tree.specs.Calls.{IsClaim, IsEndFit, IsEnterFit, IsEntered, IsOpening, IsPartFit, IsParted, IsSplitFit, MayCut, cut_event, finish_event, release_event, split_event};
ghost use Rattle.fork_tree.specs.Nodes.{HasState, IsLeafRight, StateIs};
ghost use Rattle.fork_tree.specs.Candidates.{IsNext, kid_candidate};
ghost use Rattle.fork_tree.specs.Contents.{cut_in};
ghost use Rattle.fork_tree.specs.Trees.{IsWholeTree, choices_at};

use crate::content::Content;
use crate::work::{Parts, Work};
use fork_spec::Placed;
use free_nodes::FreeNodes;
use std::alloc::{AllocError as NoMemory, Global};
use std::marker::Model;
use std::sync::Arc;
use tree_core::{Cause, Core, Cover, Deed, Event, Kid, Node, Noted, Order, Status};

/// What a claim gives.
#[derive(Drop)]
pub enum Claim<S: Drop> {
    /// This node, with its state.
    Claimed(usize, Arc<S, Global>),
    /// No node is free, and some are held.
    Nothing,
    /// No node is free or held.
    Quiet,
}

/// A fork tree: nodes that hold states or leaves of a worker's program, and the events that made them.
///
/// From so many nodes on as the worker's rules have it none is parted: a run that would part is cut. A claim is of the free node
/// that the order of these rules names.
pub struct Tree<W: Work> {
    worker: W,
    core: Core<Content<W::State, W::Leaf>>,
    // Which nodes are free, and which of them an order names.
    free: FreeNodes,
    // In which order they are claimed.
    order: Order,
}

impl<W: Work> Drop for Tree<W> {
    fn drop(self) {
        let Self {
            worker: _worker,
            core: _core,
            free: _free,
            order: _order,
        } = self;
    }
}

impl<W: Work> Model for Tree<W> {
    ghost use Rattle.std.specs.Prelude.{◌≡◌, ◌-◌, min, length};
    ghost use Rattle.fork_tree.specs.Candidates.{AreCandidates, AreShallow};
    ghost use Rattle.fork_tree.specs.Contents.{cut_in};
    ghost use Rattle.fork_tree.specs.Trees.{FollowsRules, TreeValue, choices_at};

    ghost Value = { TreeValue W W.State W.Leaf };

    ghost view = { λ t. record { worker = t.worker; story = t.core.story; node_room = min t.core.node_room (t.free.capacity - length t.free.nodes); event_room = t.core.event_room } };

    ghost invariant = { λ t. FollowsRules (W.rules t.worker) W.State.place W.Leaf.place t.core.story × AreCandidates (choices_at W.State.place W.Leaf.place) (cut_in W.State.place W.Leaf.place) t.core.story t.free.nodes × AreShallow t.free.nodes × (t.core.most ≡ (W.rules t.worker).nodes) × (t.order ≡ (W.rules t.worker).order) };
}

impl<W: Work> Tree<W> {
    /// A tree of one node, which is free. It may have so many nodes, and the further kids of its last split. Free nodes are claimed
    /// in this order.
    pub fn new(
        alloc: Global,
        worker: W,
        root: W::State,
        nodes: u32,
        order: Order,
    ) -> Result<Tree<W>, NoMemory>
        requires well { (W.rules worker).IsWell root }
        requires first { (W.State.place root).choices ≡ [] }
        requires nodes { nodes ≡ (W.rules worker).nodes }
        requires order { order ≡ (W.rules worker).order }
        requires some { 1 ≤ nodes }
        requires few { nodes + (W.rules worker).targets < 2 ^ 32 }
        ensures worker { IfOk result (λ t. t.worker ≡ worker) }
        ensures story { IfOk result (λ t. IsOpening root t.story) }
    {
        let root = Content::Open(Arc::new(alloc, root)?);
        let core = Core::new(alloc, root, false, nodes as usize)?;
        let mut free = FreeNodes::new(alloc);
        free.reserve(1)?;
        free.push(0, true);
        Ok(Tree {
            worker,
            core,
            free,
            order,
        })
    }

    /// Finds room for so many kids, for a claim and for the event that ends it.
    pub fn reserve(&mut self, kids: usize) -> Result<(), NoMemory>
        ensures worker { self.new.worker ≡ self.old.worker }
        ensures story { self.new.story ≡ self.old.story }
        ensures nodes { OnOk result (kids ≤ self.new.node_room) }
        ensures events { OnOk result (2 ≤ self.new.event_room) }
    {
        self.core.reserve(kids)?;
        self.free.reserve(kids)
    }

    /// Claims the free node that the order names, and hands out its state. The tree is whole, as at every moment.
    pub fn claim(&mut self, by: u32) -> Result<Claim<W::State>, NoMemory>
        requires room { 2 ≤ self.old.event_room }
        ensures worker { self.new.worker ≡ self.old.worker }
        ensures ok { IfOk result (λ claim. IsClaim
            (W.rules self.old.worker).IsWell self.old.story by claim self.new.story) }
        ensures next { IfOk result (λ claim. IsNext
            (choices_at W.State.place W.Leaf.place) (cut_in W.State.place W.Leaf.place)
            (W.rules self.old.worker).order self.old.story claim) }
        ensures err { OnErr result (self.new.story ≡ self.old.story) }
        ensures whole { IsWholeTree
            (W.rules self.old.worker) W.State.place W.Leaf.place self.old.story }
    {
        let events = self.core.events().len();
        let Some(node) = self.free.next(self.order, events) else {
            return Ok(if self.core.held() == 0 {
                Claim::Quiet
            } else {
                Claim::Nothing
            });
        };
        let state = state_of(&self.core, node)?;
        self.free.set_free(node, false);
        let deed = Deed::Claim;
        note(&mut self.core, Event { by, node, deed });
        Ok(Claim::Claimed(node, state))
    }

    // Parts a node that the worker holds into kids.
    fn split(&mut self, by: u32, node: usize, kids: Vec<Kid<Content<W::State, W::Leaf>>>)
        requires fit { IsSplitFit
            (W.rules self.old.worker) W.State.place W.Leaf.place self.old.story by node kids }
        requires room { vec_len kids ≤ self.old.node_room }
        ensures worker { self.new.worker ≡ self.old.worker }
        ensures story { self.new.story ≡ with_event self.old.story (split_event by node kids) }
        ensures there { All (λ e. e.node < length self.old.story.nodes) self.old.story.events }
    {
        let depth = self.free.depth(node);
        list_kids(&mut self.free, depth + 1, kids.as_slice());
        let deed = Deed::Split(kids);
        note(&mut self.core, Event { by, node, deed });
    }

    // Makes a node that the worker holds a leaf, where all its runs have ended.
    fn finish(&mut self, by: u32, node: usize, leaf: W::Leaf)
        requires fit { IsEndFit
            (W.rules self.old.worker) W.State.place W.Leaf.place None self.old.story by node leaf }
        ensures worker { self.new.worker ≡ self.old.worker }
        ensures story { self.new.story ≡ with_event self.old.story (finish_event by node leaf) }
        ensures there { All (λ e. e.node < length self.old.story.nodes) self.old.story.events }
    {
        let deed = Deed::Finish(Content::Shut(leaf));
        note(&mut self.core, Event { by, node, deed });
    }

    /// Whether there are as many nodes as there may be, so that none may be parted.
    pub fn full(&self) -> bool
        ensures { result ≡ nat_le (W.rules self.now.worker).nodes (length self.now.story.nodes) }
    {
        self.core.most() <= self.core.len()
    }

    // Makes a node that the worker holds a leaf, where it has spent its steps, or where it would be parted and the tree is full.
    fn cut(&mut self, by: u32, node: usize, cause: Cause, leaf: W::Leaf)
        requires fit { IsEndFit (W.rules self.old.worker) W.State.place W.Leaf.place
            (Some cause) self.old.story by node leaf }
        requires may { MayCut
            (W.rules self.old.worker).nodes (length self.old.story.nodes) cause }
        ensures worker { self.new.worker ≡ self.old.worker }
        ensures story { self.new.story ≡ with_event self.old.story (cut_event by node leaf) }
        ensures there { All (λ e. e.node < length self.old.story.nodes) self.old.story.events }
    {
        let deed = Deed::Cut(Content::Shut(leaf));
        note(&mut self.core, Event { by, node, deed });
    }

    /// Enters what came of a node that the worker holds: a leaf, or kids, or a leaf in the place of the run that parts into them,
    /// where the tree is full. A run that wasn't made a leaf is handed back, so that its memory may be freed later. Where memory
    /// is refused the node is free again.
    pub fn enter(
        &mut self,
        alloc: Global,
        by: u32,
        node: usize,
        parts: Parts<W::State, W::Leaf>,
    ) -> Result<Option<W::State>, NoMemory>
        requires fit { IsEnterFit (W.rules self.old.worker) W.State.place W.Leaf.place
            self.old.story by node parts }
        ensures worker { self.new.worker ≡ self.old.worker }
        ensures ok { OnOk result (IsEntered self.old.story by node parts self.new.story) }
        ensures err { OnErr result (self.new.story
            ≡ with_event self.old.story (release_event by node)) }
        ensures there { All (λ e. e.node < length self.old.story.nodes) self.old.story.events }
    {
        match parts {
            Parts::Finished(leaf) => {
                self.finish(by, node, leaf);
                Ok(None)
            }
            Parts::CutSteps(leaf) => {
                self.cut(by, node, Cause::Steps, leaf);
                Ok(None)
            }
            Parts::Kids(kids, run) => self.part(alloc, by, node, kids, run),
        }
    }

    // Parts the node into the kids, or makes it a leaf in the place of the run, where the tree is full. Where memory is refused the
    // node is free again.
    fn part(
        &mut self,
        alloc: Global,
        by: u32,
        node: usize,
        kids: Vec<Kid<Content<W::State, W::Leaf>>>,
        run: W::State,
    ) -> Result<Option<W::State>, NoMemory>
        requires fit { IsPartFit (W.rules self.old.worker) W.State.place W.Leaf.place
            self.old.story by node kids.items run }
        ensures worker { self.new.worker ≡ self.old.worker }
        ensures ok { OnOk result (IsParted self.old.story by node kids self.new.story) }
        ensures err { OnErr result (self.new.story
            ≡ with_event self.old.story (release_event by node)) }
        ensures there { All (λ e. e.node < length self.old.story.nodes) self.old.story.events }
    {
        let parted = self.split_or_cut(alloc, by, node, kids, run);
        if parted.is_err() {
            self.release(by, node);
        }
        parted
    }

    // Does so. Where memory is refused nothing changes.
    fn split_or_cut(
        &mut self,
        alloc: Global,
        by: u32,
        node: usize,
        kids: Vec<Kid<Content<W::State, W::Leaf>>>,
        run: W::State,
    ) -> Result<Option<W::State>, NoMemory>
        requires fit { IsPartFit (W.rules self.old.worker) W.State.place W.Leaf.place
            self.old.story by node kids.items run }
        ensures worker { self.new.worker ≡ self.old.worker }
        ensures ok { OnOk result (IsParted self.old.story by node kids self.new.story) }
        ensures err { OnErr result (self.new.story ≡ self.old.story) }
        ensures there { OnOk result (All (λ e. e.node < length self.old.story.nodes)
            self.old.story.events) }
    {
        if self.full() {
            let nodes = self.len() as u32;
            let leaf = self.worker.cut_nodes(alloc, run, nodes)?;
            self.cut(by, node, Cause::Nodes, leaf);
            Ok(None)
        } else {
            self.reserve(kids.len())?;
            self.split(by, node, kids);
            Ok(Some(run))
        }
    }

    /// Frees a node that the worker holds.
    pub fn release(&mut self, by: u32, node: usize)
        requires there { node < length self.old.story.nodes }
        requires held { status self.old.story node ≡ Held by }
        ensures worker { self.new.worker ≡ self.old.worker }
        ensures story { self.new.story ≡ with_event self.old.story (release_event by node) }
        ensures there { All (λ e. e.node < length self.old.story.nodes) self.old.story.events }
    {
        let deed = Deed::Release;
        note(&mut self.core, Event { by, node, deed });
        self.free.set_free(node, true);
    }

    /// What holds of a tree at every moment.
    pub fn is_whole(&self)
        ensures { IsWholeTree (W.rules self.now.worker) W.State.place W.Leaf.place self.now.story }
    {
        let _ = self.core.events();
    }

    /// The worker.
    pub fn worker(&self) -> &W
        ensures { result.now ≡ self.now.worker }
    {
        &self.worker
    }

    /// How many nodes there are. The root, node 0, is always there.
    pub fn len(&self) -> usize
        ensures count { result ≡ length self.now.story.nodes }
        ensures root { 0 < result }
        ensures few { result < 2 ^ 32 }
    {
        self.core.len()
    }

    /// The nodes as they were born, each at its number.
    pub fn nodes(&self) -> &[Node<Content<W::State, W::Leaf>>]
        ensures { result.now ≡ self.now.story.nodes }
    {
        self.core.nodes()
    }

    /// The events that were noted, in order. The node of each is there.
    pub fn events(&self) -> &[Noted<Content<W::State, W::Leaf>>]
        ensures value { result.now ≡ self.now.story.events }
        ensures there { All (λ e. e.node < length self.now.story.nodes) result.now }
    {
        self.core.events()
    }

    /// How the node stands.
    pub fn status(&self, node: usize) -> Status
        requires there { node < length self.now.story.nodes }
        ensures { result ≡ status self.now.story node }
    {
        self.core.status(node)
    }

    /// The leaf that a node holds which is one.
    pub fn leaf(&self, node: usize) -> &W::Leaf
        requires there { node < length self.now.story.nodes }
        requires leaf { status self.now.story node ≡ Leaf }
        ensures content { content self.now.story node ≡ Some (Shut result.now) }
        ensures right { IsLeafRight (W.rules self.now.worker) W.State.place W.Leaf.place
            self.now.story node result.now }
    {
        match self.core.content(node) {
            Some(Content::Shut(leaf)) => leaf,
            Some(Content::Open(_)) | None => unreachable!(),
        }
    }
}

// The state of a free node.
fn state_of<S: Placed, L: Placed>(
    core: &Core<Content<S, L>>,
    node: usize,
) -> Result<Arc<S, Global>, NoMemory>
    requires there { node < length core.now.story.nodes }
    requires free { status core.now.story node ≡ Free }
    requires open { HasState (λ _. Unit {0}) (content core.now.story node) }
    ensures { IfOk result (λ state. StateIs (content core.now.story node) (arc_value state)) }
{
    match core.content(node) {
        Some(Content::Open(state)) => Ok(Arc::try_clone(state)?),
        Some(Content::Shut(_)) | None => unreachable!(),
    }
}

// Notes an event that may come, and for which there is room.
fn note<R: Cover>(core: &mut Core<R>, event: Event<R>)
    requires fit { IsFit R.covers core.old.story event }
    requires may { IsTrue (may_come R.by_nodes core.old.most core.old.story event) }
    requires room { LacksRoom core.old event.deed → ⊥ }
    ensures story { core.new.story ≡ with_event core.old.story event }
    ensures most { core.new.most ≡ core.old.most }
    ensures there { All (λ e. e.node < length core.old.story.nodes) core.old.story.events }
{
    match core.apply(event) {
        Ok(()) => {}
        Err(_) => unreachable!(),
    }
}

// Lists kids that so many choices lead to.
fn list_kids<R>(free: &mut FreeNodes, depth: usize, kids: &[Kid<R>])
    requires room { length free.old.nodes + length kids.now ≤ free.old.capacity }
    ensures nodes { free.new.nodes ≡ free.old.nodes ++ map (kid_candidate depth) kids.now }
    ensures capacity { free.new.capacity ≡ free.old.capacity }
{
    for kid in kids {
        free.push(depth, !kid.is_leaf);
    }
}
