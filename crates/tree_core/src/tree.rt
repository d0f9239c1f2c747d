//! The core of a fork tree: its nodes and events, both of which only grow, and what the nodes hold on which there is work left.

ghost use Rattle.std.specs.Prelude.{◌≡◌, ◌≢◌, ◌+◌, ◌^◌, ◌<◌, ◌≤◌, ◌↔◌, Some, Err, IsTrue, IsFalse, All, length, OnOk, OnErr, IfOk, IfSome, IsNone, vec_capacity, vec_len};
ghost use Rattle.tree_core.specs.Stories.{status, content};
ghost use Rattle.tree_core.specs.declared.node.Status.TheVariants.{Parted};
ghost use Rattle.tree_core.specs.Replays.{IsFit, Replays, after_event, is_allowed, is_early, is_full, kids_of, may_come, opening, with_event};
ghost use Rattle.tree_core.specs.Cores.{LacksRoom, NoRoom, ends, held_count, takes};

use crate::cover::Cover;
use crate::deed::held_after;
use crate::event::{Deed, Event, Noted};
use crate::node::{Node, Status};
use crate::refusal::Refusal;
use crate::shelves::Shelves;
use std::alloc::{AllocError as NoMemory, Global};
use std::marker::Model;

/// A fork tree under its claim protocol. What a node holds is let go as the node is parted or becomes a leaf. Room is kept for
/// the event that ends each claim, so that only claims and splits may find no memory. Once there are as many nodes as there may
/// be, no node is parted.
pub struct Core<R: Cover> {
    shelves: Shelves<R>,
    events: Vec<Noted<R>>,
    // How many nodes are held.
    held: usize,
    // From how many nodes on none is parted.
    most: usize,
}

impl<R: Cover> Drop for Core<R> {
    fn drop(self) {
        let Self {
            shelves: _shelves,
            events: _events,
            held: _held,
            most: _most,
        } = self;
    }
}

impl<R: Cover> Model for Core<R> {
    ghost use Rattle.std.specs.Prelude.{◌+◌, ◌-◌, ◌≤◌, length, vec_capacity};
    ghost use Rattle.tree_core.specs.Cores.{CoreValue, IsCore};

    ghost Value = { CoreValue R };

    ghost view = { λ c. record { story = record { nodes = c.shelves.nodes; events = c.events.items }; most = c.most; node_room = c.shelves.room; event_room = vec_capacity c.events - (length c.events.items + c.held) } };

    ghost invariant = { λ c. IsCore R.covers R.by_nodes c.most (record { nodes = c.shelves.nodes; events = c.events.items }) c.shelves.latest c.shelves.contents c.held × (length c.events.items + c.held ≤ vec_capacity c.events) × (c.held ≤ length c.events.items) };
}

impl<R: Cover> Core<R> {
    /// A tree of one node, the root, and no event. It may have so many nodes, and the further kids of its last split.
    pub fn new(alloc: Global, root: R, is_leaf: bool, most: usize) -> Result<Core<R>, NoMemory>
        ensures story { IfOk result (λ c. c.story ≡ opening root is_leaf) }
        ensures most { IfOk result (λ c. c.most ≡ most) }
    {
        let shelves = Shelves::new(alloc, root, is_leaf)?;
        Ok(Core {
            shelves,
            events: Vec::new(alloc),
            held: 0,
            most,
        })
    }

    /// Notes an event of a worker, where the node stands as the event needs it: free for a claim, and else held by that worker.
    /// The node has to be there, a split's kids have to share out what the node covers, and a leaf to cover just that.
    ///
    /// `NotNow` comes exactly where the node doesn't stand so. Where it does, `Full` comes exactly for a split where there are as
    /// many nodes as there may be, and `Early` exactly for a cut for want of nodes where there are fewer. Only a claim (for its
    /// own event, and for the one that ends it) and a split (for its kids) may find no memory. Whatever isn't noted changes
    /// nothing. The node of each event so far is there.
    pub fn apply(&mut self, event: Event<R>) -> Result<(), Refusal>
        requires fit { IsFit R.covers self.old.story event }
        ensures ok { OnOk result (self.new.story ≡ with_event self.old.story event) }
        ensures most { self.new.most ≡ self.old.most }
        ensures may { OnOk result (IsTrue (may_come R.by_nodes self.old.most self.old.story event)) }

        ensures not_now { (result
            ≡ Err (Refusal.NotNow event.node (status self.old.story event.node)))
            ↔ IsFalse (is_allowed self.old.story event) }
        ensures full { (result ≡ Err (Refusal.Full (length self.old.story.nodes)))
            ↔ (IsTrue (is_allowed self.old.story event)
            × IsTrue (is_full self.old.most (length self.old.story.nodes) event.deed)) }
        ensures early { (result ≡ Err (Refusal.Early (length self.old.story.nodes)))
            ↔ (IsTrue (is_allowed self.old.story event) × IsTrue (is_early
            R.by_nodes self.old.most (length self.old.story.nodes) event.deed)) }
        ensures memory { result ≡ Err Refusal.NoMemory → LacksRoom self.old event.deed }
        ensures err { OnErr result (self.new.story ≡ self.old.story) }
        ensures there { All (λ e. e.node < length self.old.story.nodes) self.old.story.events }
        ensures after { result ≢ Err Refusal.NoMemory
            → self.new.story ≡ after_event R.by_nodes self.old.most self.old.story event }
    {
        let Event { by, node, deed } = event;
        let status = self.shelves.status(&self.events, node);
        if !deed.is_allowed(status, by) {
            return Err(Refusal::NotNow { node, status });
        }
        let nodes = self.shelves.len();
        if deed.is_full(self.most, nodes) {
            return Err(Refusal::Full { nodes });
        }
        if deed.is_early(self.most, nodes) {
            return Err(Refusal::Early { nodes });
        }
        make_room(&mut self.shelves, &mut self.events, self.held, &deed)?;
        self.held = held_after(self.held, &deed);
        let deed = self.shelves.bear(node, deed);
        self.shelves.note(node, &deed, self.events.len());
        self.events.push_reserved(Event { by, node, deed });
        Ok(())
    }

    /// How the node stands.
    pub fn status(&self, node: usize) -> Status
        requires there { node < length self.now.story.nodes }
        ensures { result ≡ status self.now.story node }
    {
        self.shelves.status(&self.events, node)
    }

    /// What the node holds: the content that it was finished or cut with, else that of its birth. None of a parted node, whose
    /// content was let go.
    pub fn content(&self, node: usize) -> Option<&R>
        requires there { node < length self.now.story.nodes }
        ensures value { IfSome result (λ held. content self.now.story node ≡ Some held.now) }
        ensures none { IsNone result ↔ (status self.now.story node ≡ Parted) }
    {
        match self.shelves.leaf(&self.events, node) {
            Some(leaf) => Some(leaf),
            None => self.shelves.unworked(node),
        }
    }

    /// Finds room for so many kids, for a claim and for the event that ends it.
    pub fn reserve(&mut self, kids: usize) -> Result<(), NoMemory>
        ensures story { self.new.story ≡ self.old.story }
        ensures most { self.new.most ≡ self.old.most }
        ensures nodes { OnOk result (kids ≤ self.new.node_room) }
        ensures fits { OnOk result (length self.new.story.nodes + kids < 2 ^ 64) }
        ensures events { OnOk result (2 ≤ self.new.event_room) }
    {
        self.shelves.reserve(kids)?;
        self.events.reserve(self.held + 2)
    }

    /// How many nodes there are. The root, node 0, is always there.
    pub fn len(&self) -> usize
        ensures count { result ≡ length self.now.story.nodes }
        ensures root { 0 < result }
    {
        self.shelves.len()
    }

    /// From how many nodes on none is parted.
    pub fn most(&self) -> usize
        ensures { result ≡ self.now.most }
    {
        self.most
    }

    /// How many nodes are held.
    pub fn held(&self) -> usize
        ensures { result ≡ held_count self.now.story }
    {
        self.held
    }

    /// The nodes as they were born, each at its number.
    pub fn nodes(&self) -> &[Node<R>]
        ensures { result.now ≡ self.now.story.nodes }
    {
        self.shelves.nodes()
    }

    /// The events that were noted, in order: they made the tree of its root, and each might come when it came. The node of each
    /// is there.
    pub fn events(&self) -> &[Noted<R>]
        ensures value { result.now ≡ self.now.story.events }
        ensures there { All (λ e. e.node < length self.now.story.nodes) result.now }
        ensures replays { Replays R.covers R.by_nodes self.now.most self.now.story }
    {
        self.events.as_slice()
    }
}

// Room for the event, for one more for each node that is then held, and for a split's kids.
fn make_room<R: Drop>(
    shelves: &mut Shelves<R>,
    events: &mut Vec<Noted<R>>,
    held: usize,
    deed: &Deed<R>,
) -> Result<(), NoMemory>
    requires held { ends deed.now ≤ held }
    requires claimed { held ≤ vec_len events.old }
    requires spare { vec_len events.old + held ≤ vec_capacity events.old }
    ensures nodes { shelves.new.nodes ≡ shelves.old.nodes }
    ensures latest { shelves.new.latest ≡ shelves.old.latest }
    ensures contents { shelves.new.contents ≡ shelves.old.contents }
    ensures events { events.new.items ≡ events.old.items }
    ensures spare { vec_len events.new + held ≤ vec_capacity events.new }

    ensures node_room { OnOk result (length (kids_of deed.now) ≤ shelves.new.room) }
    ensures event_room { OnOk result (vec_len events.new + 1 + held + takes deed.now
        ≤ vec_capacity events.new + ends deed.now) }
    ensures err { OnErr result (NoRoom shelves.old.room events.old held deed.now) }
{
    match deed {
        Deed::Claim => events.reserve(held + 2),
        Deed::Split(kids) => shelves.reserve(kids.len()),
        _ => Ok(()),
    }
}
