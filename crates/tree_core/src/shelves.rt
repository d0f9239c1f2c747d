//! What a tree keeps of each node, on shelves that grow together.

ghost use Rattle.std.specs.Prelude.{◌≡◌, ℕ, ◌+◌, ◌^◌, ◌<◌, ◌≤◌, ◌∷◌, ◌++◌, [], None, Option, Some, IfOk, OnOk, OnErr, length, map, option_copied, slice_get, slice_set, vec_len};
ghost use Rattle.tree_core.specs.Replays.{births, deed_kept, kids_of, node_of, opening};
ghost use Rattle.tree_core.specs.Stories.{born_as, content, content_by, last_on, left_by, status};
ghost use Rattle.tree_core.specs.Cores.{IsLast, if_leaf, let_go, unworked_of};

use crate::event::{Deed, Kid, Noted};
use crate::node::{Node, Origin, Status, newborn};
use std::alloc::{AllocError as NoMemory, Global};
use std::marker::Model;

/// Of each node, at its number: how it was born, the place of the last event that names it, and what it holds while it's free or
/// held.
pub(crate) struct Shelves<R: Drop> {
    nodes: Vec<Node<R>>,
    // Where no event has named a node, nothing.
    latest: Vec<Option<usize>>,
    // Of a node that is parted or a leaf, nothing.
    contents: Vec<Option<R>>,
}

impl<R: Drop> Drop for Shelves<R> {
    fn drop(self) {
        let Self {
            nodes: _nodes,
            latest: _latest,
            contents: _contents,
        } = self;
    }
}

impl<R: Drop> Model for Shelves<R> {
    ghost use Rattle.tree_core.specs.Cores.{Shelved, spare_nodes};

    ghost Value = { Shelved R };

    ghost view = { λ s. record { nodes = s.nodes.items; latest = s.latest.items; contents = s.contents.items; room = spare_nodes s.nodes s.latest s.contents } };
}

impl<R: Drop> Shelves<R> {
    /// One node, the root, which no event has named.
    pub(crate) fn new(alloc: Global, root: R, is_leaf: bool) -> Result<Shelves<R>, NoMemory>
        ensures nodes { IfOk result (λ s. s.nodes ≡ (opening root is_leaf).nodes) }
        ensures latest { IfOk result (λ s. s.latest ≡ None ∷ []) }
        ensures contents { IfOk result (λ s. s.contents ≡ unworked_of is_leaf root ∷ []) }
    {
        let mut nodes = Vec::with_capacity(alloc, 1)?;
        let mut latest = Vec::with_capacity(alloc, 1)?;
        let mut contents = Vec::with_capacity(alloc, 1)?;
        let (node, content) = newborn(None, root, is_leaf);
        nodes.push_reserved(node);
        latest.push_reserved(None);
        contents.push_reserved(content);
        Ok(Shelves {
            nodes,
            latest,
            contents,
        })
    }

    /// Finds room for so many nodes more.
    pub(crate) fn reserve(&mut self, more: usize) -> Result<(), NoMemory>
        ensures nodes { self.new.nodes ≡ self.old.nodes }
        ensures latest { self.new.latest ≡ self.old.latest }
        ensures contents { self.new.contents ≡ self.old.contents }
        ensures room { OnOk result (more ≤ self.new.room) }
        ensures fits { OnOk result (length self.new.nodes + more < 2 ^ 64) }
        ensures err { OnErr result (self.old.room < more) }
    {
        self.nodes.reserve(more)?;
        self.latest.reserve(more)?;
        self.contents.reserve(more)
    }

    /// Makes nodes of a split's kids, which no event has named, and answers the deed as it is noted.
    pub(crate) fn bear(&mut self, parent: usize, deed: Deed<R>) -> Deed<R, usize>
        requires room { length (kids_of deed) ≤ self.old.room }
        ensures nodes { self.new.nodes ≡ self.old.nodes ++ births parent deed }
        ensures latest { self.new.latest ≡ self.old.latest ++ map (λ _. None) (kids_of deed) }
        ensures contents { self.new.contents ≡ self.old.contents
            ++ map (λ kid. unworked_of kid.is_leaf kid.content) (kids_of deed) }
        ensures deed { result ≡ deed_kept deed }
    {
        match deed {
            Deed::Claim => Deed::Claim,
            Deed::Split(kids) => {
                let count = kids.len();
                self.add(parent, kids);
                Deed::Split(count)
            }
            Deed::Finish(leaf) => Deed::Finish(leaf),
            Deed::Cut(leaf) => Deed::Cut(leaf),
            Deed::Release => Deed::Release,
        }
    }

    // Kids become nodes behind the others.
    fn add(&mut self, parent: usize, kids: Vec<Kid<R>>)
        requires room { vec_len kids ≤ self.old.room }
        ensures nodes { self.new.nodes ≡ self.old.nodes ++ map (node_of parent) kids.items }
        ensures latest { self.new.latest ≡ self.old.latest ++ map (λ _. None) kids.items }
        ensures contents { self.new.contents ≡ self.old.contents
            ++ map (λ kid. unworked_of kid.is_leaf kid.content) kids.items }
    {
        for kid in kids {
            let origin = Origin {
                parent,
                choice: kid.choice,
            };
            let (node, content) = newborn(Some(origin), kid.content, kid.is_leaf);
            self.nodes.push_reserved(node);
            self.latest.push_reserved(None);
            self.contents.push_reserved(content);
        }
    }

    /// The event at this place is the last that names the node: what it held that is parted, or becomes a leaf, is let go.
    pub(crate) fn note(&mut self, node: usize, deed: &Deed<R, usize>, place: usize)
        requires latest { node < length self.old.latest }
        requires contents { node < length self.old.contents }
        ensures nodes { self.new.nodes ≡ self.old.nodes }
        ensures latest { self.new.latest ≡ slice_set self.old.latest node (Some place) }
        ensures contents { self.new.contents ≡ let_go deed.now node self.old.contents }
    {
        self.latest[node] = Some(place);
        match deed {
            Deed::Claim | Deed::Release => {}
            Deed::Split(_) | Deed::Finish(_) | Deed::Cut(_) => self.contents[node] = None,
        }
    }

    /// How many nodes there are.
    pub(crate) fn len(&self) -> usize
        ensures { result ≡ length self.now.nodes }
    {
        self.nodes.len()
    }

    /// The nodes as they were born.
    pub(crate) fn nodes(&self) -> &[Node<R>]
        ensures { result.now ≡ self.now.nodes }
    {
        self.nodes.as_slice()
    }

    /// What the node holds that is free or held.
    pub(crate) fn unworked(&self, node: usize) -> Option<&R>
        requires there { node < length self.now.contents }
        ensures { slice_get self.now.contents node ≡ Some (option_copied result) }
    {
        self.contents[node].as_ref()
    }

    // The last of these events that names the node.
    fn last<'a>(&self, events: &'a [Noted<R>], node: usize) -> Option<&'a Noted<R>>
        requires there { node < length self.now.latest }
        requires last { (last : Option ℕ) → slice_get self.now.latest node ≡ Some last
            → IsLast (record { nodes = self.now.nodes; events = events.now }) node last }
        ensures { option_copied result ≡ last_on node events.now }
    {
        match self.latest[node] {
            Some(place) => Some(&events[place]),
            None => None,
        }
    }

    /// How the node stands, by these events.
    pub(crate) fn status(&self, events: &[Noted<R>], node: usize) -> Status
        requires there { node < length self.now.nodes }
        requires long { length self.now.latest ≡ length self.now.nodes }
        requires last { (last : Option ℕ) → slice_get self.now.latest node ≡ Some last
            → IsLast (record { nodes = self.now.nodes; events = events.now }) node last }
        ensures { result ≡ status (record { nodes = self.now.nodes; events = events.now }) node }
    {
        match self.last(events, node) {
            Some(last) => left_by(last),
            None => born_as(&self.nodes[node]),
        }
    }

    /// What the node holds where it's a leaf, by these events.
    pub(crate) fn leaf<'a>(&'a self, events: &'a [Noted<R>], node: usize) -> Option<&'a R>
        requires there { node < length self.now.nodes }
        requires long { length self.now.latest ≡ length self.now.nodes }
        requires last { (last : Option ℕ) → slice_get self.now.latest node ≡ Some last
            → IsLast (record { nodes = self.now.nodes; events = events.now }) node last }
        ensures { option_copied result
            ≡ if_leaf (status (record { nodes = self.now.nodes; events = events.now }) node)
            (content (record { nodes = self.now.nodes; events = events.now }) node) }
    {
        match self.last(events, node) {
            Some(last) => leaf_by(last),
            None => {
                let birth = &self.nodes[node];
                birth.leaf()
            }
        }
    }
}

// How the deed of an event leaves its node.
fn left_by<R>(event: &Noted<R>) -> Status
    ensures { result ≡ left_by event.now.by event.now.deed }
{
    match event.deed {
        Deed::Claim => Status::Held(event.by),
        Deed::Split(_) => Status::Parted,
        Deed::Finish(_) | Deed::Cut(_) => Status::Leaf,
        Deed::Release => Status::Free,
    }
}

// How a node stands at its birth.
fn born_as<R>(node: &Node<R>) -> Status
    ensures { result ≡ born_as (Some node.now) }
{
    if node.is_leaf() {
        Status::Leaf
    } else {
        Status::Free
    }
}

// The leaf that an event makes of its node.
fn leaf_by<R>(event: &Noted<R>) -> Option<&R>
    ensures { (birth : Option R)
        → option_copied result ≡ if_leaf (left_by event.now.by event.now.deed)
        (content_by birth event.now.deed) }
{
    match &event.deed {
        Deed::Finish(leaf) | Deed::Cut(leaf) => Some(leaf),
        Deed::Claim | Deed::Split(_) | Deed::Release => None,
    }
}
