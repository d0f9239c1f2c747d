//! Nodes as they are born, and how they stand.

ghost use Rattle.std.specs.Prelude.{◌≡◌, Some, None, IsTrue, false, true, if◌then◌else◌, option_copied};
ghost use Rattle.tree_core.specs.Cores.{unworked_of};

use crate::choice::Choice;
use std::marker::Model;
use std::snapshot::Snapshot;

/// A node at its birth. Nothing of it changes later. What a node held that was born free is known to proofs alone: the tree
/// keeps it beside the node, as long as it's free or held.
#[derive(Drop)]
pub struct Node<R> {
    origin: Option<Origin>,
    // What it was born as, where that is a leaf.
    leaf: Option<R>,
    content: Snapshot<R>,
}

impl<R> Model for Node<R> {
    ghost use Rattle.std.specs.Prelude.{◌≡◌, IfSome, is_some};
    ghost use Rattle.tree_core.specs.Nodes.{Node as Birth};

    ghost Value = { Birth R };

    ghost view = { λ n. record { origin = n.origin; content = n.content.value; is_leaf = is_some n.leaf } };

    ghost invariant = { λ n. IfSome n.leaf (λ leaf. leaf ≡ n.content.value) };
}

impl<R> Node<R> {
    /// A node that is born free.
    pub fn new_free(origin: Option<Origin>, content: &R) -> Node<R>
        ensures { result ≡ record { origin = origin; content = content.now; is_leaf = false } }
    {
        Node {
            origin,
            leaf: None,
            content: Snapshot::of(content),
        }
    }

    /// A node that is born as a leaf.
    pub fn new_leaf(origin: Option<Origin>, content: R) -> Node<R>
        ensures { result ≡ record { origin = origin; content = content; is_leaf = true } }
    {
        let seen = Snapshot::of(&content);
        Node {
            origin,
            leaf: Some(content),
            content: seen,
        }
    }

    /// Whose kid it is, and on which side: None for the root alone.
    pub fn origin(&self) -> Option<Origin>
        ensures { result ≡ self.now.origin }
    {
        self.origin
    }

    /// Whether it was born as a leaf.
    pub fn is_leaf(&self) -> bool
        ensures { result ≡ self.now.is_leaf }
    {
        self.leaf.is_some()
    }

    /// The content that it was born with as a leaf: None where it was born free.
    pub fn leaf(&self) -> Option<&R>
        ensures { option_copied result
            ≡ (if self.now.is_leaf then Some self.now.content else None) }
    {
        self.leaf.as_ref()
    }
}

// A node, and what is kept of its content beside it.
pub(crate) fn newborn<R: Drop>(
    origin: Option<Origin>,
    content: R,
    is_leaf: bool,
) -> (Node<R>, Option<R>)
    ensures node { result.0 ≡ record { origin = origin; content = content; is_leaf = is_leaf } }
    ensures unworked { result.1 ≡ unworked_of is_leaf content }
{
    if is_leaf {
        (Node::new_leaf(origin, content), None)
    } else {
        (Node::new_free(origin, &content), Some(content))
    }
}

/// Whose kid a node is, and on which side of the parent's fork.
#[derive(Clone, Copy, Debug, PartialEq, Eq)]
pub struct Origin {
    pub parent: usize,
    pub choice: Choice,
}

/// How a node stands.
#[derive(Clone, Copy, Debug, PartialEq, Eq)]
pub enum Status {
    /// It may be claimed.
    Free,
    /// The worker of this number has claimed it.
    Held(u32),
    /// Its kids stand in its place.
    Parted,
    /// It was born as a leaf, finished or cut.
    Leaf,
}
