//! The leaves of a tree, by rank.

ghost use Rattle.std.specs.Prelude.{◌≡◌, All, IfOk, map};
ghost use Rattle.fork_spec.specs.Histories.{LeafNode, is_leaf_status};
ghost use Rattle.fork_spec.specs.Parts.{Part};
ghost use Rattle.fork_tree.specs.Drains.{IsDrained};
ghost use Rattle.report_text.specs.Entries.{AreByRank, ChoicesLead, IsLeafAt, IsPlacedByPart, leaf_numbers};
ghost use Rattle.report_text.specs.Ranking.{AreInOrder};
ghost use Rattle.std.specs.List.Sorted.{IsPermutation};

use crate::ranking::{RankedLeaf, sort_by_rank};
use crate::reported::Reported;
use fork_spec::LeafEnd;
use fork_tree::{Tree, Work};
use leaf_part::LeafPart;
use std::alloc::{AllocError as NoMemory, Global};
use tree_core::{Choice, Status};

/// What has a leaf, with what shows it.
pub trait HasPart {
    ghost part: { Self → Part };

    fn part(&self) -> &LeafPart
        ensures { result.now ≡ part self.now };
}

impl HasPart for LeafPart {
    ghost part = { λ p. p };

    fn part(&self) -> &LeafPart {
        self
    }
}

/// A leaf, and the number of its node.
#[derive(Clone, Copy, Debug)]
pub(crate) struct LeafAt<'a> {
    pub part: &'a LeafPart,
    pub node: usize,
}

impl Reported for LeafAt<'_> {
    ghost leaf_node = { λ l. record { leaf = l.part.now.leaf; node = l.node } };

    fn choices(&self) -> &[Choice] {
        self.part.choices()
    }

    fn steps(&self) -> u32 {
        self.part.steps()
    }

    fn end(&self) -> LeafEnd {
        self.part.end()
    }

    fn node(&self) -> usize {
        self.node
    }
}

fn is_leaf(status: Status) -> bool
    ensures { result ≡ is_leaf_status status }
{
    match status {
        Status::Leaf => true,
        Status::Free | Status::Held(_) | Status::Parted => false,
    }
}

// The numbers of the leaves.
fn leaf_numbers<W: Work>(alloc: Global, tree: &Tree<W>) -> Result<Vec<usize>, NoMemory>
    ensures { IfOk result (λ numbers. numbers.items ≡ leaf_numbers tree.now.story) }
{
    let mut numbers = Vec::new(alloc);
    for node in 0..tree.len() {
        if is_leaf(tree.status(node)) {
            numbers.push(node)?;
        }
    }
    Ok(numbers)
}

// The choices that lead to each of these.
fn with_choices<'a, W: Work>(
    alloc: Global,
    tree: &'a Tree<W>,
    numbers: &[usize],
) -> Result<Vec<RankedLeaf<'a>>, NoMemory>
where
    W::Leaf: HasPart,
    requires { numbers.now ≡ leaf_numbers tree.now.story }
    ensures nodes { IfOk result (λ ranked. map (λ r. r.node) ranked.items ≡ numbers.now) }
    ensures choices { IfOk result (λ ranked. All
        (ChoicesLead W.Leaf.part tree.now.story) ranked.items) }
{
    let mut ranked = Vec::with_capacity(alloc, numbers.len())?;
    for node in numbers {
        ranked.push(RankedLeaf {
            choices: tree.leaf(*node).part().choices(),
            node: *node,
        })?;
    }
    Ok(ranked)
}

// The leaves in the order of their choices.
fn in_order<'a, W: Work>(alloc: Global, tree: &'a Tree<W>) -> Result<Vec<RankedLeaf<'a>>, NoMemory>
where
    W::Leaf: HasPart,
    requires done { IsDrained (W.rules tree.now.worker) W.State.place W.Leaf.place tree.now.story }
    requires placed { IsPlacedByPart W.Leaf.part W.Leaf.place }
    ensures all { IfOk result (λ ranked. IsPermutation (leaf_numbers tree.now.story)
        (map (λ r. r.node) ranked.items)) }
    ensures lead { IfOk result (λ ranked. All
        (ChoicesLead W.Leaf.part tree.now.story) ranked.items) }
    ensures ordered { IfOk result (λ ranked. AreInOrder (map (λ r. r.choices.now) ranked.items)) }
{
    let numbers = leaf_numbers(alloc, tree)?;
    let mut ranked = with_choices(alloc, tree, &numbers)?;
    sort_by_rank(&mut ranked);
    Ok(ranked)
}

// These leaves, in their order.
fn leaves_at<'a, W: Work>(
    alloc: Global,
    tree: &'a Tree<W>,
    ranked: &[RankedLeaf<'_>],
) -> Result<Vec<LeafAt<'a>>, NoMemory>
where
    W::Leaf: HasPart,
    requires { All (ChoicesLead W.Leaf.part tree.now.story) ranked.now }
    ensures nodes { IfOk result (λ leaves. map (λ l. l.node) leaves.items
        ≡ map (λ r. r.node) ranked.now) }
    ensures each { IfOk result (λ leaves. All
        (λ l. IsLeafAt W.Leaf.part tree.now.story l.node l.part.now) leaves.items) }
{
    let mut leaves = Vec::with_capacity(alloc, ranked.len())?;
    for at in ranked {
        leaves.push(LeafAt {
            part: tree.leaf(at.node).part(),
            node: at.node,
        })?;
    }
    Ok(leaves)
}

/// The leaves of a tree that is done, in the order of their choices.
pub(crate) fn by_rank<'a, W: Work>(
    alloc: Global,
    tree: &'a Tree<W>,
) -> Result<Vec<LeafAt<'a>>, NoMemory>
where
    W::Leaf: HasPart,
    requires done { IsDrained (W.rules tree.now.worker) W.State.place W.Leaf.place tree.now.story }
    requires placed { IsPlacedByPart W.Leaf.part W.Leaf.place }
    ensures { IfOk result (λ leaves. AreByRank W.Leaf.part tree.now.story leaves.items) }
{
    let ranked = in_order(alloc, tree)?;
    leaves_at(alloc, tree, &ranked)
}
