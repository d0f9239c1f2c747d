//! The loop of one worker.

ghost use Rattle.std.specs.Prelude.{◌≡◌, ◌+◌, ◌<◌, ◌≤◌, ◌^◌, ℕ, Ok, true, false, OnErr, OnOk, length};
ghost use Rattle.tree_core.specs.declared.node.Status.TheVariants.{Held};
ghost use Rattle.tree_core.specs.Cores.{held_count};
ghost use Rattle.tree_core.specs.Stories.{content, status};
ghost use Rattle.fork_spec.specs.Histories.{releases_by};
ghost use Rattle.fork_tree.specs.Drains.{GrowsBy, IsDrained, fuel};
ghost use Rattle.fork_tree.specs.Nodes.{StateIs};

use crate::tree::{Claim, Tree};
use crate::work::Work;
use std::alloc::{AllocError as NoMemory, Global};
use std::sync::Wait;
use work_gate::OpenGate;

/// Works the tree until no node is free or held. Where memory is refused no node is held, and what was entered stays: a node that
/// was being worked then is given up, and no other ever is.
pub fn drain<W: Work>(
    rt: &impl Wait,
    alloc: Global,
    tree: &mut Tree<W>,
    by: u32,
) -> Result<(), NoMemory>
    requires none_held { held_count tree.old.story ≡ 0 }
    ensures worker { tree.new.worker ≡ tree.old.worker }
    ensures drained { OnOk result (IsDrained
        (W.rules tree.old.worker) W.State.place W.Leaf.place tree.new.story) }
    ensures grows { GrowsBy by tree.old.story tree.new.story }
    ensures none_given_up { OnOk result ((k : ℕ)
        → releases_by k tree.new.story.events ≡ releases_by k tree.old.story.events) }
    ensures one_given_up { OnErr result ((k : ℕ)
        → releases_by k tree.new.story.events ≤ releases_by k tree.old.story.events + 1) }
    ensures none_held { held_count tree.new.story ≡ 0 }
{
    while work_next(rt, alloc, tree, by)? {}
    Ok(())
}

// Claims a free node, works it, and enters what came of it. False where no node is free or held.
fn work_next<W: Work>(
    rt: &impl Wait,
    alloc: Global,
    tree: &mut Tree<W>,
    by: u32,
) -> Result<bool, NoMemory>
    requires none_held { held_count tree.old.story ≡ 0 }
    ensures worker { tree.new.worker ≡ tree.old.worker }
    ensures none_held { held_count tree.new.story ≡ 0 }
    ensures grows { GrowsBy by tree.old.story tree.new.story }
    ensures none_given_up { OnOk result ((k : ℕ)
        → releases_by k tree.new.story.events ≡ releases_by k tree.old.story.events) }
    ensures one_given_up { OnErr result ((k : ℕ)
        → releases_by k tree.new.story.events ≤ releases_by k tree.old.story.events + 1) }
    ensures less { result ≡ Ok true
        → fuel (W.rules tree.old.worker) tree.new.story
        < fuel (W.rules tree.old.worker) tree.old.story }
    ensures drained { result ≡ Ok false → IsDrained
        (W.rules tree.old.worker) W.State.place W.Leaf.place tree.new.story }
{
    tree.reserve(0)?;
    match tree.claim(by)? {
        Claim::Claimed(node, state) => {
            enter(rt, alloc, tree, by, node, &state)?;
            Ok(true)
        }
        Claim::Nothing => unreachable!(),
        Claim::Quiet => Ok(false),
    }
}

// Works a node that is held, and enters what came of it. Where memory is refused it is free again.
fn enter<W: Work>(
    rt: &impl Wait,
    alloc: Global,
    tree: &mut Tree<W>,
    by: u32,
    node: usize,
    state: &W::State,
) -> Result<(), NoMemory>
    requires there { node < length tree.old.story.nodes }
    requires held { status tree.old.story node ≡ Held by }
    requires state { StateIs (content tree.old.story node) state.now }
    requires well { (W.rules tree.old.worker).IsWell state.now }
    ensures worker { tree.new.worker ≡ tree.old.worker }
    ensures held { held_count tree.new.story + 1 ≡ held_count tree.old.story }
    ensures grows { GrowsBy by tree.old.story tree.new.story }
    ensures none_given_up { OnOk result ((k : ℕ)
        → releases_by k tree.new.story.events ≡ releases_by k tree.old.story.events) }
    ensures one_given_up { OnErr result ((k : ℕ)
        → releases_by k tree.new.story.events ≤ releases_by k tree.old.story.events + 1) }
    ensures less { OnOk result (fuel (W.rules tree.old.worker) tree.new.story
        < fuel (W.rules tree.old.worker) tree.old.story
        + ((W.rules tree.old.worker).targets + 2) ^ (W.rules tree.old.worker).left state.now) }
{
    match tree.worker().work(rt, alloc, &OpenGate, by, state) {
        Ok(parts) => {
            tree.enter(alloc, by, node, parts)?;
            Ok(())
        }
        Err(NoMemory) => {
            tree.release(by, node);
            Err(NoMemory)
        }
    }
}
