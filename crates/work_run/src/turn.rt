//! What a worker does in one turn at a lock: it takes the tree, does one thing to it, gives it back, and wakes those who wait for
//! what it left.

ghost use Rattle.std.specs.Prelude.{◌≡◌, Bool, IfOk, OnErr, false, true};
ghost use Rattle.turn_lock.specs.Passes.{IsPassOf, known};
ghost use Rattle.work_run.specs.Entering.{claim_in};
ghost use Rattle.work_run.specs.Seen.{EndsAndClaims, EndsClaim, HasResult, HoldsNode, IsAtRest, IsClaimed, IsLater, story_of};

use crate::turn_tree::{Behind, TurnTree};
use fork_tree::{Claim, Parts, Work};
use std::alloc::{AllocError as NoMemory, Global};
use std::sync::{Arc, Wait};
use turn_lock::{Pass, TurnLock};

// How many of the kids are free.
fn free_kids<W: Work>(parts: &Parts<W::State, W::Leaf>) -> usize {
    match parts {
        Parts::Kids(kids, _) => kids.iter().filter(|kid| !kid.is_leaf).count(),
        Parts::Finished(_) | Parts::CutSteps(_) => 0,
    }
}

// Wakes a worker that waits for each node that a turn freed, but for the one that its own worker has claimed. Where nothing is
// left to be done all are woken, and where memory is refused, since a worker that stops leaves what it was woken for.
fn wake<W: Work>(
    lock: &TurnLock<TurnTree<W>>,
    freed: usize,
    claimed: &Result<Claim<W::State>, NoMemory>,
) {
    match claimed {
        Ok(Claim::Claimed(_, _)) => lock.wake(freed.saturating_sub(1)),
        Ok(Claim::Nothing) => {}
        Ok(Claim::Quiet) | Err(_) => lock.wake_all(),
    }
}

// The claim of what was entered. What isn't needed any more is let go of here.
fn claim_of<W: Work>(
    entered: Result<(Claim<W::State>, Behind<W::State>), NoMemory>,
) -> Result<Claim<W::State>, NoMemory>
    ensures { result ≡ claim_in entered }
{
    match entered {
        Ok((claim, _)) => Ok(claim),
        Err(refused) => Err(refused),
    }
}

/// Claims a free node.
pub(crate) fn claim<W: Work, R: Wait>(
    rt: &R,
    lock: &TurnLock<TurnTree<W>>,
    pass: &mut Pass<TurnTree<W>>,
) -> Result<Claim<W::State>, NoMemory>
    requires lock { IsPassOf lock.now pass.old }
    requires rest { IsAtRest (known pass.old) }
    ensures lock { IsPassOf lock.now pass.new }
    ensures later { IsLater (known pass.old) (known pass.new) }
    ensures ok { IfOk result (IsClaimed (W.rules (known pass.old).fixed) (known pass.old).own
        (known pass.new)) }
    ensures err { OnErr result ((known pass.new).own ≡ (known pass.old).own) }
{
    let by = pass.number();
    let mut tree = lock.take(rt, pass);
    let claimed = tree.claim(by);
    lock.give(pass, tree);
    wake(lock, 0, &claimed);
    claimed
}

/// Enters what came of a node that the worker holds, of this state, and claims a free node. Where memory is refused the worker holds no node:
/// either there was none for what comes in its place, and the node is free again, or there was none for a claim.
pub(crate) fn enter_and_claim<W: Work, R: Wait>(
    rt: &R,
    alloc: Global,
    lock: &TurnLock<TurnTree<W>>,
    pass: &mut Pass<TurnTree<W>>,
    node: usize,
    parts: Parts<W::State, W::Leaf>,
    state: Arc<W::State, Global>,
) -> Result<Claim<W::State>, NoMemory>
    requires lock { IsPassOf lock.now pass.old }
    requires rest { IsAtRest (known pass.old) }
    requires worked { HasResult (W.rules (known pass.old).fixed) W.State.place W.Leaf.place
        (known pass.old) node parts }
    ensures lock { IsPassOf lock.now pass.new }
    ensures later { IsLater (known pass.old) (known pass.new) }
    ensures ok { IfOk result (EndsAndClaims (W.rules (known pass.old).fixed) node
        (known pass.old).own (known pass.new)) }
    ensures err { OnErr result ((released : Bool)
        × EndsClaim released node (known pass.old).own (known pass.new).own) }
{
    let by = pass.number();
    let kids = free_kids::<W>(&parts);
    let mut tree = lock.take(rt, pass);
    // By what holds of every tree the claim survives what others did.
    tree.tree.is_whole();
    let freed = if tree.tree.full() { 0 } else { kids };
    let entered = tree.enter_and_claim(alloc, by, node, parts, state);
    lock.give(pass, tree);
    let claimed = claim_of::<W>(entered);
    wake(lock, freed, &claimed);
    claimed
}

/// Frees a node that the worker holds.
pub(crate) fn release<W: Work, R: Wait>(
    rt: &R,
    lock: &TurnLock<TurnTree<W>>,
    pass: &mut Pass<TurnTree<W>>,
    node: usize,
)
    requires lock { IsPassOf lock.now pass.old }
    requires rest { IsAtRest (known pass.old) }
    requires holds { HoldsNode (story_of (known pass.old)) (known pass.old).own
        (known pass.old).number node }
    ensures lock { IsPassOf lock.now pass.new }
    ensures later { IsLater (known pass.old) (known pass.new) }
    ensures own { EndsClaim true node (known pass.old).own (known pass.new).own }
{
    let by = pass.number();
    let mut tree = lock.take(rt, pass);
    // By what holds of every tree the claim survives what others did.
    tree.tree.is_whole();
    tree.release(by, node);
    lock.give(pass, tree);
    lock.wake(1);
}
