//! A round of work: the end of a claim, and the next claim, in one turn.

ghost use Rattle.std.specs.Prelude.{◌≡◌, ℕ, IfErr, IfOk, List, OnErr, true};
ghost use Rattle.std.specs.Arc.{arc_value};
ghost use Rattle.tree_core.specs.declared.event.Event.{Event};
ghost use Rattle.fork_tree.specs.declared.content.Content.{Content};
ghost use Rattle.turn_lock.specs.Passes.{IsPassOf, known};
ghost use Rattle.work_run.specs.Causes.{IsCauseOf, MayLeave};
ghost use Rattle.work_run.specs.Seen.{CarriesOn, EndsAndClaims, EndsByTurns, GivesUp, HasClaim, HasResult, IsAtRest, IsClaimed, IsLater, StopsBehind};

use crate::stopped::Stopped;
use crate::turn::{claim, enter_and_claim, release};
use crate::turn_tree::TurnTree;
use fork_tree::{Claim, Parts, Work};
use std::alloc::Global;
use std::sync::{Arc, Wait};
use turn_lock::{Pass, TurnLock};
use work_gate::{Gate, Next, Point};

// Whether the worker leaves at this point.
fn leaves<G: Gate>(gate: &G, worker: u32, point: Point) -> bool
    ensures { result ≡ true → MayLeave (G.may_leave gate.now) worker }
{
    gate.reached(worker, point) == Next::Leave
}

/// Does what the worker's last claim asks for, and claims a free node: where it got a node, works its state outside the turn, and
/// enters what came of it in the turn of the next claim; where it got none, waits. Where the worker stops, it holds no node.
pub(crate) fn work_once<W: Work, R: Wait, G: Gate>(
    rt: &R,
    alloc: Global,
    lock: &TurnLock<TurnTree<W>>,
    pass: &mut Pass<TurnTree<W>>,
    worker: &W,
    gate: &G,
    last: Claim<W::State>,
) -> Result<Claim<W::State>, Stopped>
    requires lock { IsPassOf lock.now pass.old }
    requires rest { IsAtRest (known pass.old) }
    requires worker { (known pass.old).fixed ≡ worker.now }
    requires last { (own : List (Event (Content W.State W.Leaf) ℕ))
        × IsClaimed (W.rules (known pass.old).fixed) own (known pass.old) last }
    ensures lock { IsPassOf lock.now pass.new }
    ensures later { IsLater (known pass.old) (known pass.new) }
    ensures next { IfOk result (CarriesOn (W.rules (known pass.old).fixed) (known pass.old) last
        (known pass.new)) }
    ensures turns { OnErr result (StopsBehind (W.rules (known pass.old).fixed) (known pass.old) last
        (known pass.new)) }
    ensures cause { IfErr result (IsCauseOf (G.may_leave gate.now) (known pass.new)) }
{
    match last {
        Claim::Quiet => Err(Stopped::Quiet),
        Claim::Nothing => claim_later(rt, lock, pass, gate),
        Claim::Claimed(node, state) => work_claim(rt, alloc, lock, pass, worker, gate, node, state),
    }
}

// Waits, and claims a free node.
fn claim_later<W: Work, R: Wait, G: Gate>(
    rt: &R,
    lock: &TurnLock<TurnTree<W>>,
    pass: &mut Pass<TurnTree<W>>,
    gate: &G,
) -> Result<Claim<W::State>, Stopped>
    requires lock { IsPassOf lock.now pass.old }
    requires rest { IsAtRest (known pass.old) }
    ensures lock { IsPassOf lock.now pass.new }
    ensures later { IsLater (known pass.old) (known pass.new) }
    ensures claimed { IfOk result (IsClaimed (W.rules (known pass.old).fixed) (known pass.old).own
        (known pass.new)) }
    ensures none { OnErr result ((known pass.new).own ≡ (known pass.old).own) }
    ensures cause { IfErr result (IsCauseOf (G.may_leave gate.now) (known pass.new)) }
{
    if leaves(gate, pass.number(), Point::Idle) {
        return Err(Stopped::Left);
    }
    lock.wait(rt, pass);
    Ok(claim(rt, lock, pass)?)
}

// Works the state of a node that the worker holds, and ends the claim.
fn work_claim<W: Work, R: Wait, G: Gate>(
    rt: &R,
    alloc: Global,
    lock: &TurnLock<TurnTree<W>>,
    pass: &mut Pass<TurnTree<W>>,
    worker: &W,
    gate: &G,
    node: usize,
    state: Arc<W::State, Global>,
) -> Result<Claim<W::State>, Stopped>
    requires lock { IsPassOf lock.now pass.old }
    requires rest { IsAtRest (known pass.old) }
    requires worker { (known pass.old).fixed ≡ worker.now }
    requires claim { HasClaim (W.rules (known pass.old).fixed) (known pass.old) node
        (arc_value state) }
    ensures lock { IsPassOf lock.now pass.new }
    ensures later { IsLater (known pass.old) (known pass.new) }
    ensures next { IfOk result (EndsAndClaims (W.rules (known pass.old).fixed) node
        (known pass.old).own (known pass.new)) }
    ensures ended { OnErr result (EndsByTurns node (known pass.old).own (known pass.new).own) }
    ensures cause { IfErr result (IsCauseOf (G.may_leave gate.now) (known pass.new)) }
{
    let by = pass.number();
    if leaves(gate, by, Point::AfterClaim) {
        release(rt, lock, pass, node);
        return Err(Stopped::Left);
    }
    match worker.work(rt, alloc, gate, by, &state) {
        Ok(parts) => hand_in(rt, alloc, lock, pass, gate, node, parts, state),
        Err(_) => {
            release(rt, lock, pass, node);
            Err(Stopped::NoMemory)
        }
    }
}

// Enters what came of a node that the worker holds, and claims a free node. Who leaves behind that turn gives the claim up.
fn hand_in<W: Work, R: Wait, G: Gate>(
    rt: &R,
    alloc: Global,
    lock: &TurnLock<TurnTree<W>>,
    pass: &mut Pass<TurnTree<W>>,
    gate: &G,
    node: usize,
    parts: Parts<W::State, W::Leaf>,
    state: Arc<W::State, Global>,
) -> Result<Claim<W::State>, Stopped>
    requires lock { IsPassOf lock.now pass.old }
    requires rest { IsAtRest (known pass.old) }
    requires worked { HasResult (W.rules (known pass.old).fixed) W.State.place W.Leaf.place
        (known pass.old) node parts }
    ensures lock { IsPassOf lock.now pass.new }
    ensures later { IsLater (known pass.old) (known pass.new) }
    ensures next { IfOk result (EndsAndClaims (W.rules (known pass.old).fixed) node
        (known pass.old).own (known pass.new)) }
    ensures ended { OnErr result (EndsByTurns node (known pass.old).own (known pass.new).own) }
    ensures cause { IfErr result (IsCauseOf (G.may_leave gate.now) (known pass.new)) }
{
    let by = pass.number();
    if leaves(gate, by, Point::BeforeGive) {
        release(rt, lock, pass, node);
        return Err(Stopped::Left);
    }
    let next = enter_and_claim(rt, alloc, lock, pass, node, parts, state)?;
    if leaves(gate, by, Point::AfterGive) {
        give_up(rt, lock, pass, &next);
        return Err(Stopped::Left);
    }
    Ok(next)
}

// Frees the node that a claim got, if it got one.
fn give_up<W: Work, R: Wait>(
    rt: &R,
    lock: &TurnLock<TurnTree<W>>,
    pass: &mut Pass<TurnTree<W>>,
    last: &Claim<W::State>,
)
    requires lock { IsPassOf lock.now pass.old }
    requires rest { IsAtRest (known pass.old) }
    requires last { (own : List (Event (Content W.State W.Leaf) ℕ))
        × IsClaimed (W.rules (known pass.old).fixed) own (known pass.old) last.now }
    ensures lock { IsPassOf lock.now pass.new }
    ensures later { IsLater (known pass.old) (known pass.new) }
    ensures released { GivesUp last.now (known pass.old).own (known pass.new).own }
{
    if let Claim::Claimed(node, _) = last {
        release(rt, lock, pass, *node);
    }
}
