//! Any number of workers on one tree.

ghost use Rattle.std.specs.Prelude.{◌≡◌, ◌+◌, ◌-◌, ◌^◌, ◌<◌, ◌≤◌, All, IfOk, [], length};
ghost use Rattle.std.specs.Thread.{IsSync};
ghost use Rattle.tree_core.specs.Cores.{held_count};
ghost use Rattle.tree_core.specs.Stories.{Story};
ghost use Rattle.fork_spec.specs.Histories.{ReleaseOnce};
ghost use Rattle.fork_tree.specs.Calls.{IsOpening};
ghost use Rattle.fork_tree.specs.Drains.{IsDrained};
ghost use Rattle.fork_tree.specs.declared.content.Content.{Content};
ghost use Rattle.turn_lock.specs.Passes.{IsPassOf, known};
ghost use Rattle.work_run.specs.Runs.{GoesOn, HasRun, HasWorked, MayRun, MayWork};

use crate::ended::Ended;
use crate::lent::Lent;
use crate::turn_tree::TurnTree;
use crate::worker::work;
use fork_tree::{Tree, Work, drain};
use std::alloc::{AllocError as NoMemory, Global};
use std::sync::Wait;
use std::thread::{Threads, join};
use tree_core::Order;
use turn_lock::{Pass, TurnLock};
use work_gate::Gate;

// The number of the worker that is always there.
const FIRST: u32 = 0;

// The work of one worker, which has done nothing yet.
fn work_alone<W: Work, R: Wait, G: Gate>(
    rt: &R,
    alloc: Global,
    lock: &TurnLock<TurnTree<W>>,
    mut pass: Pass<TurnTree<W>>,
    worker: &W,
    gate: &G,
) -> Pass<TurnTree<W>>
    requires lock { IsPassOf lock.now pass }
    requires may { MayWork worker.now (known pass) }
    ensures lock { IsPassOf lock.now result }
    ensures done { HasWorked (known pass) (known result) }
{
    let _ = work(rt, alloc, lock, &mut pass, worker, gate);
    pass
}

// Runs so many new workers, each in a thread where one can be had, beside the one of this pass.
#[tactic(auto, using(crate::proofs::Running::run_alone, crate::proofs::Running::may_child, crate::proofs::Running::may_parent))]
fn run_workers<W, R, G>(
    rt: &R,
    alloc: Global,
    lock: &TurnLock<TurnTree<W>>,
    mut first: Pass<TurnTree<W>>,
    worker: &W,
    gate: &G,
    next: u32,
    more: u32,
) -> Pass<TurnTree<W>>
where
    W: Work + Send + Sync,
    W::State: Send + Sync,
    W::Leaf: Send + Sync,
    R: Threads + Wait + Sync,
    G: Gate + Sync,
    requires lock { IsPassOf lock.now first }
    requires may { MayRun worker.now next (known first) }
    requires fits { next + more < 2 ^ 32 }
    ensures lock { IsPassOf lock.now result }
    ensures done { HasRun next (next + more) (known first) (known result) }
{
    if more == 0 {
        return work_alone(rt, alloc, lock, first, worker, gate);
    }
    let pass = lock.split(&mut first, next);
    let (pass, mut first) = join(
        rt,
        move || -> Pass<TurnTree<W>>
            requires { IsSync R.row × IsPassOf lock.now pass × MayWork worker.now (known pass) }
            ensures { IsPassOf lock.entry.now result × HasWorked (known pass) (known result) }
        { work_alone(rt, alloc, lock, pass, worker, gate) },
        move || -> Pass<TurnTree<W>>
            requires { IsSync R.row × IsPassOf lock.now first
                × MayRun worker.now (next + 1) (known first) × (next + more < 2 ^ 32) × (0 < more) }
            ensures { IsPassOf lock.entry.now result
                × HasRun (next + 1) ((next + 1) + (more - 1)) (known first) (known result) }
        { run_workers(rt, alloc, lock, first, worker, gate, next + 1, more - 1) },
    );
    lock.join(&mut first, pass);
    first
}

// The tree once so many workers have done their work, and no node is held.
#[tactic(auto, using(crate::proofs::Closing::all_ended, crate::proofs::Closing::may_open))]
fn run_all<W, R, G>(
    rt: &R,
    alloc: Global,
    tree: Tree<W>,
    worker: &W,
    workers: u32,
    gate: &G,
) -> Result<Tree<W>, NoMemory>
where
    W: Work + Send + Sync,
    W::State: Send + Sync,
    W::Leaf: Send + Sync,
    R: Threads + Wait + Sync,
    G: Gate + Sync,
    requires some { 1 ≤ workers }
    requires worker { tree.worker ≡ worker.now }
    requires fresh { tree.story.events ≡ [] }
    ensures worker { IfOk result (λ t. t.worker ≡ tree.worker) }
    ensures goes { IfOk result (λ t. GoesOn tree.story t.story) }
    ensures few { IfOk result (λ t. All (λ e. e.by < workers) t.story.events) }
    ensures releases { IfOk result (λ t. ReleaseOnce t.story.events) }
    ensures none_held { IfOk result (λ t. held_count t.story ≡ 0) }
{
    let ended = Ended::new(alloc, workers)?;
    let (lock, first) = TurnLock::new(alloc, TurnTree { tree, ended })?;
    let first = run_workers(rt, alloc, &lock, first, worker, gate, 1, workers - 1);
    let TurnTree {
        tree,
        ended: _ended,
    } = lock.close(first);
    Ok(tree)
}

// The tree once it is drained: by so many workers, and by the first alone of what they left.
fn run_to_end<W, R, G>(
    rt: &R,
    alloc: Global,
    tree: Tree<W>,
    worker: &W,
    workers: u32,
    gate: &G,
) -> Result<Tree<W>, NoMemory>
where
    W: Work + Send + Sync,
    W::State: Send + Sync,
    W::Leaf: Send + Sync,
    R: Threads + Wait + Sync,
    G: Gate + Sync,
    requires some { 1 ≤ workers }
    requires worker { tree.worker ≡ worker.now }
    requires fresh { tree.story.events ≡ [] }
    ensures worker { IfOk result (λ t. t.worker ≡ tree.worker) }
    ensures drained { IfOk result (λ t. IsDrained
        (W.rules tree.worker) W.State.place W.Leaf.place t.story) }
    ensures goes { IfOk result (λ t. GoesOn tree.story t.story) }
    ensures few { IfOk result (λ t. All (λ e. e.by < workers) t.story.events) }
    ensures releases { IfOk result (λ t. ReleaseOnce t.story.events) }
{
    let mut tree = run_all(rt, alloc, tree, worker, workers, gate)?;
    drain(rt, alloc, &mut tree, FIRST)?;
    Ok(tree)
}

/// Works the tree of this root until no node is free or held: by so many workers, which all use this one, each in a thread
/// where one can be had, however they interleave and wherever the gate lets them leave; what they left, if memory was refused
/// or they did leave, is worked by the first.
#[tactic(auto, using(crate::proofs::Closing::opening_fresh, crate::proofs::Closing::opening_all))]
pub fn explore<'a, W, R, G>(
    rt: &R,
    alloc: Global,
    worker: &'a W,
    root: W::State,
    workers: u32,
    nodes: u32,
    order: Order,
    gate: &G,
) -> Result<Tree<Lent<'a, W>>, NoMemory>
where
    W: Work + Sync,
    W::State: Send + Sync,
    W::Leaf: Send + Sync,
    R: Threads + Wait + Sync,
    G: Gate + Sync,
    requires well { (W.rules worker.now).IsWell root }
    requires first { (W.State.place root).choices ≡ [] }
    requires some { 1 ≤ workers }
    requires nodes { nodes ≡ (W.rules worker.now).nodes }
    requires order { order ≡ (W.rules worker.now).order }
    requires some_nodes { 1 ≤ nodes }
    requires few_nodes { nodes + (W.rules worker.now).targets < 2 ^ 32 }
    ensures worker { IfOk result (λ t. t.worker.worker.now ≡ worker.now) }
    ensures drained { IfOk result (λ t. IsDrained
        (W.rules worker.now) W.State.place W.Leaf.place t.story) }
    ensures opening { IfOk result (λ t. (old : Story (Content W.State W.Leaf)) × IsOpening root old
        × GoesOn old t.story) }
    ensures few { IfOk result (λ t. All (λ e. e.by < workers) t.story.events) }
    ensures releases { IfOk result (λ t. ReleaseOnce t.story.events) }
{
    let tree = Tree::new(alloc, Lent { worker }, root, nodes, order)?;
    run_to_end(rt, alloc, tree, &Lent { worker }, workers, gate)
}
