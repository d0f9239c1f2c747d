//! A worker of a tree that is handed out in turns.

ghost use Rattle.std.specs.Prelude.{◌≡◌, false};
ghost use Rattle.turn_lock.specs.Passes.{IsPassOf, IsSamePass, known};
ghost use Rattle.fork_tree.specs.Calls.{IsQuiet};
ghost use Rattle.work_run.specs.Causes.{MayLeave};
ghost use Rattle.work_run.specs.Seen.{SeesMore, story_of};
ghost use Rattle.work_run.specs.Turns.{GoesOnByTurns};
ghost use Rattle.work_run.specs.declared.stopped.Stopped.TheVariants.{Left, Quiet};

use crate::round::work_once;
use crate::stopped::Stopped;
use crate::turn::claim;
use crate::turn_tree::TurnTree;
use fork_tree::Work;
use std::alloc::Global;
use std::sync::Wait;
use turn_lock::{Pass, TurnLock};
use work_gate::Gate;

/// Works a tree, whose worker this one is, until no node is free or held, until the gate lets it leave, or until memory is
/// refused. Other workers may have any turns in between. It holds no node then.
///
/// The tree came to its lock with no event.
pub fn work<W: Work, R: Wait, G: Gate>(
    rt: &R,
    alloc: Global,
    lock: &TurnLock<TurnTree<W>>,
    pass: &mut Pass<TurnTree<W>>,
    worker: &W,
    gate: &G,
) -> Stopped
    requires lock { IsPassOf lock.now pass.old }
    requires turn { (known pass.old).has_turn ≡ false }
    requires opened { (known pass.old).opened ≡ 0 }
    requires worker { (known pass.old).fixed ≡ worker.now }
    ensures lock { IsPassOf lock.now pass.new }
    ensures turn { (known pass.new).has_turn ≡ false }
    ensures same { IsSamePass (known pass.old) (known pass.new) }
    ensures seen { SeesMore (known pass.old) (known pass.new) }
    ensures turns { GoesOnByTurns (known pass.old).own (known pass.new).own }
    ensures quiet { result ≡ Quiet → IsQuiet (story_of (known pass.new)) }
    ensures left { result ≡ Left → MayLeave (G.may_leave gate.now) (known pass.old).number }
{
    let mut last = match claim(rt, lock, pass) {
        Ok(first) => first,
        Err(refused) => return Stopped::from(refused),
    };
    for _ in rt.forever() {
        match work_once(rt, alloc, lock, pass, worker, gate, last) {
            Ok(next) => last = next,
            Err(stopped) => return stopped,
        }
    }
    unreachable!()
}
