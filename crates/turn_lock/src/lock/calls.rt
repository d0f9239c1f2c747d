//! The calls of the lock. Each but `new` and `close` takes effect at single steps on the table.

ghost use Rattle.std.specs.Prelude.{◌≡◌, true, false, IfOk, IfSome, IfNone};
ghost use Rattle.turn_lock.specs.Growth.{StartsWith, GoesOnBy};
ghost use Rattle.turn_lock.specs.Views.{opening_view, looked, given, Follows, parent, child, merged_known};
ghost use Rattle.turn_lock.specs.Passes.{known, IsPassOf, AllEnded, AreOf};

use super::{Pass, TurnLock};
use crate::growing::Growing;
use crate::rule::{Ended, Enter, Leave, Next, Try};
use atomic_table::Table;
use crossbeam_utils::Backoff;
use std::alloc::{AllocError as NoMemory, Global};
use std::snapshot::Snapshot;
use std::sync::Wait;
use std::sync::atomic::AtomicU32;

// The word that is 1 while a pass has the turn.
const TURN: usize = 0;

// The word that is the number of events.
pub(super) const EVENTS: usize = 1;

// How often a pass looks whether the turn is free before it lets other threads have the processor: for about a tenth of a
// millisecond. A turn is far shorter, and who gives a processor away may have it back milliseconds later.
const MOST_SPINS: u32 = 40;

impl<V: Growing> TurnLock<V> {
    /// A lock on the value, and its first pass, of number 0. Where memory is refused the value is dropped.
    pub fn new(alloc: Global, value: V) -> Result<(TurnLock<V>, Pass<V>), NoMemory>
        ensures lock { IfOk result (λ made. IsPassOf made.0 made.1) }
        ensures pass { IfOk result (λ made. known made.1
            ≡ opening_view V.fixed V.nodes V.events value) }
    {
        let key = Snapshot::of(&value);
        let count = value.event_count();
        let mut slots = Vec::with_capacity(alloc, 1)?;
        slots.push(Some(value))?;
        match Table::new(alloc, &[0, count], slots, &key) {
            Ok((table, seat)) => {
                let waiting = AtomicU32::new(0);
                let first = Pass {
                    number: 0,
                    seen: count,
                    seat,
                };
                Ok((TurnLock { table, waiting }, first))
            }
            Err(_) => Err(NoMemory),
        }
    }

    /// A pass with the next number. It has seen what this one has, and given nothing. Only the first pass makes others.
    pub fn split(&self, pass: &mut Pass<V>, number: u32) -> Pass<V>
        requires lock { IsPassOf self.now pass.old }
        requires first { (known pass.old).number ≡ 0 }
        requires turn { (known pass.old).has_turn ≡ false }
        requires next { number ≡ (known pass.old).made }

        ensures lock { IsPassOf self.now pass.new }
        ensures new_lock { IsPassOf self.now result }
        ensures pass { known pass.new ≡ parent (known pass.old) }
        ensures new { known result ≡ child (known pass.old) }
    {
        let seat = self.table.shared.split_seat::<Next>(&mut pass.seat);
        Pass {
            number,
            seen: pass.seen,
            seat,
        }
    }

    // Takes the turn, and the value, if nobody has it.
    fn try_take(&self, pass: &mut Pass<V>) -> Option<V>
        requires lock { IsPassOf self.now pass.old }
        requires turn { (known pass.old).has_turn ≡ false }

        ensures lock { IsPassOf self.now pass.new }
        ensures taken { IfSome result (λ value. known pass.new
            ≡ looked V.nodes V.events (known pass.old) value) }
        ensures follows { IfSome result (λ value. Follows V.fixed V.nodes V.events V.worker
            (known pass.old) value) }
        ensures none { IfNone result (known pass.new ≡ known pass.old) }
    {
        let shared = &self.table.shared;
        // A pass that waits only reads, so that the word stays in each waiting processor's cache.
        if shared.peek(TURN) != 0 {
            return None;
        }
        if shared.compare_exchange::<Try>(&mut pass.seat, TURN, 0, 1) != 0 {
            return None;
        }
        shared.exchange(&mut pass.seat, 0, None)
    }

    /// Waits for the turn, and takes the value. Its lists begin with all that the pass has seen, and past the opening value's
    /// events the pass's own are all that bear its number.
    pub fn take<R: Wait>(&self, rt: &R, pass: &mut Pass<V>) -> V
        requires lock { IsPassOf self.now pass.old }
        requires turn { (known pass.old).has_turn ≡ false }

        ensures lock { IsPassOf self.now pass.new }
        ensures taken { known pass.new ≡ looked V.nodes V.events (known pass.old) result }
        ensures follows { Follows V.fixed V.nodes V.events V.worker (known pass.old) result }
    {
        let backoff = Backoff::new();
        let mut spins = 0;
        for _ in rt.forever() {
            if let Some(value) = self.try_take(pass) {
                return value;
            }
            if spins < MOST_SPINS {
                spins += 1;
                backoff.spin();
            } else {
                backoff.snooze();
            }
        }
        unreachable!()
    }

    /// Gives the value back, and the turn. The value has the same fixed part, and goes on by nodes and by events of this pass.
    pub fn give(&self, pass: &mut Pass<V>, value: V)
        requires lock { IsPassOf self.now pass.old }
        requires turn { (known pass.old).has_turn ≡ true }
        requires fixed { V.fixed value ≡ (known pass.old).fixed }
        requires nodes { StartsWith (V.nodes value) (known pass.old).nodes }
        requires events { GoesOnBy V.worker (known pass.old).number (known pass.old).events
            (V.events value) }

        ensures lock { IsPassOf self.now pass.new }
        ensures given { known pass.new ≡ given V.nodes V.events (known pass.old) value }
    {
        let shared = &self.table.shared;
        let count = value.event_count();
        // The slot is filled first: a step tells its seat nothing of what is stored, but the seat knows what it holds.
        let None = shared.exchange(&mut pass.seat, 0, Some(value)) else {
            unreachable!()
        };
        shared.store::<Enter>(&mut pass.seat, EVENTS, count);
        shared.store::<Leave>(&mut pass.seat, TURN, 0);
        pass.seen = count;
    }

    /// Takes in a pass that has ended: what it has seen, and the events that it gave.
    pub fn join(&self, pass: &mut Pass<V>, other: Pass<V>)
        requires lock { IsPassOf self.now pass.old }
        requires turn { (known pass.old).has_turn ≡ false }
        requires other_lock { IsPassOf self.now other }
        requires other_turn { (known other).has_turn ≡ false }

        ensures lock { IsPassOf self.now pass.new }
        ensures pass { known pass.new ≡ merged_known (known pass.old) (known other) }
    {
        let Pass {
            number: _,
            seen: _,
            seat,
        } = other;
        self.table.shared.join_seat::<Ended>(&mut pass.seat, seat);
    }

    /// The value, once each pass was joined to the first.
    pub fn close(self, pass: Pass<V>) -> V
        requires lock { IsPassOf self pass }
        requires first { (known pass).number ≡ 0 }
        requires turn { (known pass).has_turn ≡ false }
        requires ended { AllEnded (known pass) }

        ensures fixed { V.fixed result ≡ (known pass).fixed }
        ensures seen_nodes { StartsWith (V.nodes result) (known pass).nodes }
        ensures seen_events { StartsWith (V.events result) (known pass).events }
        ensures events { AreOf V.worker (known pass) (V.events result) }
    {
        let TurnLock {
            table,
            waiting: _waiting,
        } = self;
        let Pass {
            number: _,
            seen: _,
            seat,
        } = pass;
        let mut closed = table.close_with(seat);
        let Some(value) = closed.take(0) else {
            unreachable!()
        };
        closed.free();
        value
    }
}

impl<V: Growing> Pass<V> {
    /// The number that this pass's events bear.
    pub fn number(&self) -> u32
        ensures { result ≡ (known self.now).number }
    {
        self.number
    }
}
