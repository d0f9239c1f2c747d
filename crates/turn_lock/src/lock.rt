//! The lock and its passes.

ghost use Rattle.std.specs.Prelude.{◌≡◌, true, IsSome};
ghost use Rattle.turn_lock.specs.Hands.{in_hand};

use crate::growing::Growing;
use crate::known::Known;
use crate::rule::Turns;
use atomic_table::{Seat, Table};
use std::alloc::Global;
use std::snapshot::Snapshot;
use std::sync::atomic::AtomicU32;

mod calls;
mod waiting;

/// A value that is handed out in turns, by a `&` that threads share.
#[derive(Drop)]
pub struct TurnLock<V: Growing> {
    table: Table<Option<V>, Known<Option<V::Fixed>, V::Node, V::Event>, Snapshot<V>, Turns, Global>,
    // How many passes wait, or are about to.
    waiting: AtomicU32,
    ghost words: { table.shared.table_id.words ≡ 2 },
    ghost slots: { table.shared.table_id.slots ≡ 1 },
}

/// What one worker needs to take its turns at a lock. It has no bytes but two numbers. A pass that is dropped with the turn
/// takes the value along: the others then wait for ever.
#[derive(Drop)]
pub struct Pass<V: Growing> {
    number: u32,
    // How many events the value had when it was given last.
    seen: u64,
    seat: Seat<Option<V>, Known<Option<V::Fixed>, V::Node, V::Event>>,
    ghost told: { IsSome seat.me.0.fixed },
    ghost live: { seat.me.0.live ≡ true },
    ghost numbered: { seat.me.0.number ≡ number },
    ghost hand: { seat.me.1 ≡ in_hand seat.me.0.has_turn },
}
