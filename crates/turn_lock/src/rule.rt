//! The rule of the lock's table, and what each kind of step tells. Word 0 is 1 while a pass has the turn, and else 0. Word 1
//! is the number of events. Slot 0 has the value.

ghost use Rattle.std.specs.Prelude.{None};
ghost use Rattle.turn_lock.specs.Hands.{in_table};
ghost use Rattle.turn_lock.specs.Turns.{IsTurnKept, tried, entered, left};
ghost use Rattle.turn_lock.specs.Views.{opening_view, parent, child, merged_known, spent};

use crate::growing::Growing;
use crate::known::Known;
use atomic_table::{Join, Play, Split, TableRule};
use std::snapshot::Snapshot;

/// What holds of the table between any two steps.
pub struct Turns;

impl<V: Growing> TableRule<Option<V>, Known<Option<V::Fixed>, V::Node, V::Event>, Snapshot<V>>
    for Turns {
    ghost holds = { λ key. IsTurnKept (in_table V.fixed) V.nodes V.events V.worker key.value };

    ghost first = { λ key. opening_view (in_table V.fixed) V.nodes V.events key.value };
}

/// A try for the turn.
pub(crate) struct Try;

impl<V: Growing> Play<Option<V>, Known<Option<V::Fixed>, V::Node, V::Event>> for Try {
    ghost then = { tried (in_table V.fixed) V.nodes V.events V.worker };
}

/// The value that is back in the slot is told.
pub(crate) struct Enter;

impl<V: Growing> Play<Option<V>, Known<Option<V::Fixed>, V::Node, V::Event>> for Enter {
    ghost then = { entered V.nodes V.events };
}

/// The turn is given back.
pub(crate) struct Leave;

impl<V: Growing> Play<Option<V>, Known<Option<V::Fixed>, V::Node, V::Event>> for Leave {
    ghost then = { left };
}

/// A new pass gets the next number.
pub(crate) struct Next;

impl<F, N, E> Split<Known<Option<F>, N, E>> for Next {
    ghost left = { parent };

    ghost right = { child };
}

/// A pass that has ended is taken in.
pub(crate) struct Ended;

impl<F, N, E> Join<Known<Option<F>, N, E>> for Ended {
    ghost both = { merged_known };

    ghost spent = { spent None };
}
