//! Waiting for events, and waking those who do. No clause says when a wait ends.
//!
//! No wake is lost. Who gives the value back stores the number of events, and only then looks whether anybody waits; who waits is
//! counted first, and sleeps only if the number of events is still the one that it has seen. So either the one finds the other
//! counted, and wakes it, or the other finds more events, and doesn't sleep.

use super::calls::EVENTS;
use super::{Pass, TurnLock};
use crate::growing::Growing;
use std::sync::Wait;
use std::sync::atomic::Ordering;

impl<V: Growing> TurnLock<V> {
    /// Sleeps until this pass is woken, but not where there are other events than when it gave the value back. It may also
    /// return for no reason.
    pub fn wait<R: Wait>(&self, rt: &R, pass: &Pass<V>) {
        let seen = (pass.seen & 0xFFFF_FFFF) as u32;
        self.waiting.fetch_add(1, Ordering::SeqCst);
        self.table.shared.park(rt, EVENTS, seen);
        self.waiting.fetch_sub(1, Ordering::SeqCst);
    }

    /// Wakes so many passes that wait, or all where it is more than one.
    pub fn wake(&self, count: usize) {
        if count == 1 && self.waiting.load(Ordering::SeqCst) != 0 {
            self.table.shared.wake_one(EVENTS);
        }
        if count > 1 {
            self.wake_all();
        }
    }

    /// Wakes all passes that wait.
    pub fn wake_all(&self) {
        if self.waiting.load(Ordering::SeqCst) != 0 {
            self.table.shared.wake_all(EVENTS);
        }
    }
}
