//! A gate at which two workers meet.

use crate::gate::Gate;
use crate::point::{Next, Point};
use crossbeam_utils::Backoff;
use std::sync::atomic::{AtomicBool, Ordering};

/// How often a worker that is held looks whether it may go on.
const MOST_TURNS: u32 = 1_000_000;

/// Lets nobody leave, and holds workers that work until workers 0 and 1 are both held.
///
/// The first `Working` of all passes. Each later one is held until both workers are, or until one that
/// is held has looked 1,000,000 times whether it may go on. From then on nobody is held.
#[derive(Debug, Drop)]
pub struct MeetGate {
    has_begun: AtomicBool,
    is_zero_held: AtomicBool,
    is_one_held: AtomicBool,
    have_met: AtomicBool,
    was_limit_reached: AtomicBool,
    is_open: AtomicBool,
}

impl MeetGate {
    /// A gate that nobody has reached.
    pub fn new() -> MeetGate {
        MeetGate {
            has_begun: AtomicBool::new(false),
            is_zero_held: AtomicBool::new(false),
            is_one_held: AtomicBool::new(false),
            have_met: AtomicBool::new(false),
            was_limit_reached: AtomicBool::new(false),
            is_open: AtomicBool::new(false),
        }
    }

    /// Whether workers 0 and 1 were held at once.
    pub fn have_met(&self) -> bool {
        self.have_met.load(Ordering::SeqCst)
    }

    /// Whether a worker that was held went on because it had looked 1,000,000 times.
    pub fn was_limit_reached(&self) -> bool {
        self.was_limit_reached.load(Ordering::SeqCst)
    }

    /// Holds the worker until the gate is open.
    fn hold(&self, worker: u32) {
        self.meet(worker);
        let backoff = Backoff::new();
        for _ in 0..MOST_TURNS {
            if self.is_open.load(Ordering::SeqCst) {
                return;
            }
            backoff.snooze();
        }
        self.was_limit_reached.store(true, Ordering::SeqCst);
        self.is_open.store(true, Ordering::SeqCst);
    }

    /// Notes that the worker is held, and opens the gate where workers 0 and 1 both are.
    fn meet(&self, worker: u32) {
        match worker {
            0 => self.is_zero_held.store(true, Ordering::SeqCst),
            1 => self.is_one_held.store(true, Ordering::SeqCst),
            _ => return,
        }
        // A worker that is held goes on only after one of the two notes: with neither, both are held now.
        if self.is_zero_held.load(Ordering::SeqCst)
            && self.is_one_held.load(Ordering::SeqCst)
            && !self.was_limit_reached.load(Ordering::SeqCst)
        {
            self.have_met.store(true, Ordering::SeqCst);
            self.is_open.store(true, Ordering::SeqCst);
        }
    }
}

impl Gate for MeetGate {
    ghost may_leave = { λ _ _ _. ⊥ };

    fn reached(&self, worker: u32, point: Point) -> Next {
        let is_later = point == Point::Working && self.has_begun.swap(true, Ordering::SeqCst);
        if is_later && !self.is_open.load(Ordering::SeqCst) {
            self.hold(worker);
        }
        Next::Go
    }
}
