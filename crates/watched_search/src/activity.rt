//! The order in which variables are chosen: by their activity. Each conflict raises the activity of the variables that its
//! analysis met by a gain, and the gain itself grows, so that what was gained of late counts most. Before the numbers grow too
//! large, all are divided.
//!
//! Variables stand in a heap by their activity, that of the variable k as the number k - 1. To choose one, those on top are taken
//! out until one has no value; where a variable loses its value, it is put back.

ghost use Rattle.std.specs.Prelude.{◌<◌, IfSome};

use crate::heap::Heap;
use std::alloc::{AllocError as NoMemory, Global};
use std::marker::Model;

/// Variables by their activity.
#[derive(Debug)]
pub struct Activity {
    /// That of the variable k at place k - 1.
    activities: Vec<u64>,
    heap: Heap,
    /// What a variable gains that a conflict meets.
    gain: u64,
}

impl Drop for Activity {
    fn drop(self) {
        let Self {
            activities: _activities,
            heap: _heap,
            gain: _gain,
        } = self;
    }
}

/// How many variables can be taken out.
impl Model for Activity {
    ghost use Rattle.std.specs.Prelude.{ℕ};

    ghost Value = { ℕ };

    ghost view = { λ a. a.heap.len };
}

// The gain at first, by which part of itself it grows, and up to where.
const FIRST_GAIN: u64 = 64;

const GROWTH: u64 = 16;

const GREATEST_GAIN: u64 = 1 << 48;
// By what all is divided where the gain is greater.
const SCALE: u64 = 1 << 40;

impl Activity {
    /// The variables up to this one, all alike.
    pub fn new(alloc: Global, last: u32) -> Result<Activity, NoMemory> {
        Ok(Activity {
            activities: vec![in alloc; 0; last as usize]?,
            heap: Heap::new(alloc, last as usize)?,
            gain: FIRST_GAIN,
        })
    }

    /// Takes out the most active variable, and answers its place.
    pub fn pop(&mut self) -> Option<usize>
        ensures { IfSome result (λ _. self.new < self.old) }
    {
        self.heap.pop(&self.activities)
    }

    /// Puts the variable at this place back.
    pub fn put(&mut self, place: usize) {
        self.heap.put(&self.activities, place);
    }

    // Divides every activity and the gain. Activities that differed may be equal then, which changes their order.
    fn scale(&mut self) {
        for activity in self.activities.iter_mut() {
            *activity /= SCALE;
        }
        self.gain /= SCALE;
        self.heap.rebuild(&self.activities);
    }

    /// Raises the activity of the variable at this place.
    pub fn raise(&mut self, place: usize) {
        if place < self.activities.len() {
            self.activities[place] = self.activities[place].saturating_add(self.gain);
        }
        self.heap.raise(&self.activities, place);
    }

    /// Lets what is gained from now on count more.
    pub fn grow(&mut self) {
        self.gain = self.gain.saturating_add(self.gain / GROWTH);
        if self.gain > GREATEST_GAIN {
            self.scale();
        }
    }
}
