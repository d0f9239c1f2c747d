//! A small value for the tests: numbers, each with the worker that noted it.

ghost use Rattle.std.specs.Prelude.{◌≡◌, ◌++◌, ◌∷◌, [], OnOk, OnErr};
ghost use Rattle.turn_lock.specs.Growth.{StartsWith, GoesOnBy};

use std::alloc::{AllocError as NoMemory, Global};
use std::marker::Model;
use turn_lock::Growing;

#[derive(Drop, Clone, Copy, PartialEq, Debug)]
pub struct Note {
    pub by: u32,
    pub value: u32,
}

/// The title never changes, the nodes are the values, and the events the notes.
#[derive(Drop)]
pub struct Tally {
    title: u32,
    nodes: Vec<u32>,
    events: Vec<Note>,
}

impl Model for Tally {
    ghost use Rattle.std.specs.Prelude.{ℕ, List};
    ghost use Rattle.test_runs.specs.declared.tally.Note.{Note};

    ghost Value = { ℕ × List ℕ × List Note };

    ghost view = { λ t. (t.title, t.nodes.items, t.events.items) };
}

impl Growing for Tally {
    type Fixed = u32;

    type Node = u32;

    type Event = Note;

    ghost fixed = { λ t. t.0 };

    ghost nodes = { λ t. t.1 };

    ghost events = { λ t. t.2 };

    ghost worker = { λ e. e.by };

    fn event_count(&self) -> u64 {
        self.events.len() as u64
    }
}

impl Tally {
    pub fn new(alloc: Global, title: u32) -> Tally
        ensures { result ≡ (title, [], []) }
    {
        Tally {
            title,
            nodes: Vec::new(alloc),
            events: Vec::new(alloc),
        }
    }

    pub fn note(&mut self, note: Note) -> Result<(), NoMemory>
        ensures ok { OnOk result (self.new.2 ≡ self.old.2 ++ note ∷ []) }
        ensures err { OnErr result (self.new ≡ self.old) }
        ensures title { self.new.0 ≡ self.old.0 }
        ensures nodes { StartsWith self.new.1 self.old.1 }
        ensures events { GoesOnBy (λ e. e.by) note.by self.old.2 self.new.2 }
    {
        self.nodes.reserve(1)?;
        self.events.reserve(1)?;
        self.nodes.push_reserved(note.value);
        self.events.push_reserved(note);
        Ok(())
    }

    pub fn title(&self) -> u32
        ensures { result ≡ self.now.0 }
    {
        self.title
    }

    pub fn notes(&self) -> &[Note]
        ensures { result.now ≡ self.now.2 }
    {
        self.events.as_slice()
    }
}
