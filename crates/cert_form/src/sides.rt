//! The sides of a split.

ghost use Rattle.std.specs.Prelude.{◌≡◌};

use std::marker::Model;
use tree_core::{Cause, Choice};

/// A side of a split: its choice, and why it is a leaf at once, if it is.
#[derive(Clone, Copy, Debug)]
pub struct Side {
    pub choice: Choice,
    pub cut: Option<Cause>,
}

impl Model for Side {
    ghost use Rattle.fork_spec.specs.Walks as spec;

    ghost Value = { spec.Side };

    ghost view = { λ s. record { choice = s.choice; cut = s.cut } };

    ghost inverse = { λ s. record { choice = s.choice; cut = s.cut } };
}

/// The sides of a split in their order.
#[derive(Debug, Drop)]
pub struct Sides {
    items: Vec<Side>,
}

impl Model for Sides {
    ghost use Rattle.std.specs.Prelude.{List};
    ghost use Rattle.fork_spec.specs.Walks as spec;

    ghost Value = { List spec.Side };

    ghost view = { λ s. s.items.items };
}

impl Sides {
    pub fn from_vec(items: Vec<Side>) -> Sides
        ensures { result ≡ items.items }
    {
        Sides { items }
    }

    pub fn as_slice(&self) -> &[Side]
        ensures { result.now ≡ self.now }
    {
        self.items.as_slice()
    }
}
