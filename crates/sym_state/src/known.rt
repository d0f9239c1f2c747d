//! What is known of the decisions of the step that comes next.

ghost use Rattle.std.specs.Prelude.{◌≡◌, ◌<◌, Some, None, slice_index_or, slice_set};
ghost use Rattle.sym_state.specs.Symbolic.{most_decisions, nothing_known};

use crate::decided::Decided;
use std::marker::Model;

/// The most decisions of one step.
const MOST_DECISIONS: usize = 5;

/// What is known of the decisions of one step, by their places. A step of which nothing was known costs nothing to clear.
#[derive(Debug)]
pub(crate) struct Known {
    places: [Option<Decided>; MOST_DECISIONS],
    /// Whether anything is known.
    is_told: bool,
}

impl Drop for Known {
    fn drop(self) {
        let Self {
            places: _places,
            is_told: _is_told,
        } = self;
    }
}

impl Model for Known {
    ghost use Rattle.std.specs.Prelude.{◌≡◌, List, Option, false, length};
    ghost use Rattle.sym_state.specs.Symbolic.{nothing_known};
    ghost use Rattle.sym_state.specs.declared.decided.Decided.{Decided};

    ghost Value = { List (Option Decided) };

    ghost view = { λ k. k.places };

    ghost invariant = { λ k. k.is_told ≡ false → k.places ≡ nothing_known };
}

impl Known {
    /// Nothing is known.
    pub(crate) fn nothing() -> Known
        ensures { result ≡ nothing_known }
    {
        Known {
            places: [None; MOST_DECISIONS],
            is_told: false,
        }
    }

    /// An equal copy.
    pub(crate) fn copy(&self) -> Known
        ensures { result ≡ self.now }
    {
        Known {
            places: self.places,
            is_told: self.is_told,
        }
    }

    /// What is known of the decision at a place.
    pub(crate) fn at(&self, place: usize) -> Option<Decided>
        requires { place < most_decisions }
        ensures { result ≡ slice_index_or self.now place None }
    {
        self.places[place]
    }

    /// Keeps what the decision at a place is.
    pub(crate) fn put(&mut self, place: usize, decided: Decided)
        requires { place < most_decisions }
        ensures { self.new ≡ slice_set self.old place (Some decided) }
    {
        self.places[place] = Some(decided);
        self.is_told = true;
    }

    /// Nothing is known any more.
    pub(crate) fn clear(&mut self)
        ensures { self.new ≡ nothing_known }
    {
        if self.is_told {
            *self = Known::nothing();
        }
    }
}
