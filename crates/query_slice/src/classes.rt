//! Input bytes in classes: each has a label, and those of one class have the same.

ghost use Rattle.std.specs.Prelude.{◌≡◌, OnOk, fold};
ghost use Rattle.std.specs.List.{range_with_len};
ghost use Rattle.query_slice.specs.Classes.{are_same, joined, label_of, renamed};

use std::alloc::{AllocError as NoMemory, Global};
use std::marker::Model;

/// A label that became another, as two classes became one.
#[derive(Clone, Copy, Debug)]
struct Renaming {
    gone: usize,
    kept: usize,
}

/// A label for each input byte, which is its own number until others take its place. So it costs what was joined, and not
/// what there is.
#[derive(Drop)]
pub(crate) struct Classes {
    count: usize,
    /// In the order in which they came.
    renamings: Vec<Renaming>,
}

impl Model for Classes {
    ghost use Rattle.std.specs.Prelude.{List, ℕ};
    ghost use Rattle.std.specs.List.{range_with_len};
    ghost use Rattle.query_slice.specs.Classes.{renamed_all};

    ghost Value = { List ℕ };

    ghost view = { λ c. renamed_all c.renamings.items (range_with_len 0 c.count) };
}

// What a label is after one renaming.
fn renamed(renaming: Renaming, label: usize) -> usize
    ensures { result ≡ renamed renaming label }
{
    if label == renaming.gone {
        renaming.kept
    } else {
        label
    }
}

// What a label is after all of these.
fn renamed_by(renamings: &[Renaming], label: usize) -> usize
    ensures { result ≡ fold (λ before renaming. renamed renaming before) label renamings.now }
{
    let mut last = label;
    for renaming in renamings {
        last = renamed(*renaming, last);
    }
    last
}

impl Classes {
    /// So many bytes, each in a class of its own.
    pub(crate) fn new(alloc: Global, count: usize) -> Classes
        ensures { result ≡ range_with_len 0 count }
    {
        Classes {
            count,
            renamings: Vec::new(alloc),
        }
    }

    // The label of a byte.
    fn label(&self, input: Option<usize>) -> Option<usize>
        ensures { result ≡ label_of self.now input }
    {
        let place = input?;
        if place < self.count {
            Some(renamed_by(&self.renamings, place))
        } else {
            None
        }
    }

    /// Whether both bytes are there and of one class.
    pub(crate) fn are_one(&self, first: Option<usize>, second: Option<usize>) -> bool
        ensures { result ≡ are_same (label_of self.now first) (label_of self.now second) }
    {
        match (self.label(first), self.label(second)) {
            (Some(one), Some(other)) => one == other,
            _ => false,
        }
    }

    /// Makes one class of those of two bytes.
    pub(crate) fn join(
        &mut self,
        first: Option<usize>,
        second: Option<usize>,
    ) -> Result<(), NoMemory>
        ensures { OnOk result (self.new ≡ joined self.old first second) }
    {
        let Some(kept) = self.label(first) else {
            return Ok(());
        };
        let Some(gone) = self.label(second) else {
            return Ok(());
        };
        if kept != gone {
            self.renamings.push(Renaming { gone, kept })?;
        }
        Ok(())
    }
}
