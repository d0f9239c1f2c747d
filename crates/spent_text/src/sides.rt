//! The sides that a node is parted into. After an error a part of one may stand there.

ghost use Rattle.std.specs.Prelude.{◌≡◌, ◌++◌, OnOk, string_bytes};
ghost use Rattle.spent_text.specs.Sides as spec;

use std::alloc::{AllocError as NoMemory, Global};
use text_parts::{cause_name, write_choice};
use tree_core::{Cause, Choice};

/// Appends what stands behind the choice of a side that is a leaf at once.
fn write_mark(text: &mut String, cut: Option<Cause>) -> Result<(), NoMemory>
    ensures { OnOk result (string_bytes text.new ≡ string_bytes text.old ++ spec.mark_text cut) }
{
    match cut {
        None => Ok(()),
        Some(cause) => {
            text.push_str("!")?;
            text.push_str(cause_name(cause))
        }
    }
}

/// Appends a side, by its choice and why it is a leaf at once, if it is, behind a blank.
pub fn write_side(
    alloc: Global,
    text: &mut String,
    choice: Choice,
    cut: Option<Cause>,
) -> Result<(), NoMemory>
    ensures { OnOk result (string_bytes text.new ≡ string_bytes text.old
        ++ spec.side_text (record { choice = choice; cut = cut })) }
{
    text.push_str(" ")?;
    write_choice(alloc, text, choice)?;
    write_mark(text, cut)
}
