//! The line of a value that was found of a term.

ghost use Rattle.std.specs.Prelude.{◌≡◌, IfOk, string_bytes};
ghost use Rattle.spent_text.specs.FoundLine.{found_text};

use fork_spec::Found;
use std::alloc::{AllocError as NoMemory, Global};

/// The line of a value and its assignment.
pub fn found_line(alloc: Global, found: &Found) -> Result<String, NoMemory>
    ensures { IfOk result (λ line. string_bytes line ≡ found_text found.now) }
{
    let value = hex::encode(alloc, &found.value.to_be_bytes())?;
    let input = hex::encode(alloc, found.input.as_slice())?;
    format!(in alloc; "v {value} {input}\n")
}
