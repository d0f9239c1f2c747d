//! Saying how a run differs from its test.

ghost use Rattle.std.specs.Prelude.{◌≡◌, IfOk, ℕ};
ghost use Rattle.rv_spec.specs.Runs.{Run};
ghost use Rattle.replay_core.specs.Differences.{difference_text};
ghost use Rattle.replay_core.specs.Replays.{IsWhatRan};

use byte_list::Bytes;
use itoa::Buffer;
use rv_machine::Ran;
use std::alloc::{AllocError as NoMemory, Global};
use test_files::end_text;
use text_parts::write_path;

/// Five lines: that the run differs, and its end, its steps, its path and its output.
pub fn write_difference(alloc: Global, ran: &Ran) -> Result<Bytes, NoMemory>
    ensures { IfOk result (λ text. (r : Run) → IsWhatRan r ran.now → text ≡ difference_text r) }
{
    let end = end_text(alloc, ran.end)?;
    let output = hex::encode(alloc, &ran.output)?;
    let mut buffer = Buffer::new();
    let steps = buffer.format(ran.steps);
    let mut text = format!(in alloc; "differs\nend {end}\nsteps {steps}\npath ")?;
    write_path(alloc, &mut text, &ran.path)?;
    write!(text, ".\noutput {output}.\n")?;
    Ok(Bytes::from_vec(text.into_bytes()))
}
