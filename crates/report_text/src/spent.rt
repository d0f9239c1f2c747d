//! What was spent on a leaf: the values that were found of a term, or how many nodes there were.

ghost use Rattle.std.specs.Prelude.{◌≡◌, IfOk, string_bytes};
ghost use Rattle.std.specs.List.{flat_map};
ghost use Rattle.report_text.specs.Spent.{nodes_text, targets_text};
ghost use Rattle.spent_text.specs.FoundLine.{found_text};

use byte_list::Bytes;
use fork_spec::Found;
use itoa::Buffer;
use leaf_part::Spent;
use spent_text::found_line;
use std::alloc::{AllocError as NoMemory, Global};

/// A line for each value.
fn found_lines(alloc: Global, values: &[Found]) -> Result<String, NoMemory>
    ensures { IfOk result (λ lines. string_bytes lines ≡ flat_map found_text values.now) }
{
    let mut lines = String::new(alloc);
    for found in values {
        let line = found_line(alloc, found)?;
        lines.push_str(&line)?;
    }
    Ok(lines)
}

/// The text of the values that were found.
pub fn write_targets(alloc: Global, spent: &Spent) -> Result<Bytes, NoMemory>
    ensures { IfOk result (λ text. text ≡ targets_text spent.now) }
{
    let (mut count, mut place) = (Buffer::new(), Buffer::new());
    let (count, term) = (count.format(spent.found.len()), place.format(spent.term));
    let lines = found_lines(alloc, &spent.found)?;
    let text = format!(in alloc; "; spent targets {count}\n; term n{term}\n{lines}")?;
    Ok(Bytes::from_vec(text.into_bytes()))
}

/// The text of so many nodes.
pub fn write_nodes(alloc: Global, nodes: u32) -> Result<Bytes, NoMemory>
    ensures { IfOk result (λ text. text ≡ nodes_text nodes) }
{
    let mut count = Buffer::new();
    let count = count.format(nodes);
    let text = format!(in alloc; "; spent nodes {count}\n")?;
    Ok(Bytes::from_vec(text.into_bytes()))
}
