//! The values of a test's keys.

ghost use Rattle.std.specs.Prelude.{◌≡◌, IfOk, map, string_bytes};
ghost use Rattle.serde_json.specs.Data.{string};
ghost use Rattle.serde_json.specs.View.{view};
ghost use Rattle.text_parts.specs.Names.{path_text};
ghost use Rattle.test_files.specs.TestData.{regions_data};
ghost use Rattle.test_files.specs.Tests.{end_text as text_of_end, region_text as text_of_region};

use elf_load::Region;
use itoa::Buffer;
use rv_decode::{End, PathStep};
use serde_json::Value;
use std::alloc::{AllocError as NoMemory, Global};
use text_parts::write_path;

/// How the run ends: `exit N`, `trap NAME` or `running`.
pub fn end_text(alloc: Global, end: Option<End>) -> Result<String, NoMemory>
    ensures { IfOk result (λ text. string_bytes text ≡ text_of_end end) }
{
    match end {
        Some(End::Exit(status)) => {
            let mut buffer = Buffer::new();
            let status = buffer.format(status);
            format!(in alloc; "exit {status}")
        }
        Some(End::Trapped(trap)) => {
            let name = trap.name();
            format!(in alloc; "trap {name}")
        }
        None => String::from_str(alloc, "running"),
    }
}

/// The entries of a path, with nothing between.
pub fn path_string(alloc: Global, path: &[PathStep]) -> Result<String, NoMemory>
    ensures { IfOk result (λ text. string_bytes text ≡ path_text path.now) }
{
    let mut text = String::new(alloc);
    write_path(alloc, &mut text, path)?;
    Ok(text)
}

/// A region: its address in eight digits, and how many bytes.
fn region_text(alloc: Global, region: Region) -> Result<String, NoMemory>
    ensures { IfOk result (λ text. string_bytes text ≡ text_of_region region) }
{
    let start = hex::encode(alloc, &region.start.to_be_bytes())?;
    let mut buffer = Buffer::new();
    let count = buffer.format(region.count);
    format!(in alloc; "{start}:{count}")
}

/// The regions as strings.
fn region_values(alloc: Global, regions: &[Region]) -> Result<Vec<Value>, NoMemory>
    ensures { IfOk result (λ values. map view values.items
        ≡ map (λ region. string (text_of_region region)) regions.now) }
{
    let mut values = Vec::with_capacity(alloc, regions.len())?;
    for region in regions {
        values.push(Value::String(region_text(alloc, *region)?))?;
    }
    Ok(values)
}

/// The regions as a JSON list of strings.
pub fn region_list(alloc: Global, regions: &[Region]) -> Result<Value, NoMemory>
    ensures { IfOk result (λ list. view list ≡ regions_data regions.now) }
{
    Ok(Value::Array(region_values(alloc, regions)?))
}
