//! The regions of a test, and the digits of its input bytes.

ghost use Rattle.std.specs.Prelude.{◌≡◌, IfOk, map, option_map};
ghost use Rattle.serde_json.specs.View.{view, items_view};
ghost use Rattle.test_files.specs.Reading.{inputs_in, item_in, items_in, region_in, regions_in, regions_of};
ghost use Rattle.test_files.specs.Seen.{inputs_seen, item_seen};

use crate::fields::read_text;
use crate::format::Format;
use crate::forms::read_region;
use crate::inputs::{Inputs, Item};
use elf_load::Region;
use serde_json::Value;
use std::alloc::{AllocError as NoMemory, Global};
use text_parts::hex_number;

/// The region that the value says.
fn region_at(value: &Value) -> Option<Region>
    ensures { result ≡ region_in (view value.now) }
{
    read_region(value.as_str()?.as_bytes())
}

/// The regions that the values say.
fn read_regions(alloc: Global, values: &[Value]) -> Result<Option<Vec<Region>>, NoMemory>
    ensures { IfOk result (λ found. option_map (λ regions. regions.items) found
        ≡ regions_of (items_view values.now)) }
{
    let mut regions = Vec::with_capacity(alloc, values.len())?;
    for value in values {
        let Some(region) = region_at(value) else {
            return Ok(None);
        };
        regions.push(region)?;
    }
    Ok(Some(regions))
}

/// The regions of input bytes.
fn regions_at(alloc: Global, value: &Value) -> Result<Option<Vec<Region>>, NoMemory>
    ensures { IfOk result (λ found. option_map (λ regions. regions.items) found
        ≡ regions_in (view value.now)) }
{
    match value.get("regions").and_then(Value::as_array) {
        Some(values) => read_regions(alloc, values),
        None => Ok(None),
    }
}

/// The region that the value says, with the digits of its bytes.
fn item_at<'a>(value: &'a Value) -> Option<Item<'a>>
    ensures { option_map item_seen result ≡ item_in (view value.now) }
{
    let start = hex_number(read_text(value, "at")?.as_bytes())?;
    let digits = read_text(value, "bytes")?;
    Some(Item { start, digits })
}

/// The regions that the values say, with the digits of their bytes.
fn read_items<'a>(alloc: Global, values: &'a [Value]) -> Result<Option<Vec<Item<'a>>>, NoMemory>
    ensures { IfOk result (λ found. option_map (λ items. map item_seen items.items) found
        ≡ items_in (items_view values.now)) }
{
    let mut items = Vec::with_capacity(alloc, values.len())?;
    for value in values {
        let Some(item) = item_at(value) else {
            return Ok(None);
        };
        items.push(item)?;
    }
    Ok(Some(items))
}

/// The regions and one text of digits.
fn joined_at<'a>(alloc: Global, value: &'a Value) -> Result<Option<Inputs<'a>>, NoMemory>
    ensures { IfOk result (λ found. option_map inputs_seen found
        ≡ inputs_in Format.Joined (view value.now)) }
{
    let Some(digits) = read_text(value, "input") else {
        return Ok(None);
    };
    let regions = regions_at(alloc, value)?;
    Ok(regions.map(|regions| Inputs::Joined(regions, digits)))
}

/// The regions, each with its digits.
fn apart_at<'a>(alloc: Global, value: &'a Value) -> Result<Option<Inputs<'a>>, NoMemory>
    ensures { IfOk result (λ found. option_map inputs_seen found
        ≡ inputs_in Format.Apart (view value.now)) }
{
    match value.get("inputs").and_then(Value::as_array) {
        Some(values) => Ok(read_items(alloc, values)?.map(Inputs::Apart)),
        None => Ok(None),
    }
}

/// The regions and the digits of the input, where each has a value of its form in this format.
pub(crate) fn inputs_at<'a>(
    alloc: Global,
    format: Format,
    value: &'a Value,
) -> Result<Option<Inputs<'a>>, NoMemory>
    ensures { IfOk result (λ found. option_map inputs_seen found
        ≡ inputs_in format (view value.now)) }
{
    match format {
        Format::Joined => joined_at(alloc, value),
        Format::Apart => apart_at(alloc, value),
    }
}
