//! The regions of a test with their bytes, as JSON values.

ghost use Rattle.std.specs.Prelude.{◌≡◌, IfOk, map};
ghost use Rattle.serde_json.specs.View.{view};
ghost use Rattle.test_files.specs.TestData.{filled_data, inputs_data};
ghost use Rattle.test_files.specs.Tests.{Filled, filled};

use elf_load::Region;
use serde_json::{Value, json};
use std::alloc::{AllocError as NoMemory, Global};

/// A region, by its address, with its bytes: a JSON object.
fn filled_value(alloc: Global, start: u32, bytes: &[u8]) -> Result<Value, NoMemory>
    ensures { IfOk result (λ value. view value
        ≡ filled_data (record { start = start; bytes = bytes.now })) }
{
    let at = hex::encode(alloc, &start.to_be_bytes())?;
    let digits = hex::encode(alloc, bytes)?;
    json!(in alloc; {
        "at": at,
        "bytes": digits
    })
}

/// The regions with their bytes, which stand one after another in the input.
fn filled_values(alloc: Global, regions: &[Region], input: &[u8]) -> Result<Vec<Value>, NoMemory>
    ensures { IfOk result (λ values. map view values.items
        ≡ map filled_data (filled regions.now input.now)) }
{
    let mut values = Vec::with_capacity(alloc, regions.len())?;
    let mut rest = input;
    for region in regions {
        let len = rest.len().min(region.count as usize);
        let (bytes, others) = rest.split_at(len);
        values.push(filled_value(alloc, region.start, bytes)?)?;
        rest = others;
    }
    Ok(values)
}

/// The regions with their bytes, as a JSON list of objects.
pub(crate) fn filled_list(
    alloc: Global,
    regions: &[Region],
    input: &[u8],
) -> Result<Value, NoMemory>
    ensures { IfOk result (λ list. view list ≡ inputs_data (filled regions.now input.now)) }
{
    Ok(Value::Array(filled_values(alloc, regions, input)?))
}
