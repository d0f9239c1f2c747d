//! The text of a test.

ghost use Rattle.std.specs.Prelude.{◌≡◌, IfOk};
ghost use Rattle.serde_json.specs.View.{view};
ghost use Rattle.test_files.specs.TestData.{test_data};
ghost use Rattle.test_files.specs.Tests.{test_text};

use crate::filled::filled_list;
use crate::parts::{end_text, path_string};
use crate::test::Test;
use byte_list::Bytes;
use serde_json::{Value, json};
use std::alloc::{AllocError as NoMemory, Global};

/// The test as a JSON object.
fn test_value(alloc: Global, test: &Test) -> Result<Value, NoMemory>
    ensures { IfOk result (λ value. view value ≡ test_data test.now) }
{
    let end = end_text(alloc, test.end)?;
    let output = hex::encode(alloc, test.output.as_slice())?;
    let path = path_string(alloc, &test.path)?;
    let inputs = filled_list(alloc, test.regions.as_slice(), test.input.as_slice())?;
    json!(in alloc; {
        "end": end,
        "format": 2u32,
        "inputs": inputs,
        "leaf": test.leaf,
        "output": output,
        "path": path,
        "steps": test.steps
    })
}

/// The text of a test, in format 2: the compact text of a JSON object, and a line feed.
pub fn write_test(alloc: Global, test: &Test) -> Result<Bytes, NoMemory>
    ensures { IfOk result (λ text. text ≡ test_text test.now) }
{
    let value = test_value(alloc, test)?;
    let mut text = value.to_string(alloc)?;
    text.push_str("\n")?;
    Ok(Bytes::from_vec(text.into_bytes()))
}
