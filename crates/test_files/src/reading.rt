//! Reading a test.

ghost use Rattle.std.specs.Prelude.{◌≡◌, IfErr, IfOk, Ok, Some};
ghost use Rattle.serde_json.specs.View.{view};
ghost use Rattle.test_files.specs.Reading.{json_of, reading, test_in};
ghost use Rattle.test_files.specs.Refusals.{IsNoJson, IsWhy};

use crate::fields::{format_at, has_keys};
use crate::refused::TestRefused;
use crate::said::read_said;
use crate::test::Test;
use crate::test_error::TestError;
use serde_json::Value;
use std::alloc::Global;

/// The most bytes of a test.
const MOST_BYTES: usize = 16_777_216;

/// Reads the JSON value of the text.
fn read_json(alloc: Global, text: &[u8]) -> Result<Value, TestError>
    ensures read { IfOk result (λ value. json_of text.now ≡ Some (view value)) }
    ensures refused { IfErr result (IsNoJson (json_of text.now)) }
{
    match Value::from_slice(alloc, text) {
        Ok(value) => Ok(value),
        Err(error) if error.is_memory() => Err(TestError::NoMemory),
        Err(_) => Err(TestRefused::NotJson.into()),
    }
}

/// Reads the test that the JSON value is.
#[tactic(auto, unfolding(crate::specs::Reading::test_in))]
fn read_value(alloc: Global, value: &Value) -> Result<Test, TestError>
    ensures read { IfOk result (λ test. test_in (view value.now) ≡ Ok test) }
    ensures refused { IfErr result (IsWhy (test_in (view value.now))) }
{
    if !value.is_object() {
        return Err(TestRefused::Kind.into());
    }
    let format = format_at(value)?;
    if !has_keys(format, value) {
        return Err(TestRefused::Missing.into());
    }
    read_said(alloc, format, value)?.decoded(alloc)
}

/// Reads a test of format 1 or 2: a JSON object (RFC 8259) of at most 16 mebibytes with the keys of its
/// format, in any order and beside any others. The first reason in this order keeps a text from being a
/// test: it is too big, is no JSON, is no object, has no format, has another than 1 and 2, has a key of
/// its format too few, a value not of its form, digits that are not hexadecimal, or an input of the wrong
/// length. In format 1 that is one which has not a byte for each place of the regions, in format 2 that
/// there is no region, an empty one, or more than 1,024 bytes.
#[tactic(auto, unfolding(crate::specs::Reading::reading))]
pub fn read_test(alloc: Global, text: &[u8]) -> Result<Test, TestError>
    ensures read { IfOk result (λ test. reading text.now ≡ Ok test) }
    // Refused so, unless memory runs out.
    ensures refused { IfErr result (IsWhy (reading text.now)) }
{
    if MOST_BYTES < text.len() {
        return Err(TestRefused::TooBig.into());
    }
    let value = read_json(alloc, text)?;
    read_value(alloc, &value)
}
