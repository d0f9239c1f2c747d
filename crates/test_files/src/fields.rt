//! The values at the keys of a test.

ghost use Rattle.std.specs.Prelude.{◌≡◌, IfOk, is_some, option_and_then, option_map};
ghost use Rattle.std.specs.List.{list_all};
ghost use Rattle.serde_json.specs.Find.{get};
ghost use Rattle.serde_json.specs.View.{view};
ghost use Rattle.test_files.specs.Reading.{end_in, format_in, has_keys as has_all_keys, if_between, number_at, path_in, text_at};

use crate::format::Format;
use crate::forms::read_end;
use crate::path_form::read_path;
use crate::refused::TestRefused;
use rv_decode::{End, PathStep};
use serde_json::Value;
use std::alloc::{AllocError as NoMemory, Global};

/// The keys that a test of format 1 has to have, beside its format.
const JOINED_KEYS: [&str; 7] = ["end", "input", "leaf", "output", "path", "regions", "steps"];

/// Those of format 2.
const APART_KEYS: [&str; 6] = ["end", "inputs", "leaf", "output", "path", "steps"];

/// Whether the value has each of the keys.
fn has_all(value: &Value, keys: &[&str]) -> bool
    ensures { result ≡ list_all (λ key. is_some (get key.now (view value.now))) keys.now }
{
    keys.iter().all(|key| value.get(*key).is_some())
}

/// Whether the value has each key of a test of this format.
pub(crate) fn has_keys(format: Format, value: &Value) -> bool
    ensures { result ≡ has_all_keys format (view value.now) }
{
    match format {
        Format::Joined => has_all(value, &JOINED_KEYS),
        Format::Apart => has_all(value, &APART_KEYS),
    }
}

/// The format that the value says.
pub(crate) fn format_at(value: &Value) -> Result<Format, TestRefused>
    ensures { result ≡ format_in (view value.now) }
{
    let Some(said) = value.get("format") else {
        return Err(TestRefused::Missing);
    };
    match said.as_u64() {
        Some(1) => Ok(Format::Joined),
        Some(2) => Ok(Format::Apart),
        _ => Err(TestRefused::Kind),
    }
}

/// The string at the key.
pub(crate) fn read_text<'a>(value: &'a Value, key: &str) -> Option<&'a str>
    ensures { option_map (λ text. text.now) result ≡ text_at key.now (view value.now) }
{
    value.get(key).and_then(Value::as_str)
}

/// The integer at the key, where it is not below `least` and not above `most`.
pub(crate) fn read_between(value: &Value, key: &str, least: u64, most: u64) -> Option<u64>
    ensures { result ≡ option_and_then (if_between least most)
        (number_at key.now (view value.now)) }
{
    let number = value.get(key).and_then(Value::as_u64)?;
    if number < least || most < number {
        return None;
    }
    Some(number)
}

/// How the run ends.
pub(crate) fn end_at(value: &Value) -> Option<Option<End>>
    ensures { result ≡ end_in (view value.now) }
{
    read_end(read_text(value, "end")?.as_bytes())
}

/// The path of the run.
pub(crate) fn path_at(alloc: Global, value: &Value) -> Result<Option<Vec<PathStep>>, NoMemory>
    ensures { IfOk result (λ found. option_map (λ path. path.items) found
        ≡ path_in (view value.now)) }
{
    match read_text(value, "path") {
        Some(text) => read_path(alloc, text.as_bytes()),
        None => Ok(None),
    }
}
