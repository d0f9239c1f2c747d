//! What the keys of a test say.

ghost use Rattle.std.specs.Prelude.{◌≡◌, IfErr, IfOk, Ok, Some};
ghost use Rattle.serde_json.specs.View.{view};
ghost use Rattle.test_files.specs.Reading.{said_in, test_with_bytes};
ghost use Rattle.test_files.specs.Refusals.{IsOfNoForm, IsWhy};
ghost use Rattle.test_files.specs.Seen.{said_seen};

use crate::digits::decode;
use crate::fields::{end_at, path_at, read_between, read_text};
use crate::format::Format;
use crate::inputs::Inputs;
use crate::places::inputs_at;
use crate::refused::TestRefused;
use crate::test::Test;
use crate::test_error::TestError;
use byte_list::Bytes;
use elf_load::Regions;
use rv_decode::{End, PathStep};
use serde_json::Value;
use std::alloc::Global;

/// The most that a leaf's rank may be: up to here a float has each integer.
const MOST_LEAF: u64 = 1 << 53;

/// The most steps of a run.
const MOST_STEPS: u64 = 1_000_000;

/// What the keys say. The input and the output are still in hexadecimal digits.
pub(crate) struct Said<'a> {
    end: Option<End>,
    inputs: Inputs<'a>,
    leaf: usize,
    output: &'a str,
    path: Vec<PathStep>,
    steps: u32,
}

impl<'a> Drop for Said<'a> {
    fn drop(self) {
        let Self {
            end: _end,
            inputs: _inputs,
            leaf: _leaf,
            output: _output,
            path: _path,
            steps: _steps,
        } = self;
    }
}

/// What the keys say, where each has a value of its form in this format.
#[tactic(auto, unfolding(crate::specs::Reading::said_in))]
pub(crate) fn read_said<'a>(
    alloc: Global,
    format: Format,
    value: &'a Value,
) -> Result<Said<'a>, TestError>
    ensures read { IfOk result (λ said. said_in format (view value.now) ≡ Some (said_seen said)) }
    ensures refused { IfErr result (IsOfNoForm (said_in format (view value.now))) }
{
    let end = end_at(value).ok_or(TestRefused::Kind)?;
    let leaf = read_between(value, "leaf", 0, MOST_LEAF).ok_or(TestRefused::Kind)?;
    let output = read_text(value, "output").ok_or(TestRefused::Kind)?;
    let steps = read_between(value, "steps", 1, MOST_STEPS).ok_or(TestRefused::Kind)?;
    let path = path_at(alloc, value)?.ok_or(TestRefused::Kind)?;
    let inputs = inputs_at(alloc, format, value)?.ok_or(TestRefused::Kind)?;
    Ok(Said {
        end,
        inputs,
        leaf: leaf as usize,
        output,
        path,
        steps: steps as u32,
    })
}

impl Said<'_> {
    /// The test, with the bytes that the digits write.
    pub(crate) fn decoded(self, alloc: Global) -> Result<Test, TestError>
        ensures read { IfOk result (λ test. test_with_bytes (said_seen self.entry) ≡ Ok test) }
        ensures refused { IfErr result (IsWhy (test_with_bytes (said_seen self.entry))) }
    {
        let Self {
            end,
            inputs,
            leaf,
            output,
            path,
            steps,
        } = self;
        let output = decode(alloc, output)?.ok_or(TestRefused::Hex)?;
        let laid = inputs.laid(alloc)?;
        Ok(Test {
            leaf,
            regions: Regions::from_vec(laid.regions),
            input: Bytes::from_vec(laid.input),
            steps,
            path,
            end,
            output: Bytes::from_vec(output),
        })
    }
}
