//! Tests of either format, written in format 2.

ghost use Rattle.std.specs.Prelude.{◌≡◌, ◌==◌, ◌≤◌, IfErr, IfOk, Ok, false, length, nat_le};
ghost use Rattle.std.specs.List.{list_all};
ghost use Rattle.test_files.specs.Inputs.{bytes_in, has_inputs};
ghost use Rattle.test_files.specs.Reading.{most_bytes, reading};
ghost use Rattle.test_files.specs.Refusals.{IsRefusedAs, IsWhy};
ghost use Rattle.test_files.specs.Tests.{Test as TestSpec, test_text};
ghost use Rattle.test_files.specs.Upgrading.{text_of, upgraded};
ghost use Rattle.test_files.specs.Writable.{IsWritable};

use crate::inputs::MOST_INPUT;
use crate::reading::read_test;
use crate::refused::TestRefused;
use crate::test::Test;
use crate::test_error::TestError;
use crate::writing::write_test;
use byte_list::Bytes;
use elf_load::Region;
use std::alloc::Global;

/// Whether each region has a byte or more.
fn none_is_empty(regions: &[Region]) -> bool
    ensures { result ≡ list_all (λ region. nat_le 1 region.count) regions.now }
{
    regions.iter().all(|region| 1 <= region.count)
}

/// Whether format 2 has a text of the test: there is some region, none is empty, and they have at most 1,024 bytes.
fn has_text(test: &Test) -> bool
    requires { length test.now.input ≡ bytes_in test.now.regions }
    ensures { result ≡ has_inputs test.now.regions }
{
    let regions = test.regions.as_slice();
    !regions.is_empty() && none_is_empty(regions) && test.input.len() <= MOST_INPUT
}

/// The text of the test in format 2, if it has one.
fn write_upgraded(alloc: Global, test: &Test) -> Result<Bytes, TestError>
    requires { length test.now.input ≡ bytes_in test.now.regions }
    ensures written { IfOk result (λ text. text_of test.now ≡ Ok text) }
    ensures refused { IfErr result (IsWhy (text_of test.now)) }
{
    if !has_text(test) {
        return Err(TestRefused::Length.into());
    }
    Ok(write_test(alloc, test)?)
}

/// Reads a test of format 1 or 2, and writes it in format 2.
///
/// # Errors
///
/// As `read_test` refuses the text, and as of the wrong length where a test of format 1 has no region, an empty one, or
/// more than 1,024 bytes: format 2 has no text of these. Where memory runs out.
pub fn upgrade_test(alloc: Global, text: &[u8]) -> Result<Bytes, TestError>
    // What is given is the text of the same test,
    ensures given { IfOk result (λ new. upgraded (reading text.now) ≡ Ok new) }
    // which reads as that test where it isn't too big;
    ensures reads_alike { IfOk result (λ new. length new ≤ most_bytes
        → reading new ≡ reading text.now) }
    // and of a text that was written it is the same text.
    ensures keeps_written { (test : TestSpec) → IsWritable test → text.now ≡ test_text test
        → IfOk result (λ new. new ≡ text.now) }
    // A test with no text in format 2 is refused for its length,
    ensures no_inputs { (test : TestSpec) → reading text.now ≡ Ok test
        → has_inputs test.regions ≡ false → IsRefusedAs TestRefused.Length result }
    // and nothing else is refused but what is no test, for the same reason.
    ensures refused { IfErr result (IsWhy (upgraded (reading text.now))) }
{
    let test = read_test(alloc, text)?;
    write_upgraded(alloc, &test)
}
