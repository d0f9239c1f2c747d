//! What holds of every test.

ghost use Rattle.std.specs.Prelude.{◌≡◌, ◌++◌, ℕ, IsTrue, List, codes, Ok};
ghost use Rattle.serde_json.specs.Data.{Data};
ghost use Rattle.serde_json.specs.Written.{compact_text};
ghost use Rattle.test_files.specs.Inputs.{has_inputs};
ghost use Rattle.test_files.specs.TestData.{test_data};
ghost use Rattle.test_files.specs.Reading.{format_in, reading, test_in};
ghost use Rattle.test_files.specs.Tests.{Test, test_text};
ghost use Rattle.test_files.specs.Writable.{IsBounded, IsLegible, IsWritable};
ghost use Rattle.test_files.specs.declared.format.Format.TheVariants.{Apart};

/// The text of a test is the compact text of a JSON object, and a line feed.
pub fn the_text_is_that_of_an_object()
    ensures { (test : Test) → compact_text (test_data test) ++ codes "\n" ≡ test_text test }
{}

/// A test that was written is read back, where its numbers are within their bounds.
pub fn a_written_test_is_read_back()
    ensures { (test : Test) → IsWritable test → reading (test_text test) ≡ Ok test }
{}

/// The text of a test is that of no other.
pub fn a_text_is_that_of_one_test()
    ensures { (test other : Test) → IsLegible test → IsLegible other
        → test_text test ≡ test_text other → test ≡ other }
{}

/// A test that was read, in either format, has its numbers within their bounds, bytes for its input and its output, and one byte of
/// input for each place of its regions.
pub fn a_read_test_is_within_its_bounds()
    ensures { (text : List ℕ) (test : Test) → reading text ≡ Ok test → IsBounded test }
{}

/// A test of format 2 has some region, none that is empty, and at most 1,024 bytes.
pub fn a_test_of_format_2_has_inputs()
    ensures { (value : Data) (test : Test) → format_in value ≡ Ok Apart
        → test_in value ≡ Ok test → IsTrue (has_inputs test.regions) }
{}
