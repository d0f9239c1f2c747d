//! Why a text is no test.

ghost use Rattle.std.specs.Prelude.{◌≡◌};

use thiserror::Error;

/// What keeps a text from being a test. Of several the first in the order of `read_test` is answered.
#[derive(Clone, Copy, Debug, PartialEq, Eq, Error)]
pub enum TestRefused {
    #[error("the text is not JSON")]
    NotJson,
    #[error("a key is missing")]
    Missing,
    #[error("a value is not of its form")]
    Kind,
    #[error("the input or the output is not in hexadecimal digits")]
    Hex,
    #[error("the input has not one byte for each place of the regions")]
    Length,
    #[error("the text has more than 16 mebibytes")]
    TooBig,
}

impl TestRefused {
    ghost use Rattle.test_files.specs.Refusals.{test_refused_number, test_refused_name};

    /// The number of the reason, from 1.
    pub fn number(self) -> u8
        ensures { result ≡ test_refused_number self }
    {
        match self {
            TestRefused::NotJson => 1,
            TestRefused::Missing => 2,
            TestRefused::Kind => 3,
            TestRefused::Hex => 4,
            TestRefused::Length => 5,
            TestRefused::TooBig => 6,
        }
    }

    /// What it is called.
    pub fn name(self) -> &'static str
        ensures { result.now ≡ test_refused_name self }
    {
        match self {
            TestRefused::NotJson => "NotJson",
            TestRefused::Missing => "Missing",
            TestRefused::Kind => "Kind",
            TestRefused::Hex => "Hex",
            TestRefused::Length => "Length",
            TestRefused::TooBig => "TooBig",
        }
    }
}
