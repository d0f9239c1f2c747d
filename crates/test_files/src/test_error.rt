//! Why a test was not read.

use crate::refused::TestRefused;
use std::alloc::AllocError;
use thiserror::Error;

/// Why a test was not read.
#[derive(Clone, Copy, Debug, PartialEq, Eq, Error)]
pub enum TestError {
    #[error("refused: {0}")]
    Refused(TestRefused),
    #[error("no memory")]
    NoMemory,
}

impl From<TestRefused> for TestError {
    ghost use Rattle.std.specs.Prelude.{◌≡◌};
    ghost use Rattle.test_files.specs.declared.test_error.TestError.TheVariants.{Refused};

    ghost from_gives = { λ refused error. error ≡ Refused refused };

    fn from(refused: TestRefused) -> TestError {
        TestError::Refused(refused)
    }
}

impl From<AllocError> for TestError {
    ghost use Rattle.std.specs.Prelude.{◌≡◌};
    ghost use Rattle.test_files.specs.declared.test_error.TestError.TheVariants.{NoMemory};

    ghost from_gives = { λ _ error. error ≡ NoMemory };

    fn from(_want: AllocError) -> TestError {
        TestError::NoMemory
    }
}
