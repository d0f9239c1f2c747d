//! Why a file was not loaded.

use crate::refused::Refused;
use std::alloc::{AllocError, AllocFailed};
use thiserror::Error;

/// Why a file was not loaded.
#[derive(Clone, Copy, Debug, PartialEq, Eq, Error)]
pub enum LoadError {
    #[error("refused: {0}")]
    Refused(Refused),
    #[error("no memory")]
    NoMemory,
}

impl From<Refused> for LoadError {
    ghost use Rattle.std.specs.Prelude.{◌≡◌};
    ghost use Rattle.elf_load.specs.declared.load_error.LoadError.TheVariants.{Refused as Refuses};

    ghost from_gives = { λ refused error. error ≡ Refuses refused };

    fn from(refused: Refused) -> LoadError {
        LoadError::Refused(refused)
    }
}

impl From<AllocError> for LoadError {
    ghost use Rattle.std.specs.Prelude.{◌≡◌};
    ghost use Rattle.elf_load.specs.declared.load_error.LoadError.TheVariants.{NoMemory};

    ghost from_gives = { λ _ error. error ≡ NoMemory };

    fn from(_want: AllocError) -> LoadError {
        LoadError::NoMemory
    }
}

impl<T: Drop> From<AllocFailed<T>> for LoadError {
    ghost use Rattle.std.specs.Prelude.{◌≡◌};
    ghost use Rattle.elf_load.specs.declared.load_error.LoadError.TheVariants.{NoMemory};

    ghost from_gives = { λ _ error. error ≡ NoMemory };

    fn from(_want: AllocFailed<T>) -> LoadError {
        LoadError::NoMemory
    }
}
