//! What the words ask for, and why they ask for nothing.

ghost use Rattle.std.specs.Prelude.{◌≡◌};
ghost use Rattle.clap.specs.Words.{kind_of};
ghost use Rattle.tool_words.specs.Seen.{error_of};
ghost use Rattle.tool_words.specs.declared.job.WordsError.TheVariants.{NoMemory};

use clap::error::ErrorKind;
use elf_load::Regions;
use std::alloc::{AllocError, AllocFailed};
use tree_core::Budgets;

/// An exploration: of which program, for which input bytes, and within what.
#[derive(Debug)]
pub struct Exploration {
    /// The program's file.
    pub program: String,
    /// The folder into which the leaves and their tests are put.
    pub out: String,
    /// Where the input bytes stand.
    pub regions: Regions,
    pub budgets: Budgets,
    /// How many workers there are.
    pub workers: u32,
}

impl Drop for Exploration {
    fn drop(self) {
        let Self {
            program: _program,
            out: _out,
            regions: _regions,
            budgets: _budgets,
            workers: _workers,
        } = self;
    }
}

/// What the words ask for.
#[derive(Debug, Drop)]
pub enum Job {
    /// The leaves of a program and their tests are to be put into a folder.
    Explore(Exploration),
    /// The run of the test in one file, on the program in another, is to be compared with what the test says.
    Replay {
        program: String,
        test: String,
    },
    /// The leaves of the generated program of this number, and their tests, are to be put into the folder
    /// `out`, by so many workers.
    Bench {
        number: u32,
        workers: u32,
        out: String,
    },
    /// The test in one file, of format 1 or 2, is to be put in format 2 as the file `out`.
    Upgrade {
        test: String,
        out: String,
    },
    /// The certificate in one file, of the leaves of the program in another, is to be audited.
    Audit {
        program: String,
        certificate: String,
    },
}

/// Why there is no job.
#[derive(Clone, Copy, Debug, PartialEq, Eq)]
pub enum WordsError {
    /// The words are no command line of rvklee's, or ask for help.
    Usage,
    /// Memory was refused.
    NoMemory,
}

impl From<AllocError> for WordsError {
    ghost from_gives = { λ _ e. e ≡ NoMemory };

    fn from(_error: AllocError) -> WordsError {
        WordsError::NoMemory
    }
}

impl<T: Drop> From<AllocFailed<T>> for WordsError {
    ghost from_gives = { λ _ e. e ≡ NoMemory };

    fn from(_error: AllocFailed<T>) -> WordsError {
        WordsError::NoMemory
    }
}

impl From<clap::Error> for WordsError {
    ghost from_gives = { λ error e. e ≡ error_of (kind_of error) };

    fn from(error: clap::Error) -> WordsError {
        match error.kind() {
            ErrorKind::OutOfMemory => WordsError::NoMemory,
            _ => WordsError::Usage,
        }
    }
}
