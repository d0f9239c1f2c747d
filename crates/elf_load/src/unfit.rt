//! Why regions do not fit an image.

ghost use Rattle.std.specs.Prelude.{◌≡◌};

use thiserror::Error;

/// What keeps regions from an image. Of several the first is answered.
#[derive(Clone, Copy, Debug, PartialEq, Eq, Error)]
pub enum Unfit {
    #[error("there are more than eight regions")]
    TooMany,
    #[error("a region has no bytes")]
    Empty,
    #[error("the regions have more than 1,024 bytes")]
    TooLong,
    #[error("a byte is on no page of the program")]
    Unmapped,
    #[error("two regions share an address")]
    Overlap,
}

impl Unfit {
    ghost use Rattle.elf_load.specs.Names.{unfit_number, unfit_name};

    /// Its place in the order in which these are answered, from 1.
    pub fn number(self) -> u8
        ensures { result ≡ unfit_number self }
    {
        match self {
            Unfit::TooMany => 1,
            Unfit::Empty => 2,
            Unfit::TooLong => 3,
            Unfit::Unmapped => 4,
            Unfit::Overlap => 5,
        }
    }

    /// What it is called.
    pub fn name(self) -> &'static str
        ensures { result.now ≡ unfit_name self }
    {
        match self {
            Unfit::TooMany => "TooMany",
            Unfit::Empty => "Empty",
            Unfit::TooLong => "TooLong",
            Unfit::Unmapped => "Unmapped",
            Unfit::Overlap => "Overlap",
        }
    }
}
