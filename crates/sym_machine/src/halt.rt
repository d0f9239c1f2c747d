//! Why an instruction isn't carried out.

ghost use Rattle.std.specs.Prelude.{◌≡◌};
ghost use Rattle.sym_machine.specs.declared.halt.Halt.TheVariants.{NoMemory};

use std::alloc::AllocError;

/// Why an instruction isn't carried out. The places are those of the step's decisions.
#[derive(Clone, Copy, Debug, PartialEq, Eq)]
pub enum Halt {
    /// Whether a conditional branch is taken has to be known: whether this term of one bit is 1.
    Side(usize),
    /// The number that a term of 32 bits is has to be known.
    Number { place: usize, term: usize },
    NoMemory,
}

impl From<AllocError> for Halt {
    ghost from_gives = { λ _ halt. halt ≡ NoMemory };

    fn from(_: AllocError) -> Halt {
        Halt::NoMemory
    }
}
