//! Why a worker stopped.

ghost use Rattle.std.specs.Prelude.{◌≡◌};
ghost use Rattle.work_run.specs.declared.stopped.Stopped.TheVariants.{NoMemory};

use std::alloc::AllocError;

/// Why a worker stopped.
#[derive(Clone, Copy, Debug, PartialEq, Eq)]
pub enum Stopped {
    /// No node was free or held.
    Quiet,
    /// Its gate let it leave.
    Left,
    /// Memory was refused.
    NoMemory,
}

impl From<AllocError> for Stopped {
    ghost from_gives = { λ _ s. s ≡ NoMemory };

    fn from(_error: AllocError) -> Stopped {
        Stopped::NoMemory
    }
}
