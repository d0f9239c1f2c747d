//! Whether a question can be met.

ghost use Rattle.std.specs.Prelude.{◌≡◌, IfOk};

use byte_list::Bytes;
use std::alloc::{AllocError as NoMemory, Global};

/// Whether some input bytes meet a condition.
#[derive(Debug, Drop)]
pub enum Satisfiability {
    /// These do.
    Sat(Bytes),
    /// None do.
    Unsat,
}

impl Satisfiability {
    /// An equal copy.
    pub fn copy(&self, alloc: Global) -> Result<Satisfiability, NoMemory>
        ensures { IfOk result (λ copied. copied ≡ self.now) }
    {
        match self {
            Satisfiability::Sat(input) => {
                let copied = Bytes::from_slice(alloc, input.as_slice())?;
                Ok(Satisfiability::Sat(copied))
            }
            Satisfiability::Unsat => Ok(Satisfiability::Unsat),
        }
    }
}
