//! The lines of clauses that were learnt.

ghost use Rattle.std.specs.Prelude.{◌≡◌, IfOk};

use cnf_form::LogStep;
use std::alloc::{AllocError as NoMemory, Global};
use std::marker::Model;

/// A clause that was learnt, and the numbers of the clauses by which it follows.
#[derive(Debug, Drop)]
pub struct LearntClause {
    step: Box<LogStep>,
}

impl Model for LearntClause {
    ghost use Rattle.cnf_form.specs.Refutations.{Step};

    ghost Value = { Step };

    ghost view = { λ c. c.step.value };
}

impl LearntClause {
    pub fn new(alloc: Global, step: LogStep) -> Result<LearntClause, NoMemory>
        ensures { IfOk result (λ learnt. learnt ≡ step) }
    {
        Ok(LearntClause {
            step: Box::new(alloc, step)?,
        })
    }

    /// The step of a log that it is.
    pub fn step(&self) -> &LogStep
        ensures { result.now ≡ self.now }
    {
        &self.step
    }
}
