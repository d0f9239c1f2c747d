//! Whether the clauses of a log are fresh.

ghost use Rattle.std.specs.Prelude.{◌≡◌, IfOk};
ghost use Rattle.cnf_form.specs.Refutations.{is_fresh};

use crate::checker::Checker;
use cnf_form::{Cnf, Log};
use std::alloc::{AllocError as NoMemory, Global};

/// Whether no clause of the log is a superset of a clause of the formula or of an earlier one of the log.
pub fn fresh(alloc: Global, formula: &Cnf, log: &Log) -> Result<bool, NoMemory>
    ensures { IfOk result (λ yes. yes ≡ is_fresh formula.now log.now) }
{
    let mut checker = Checker::new(alloc, formula)?;
    for step in log.steps() {
        if !checker.is_new(step.clause())? {
            return Ok(false);
        }
        checker.note(step.clause().literals())?;
    }
    Ok(true)
}
