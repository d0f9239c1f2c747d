//! Logs: clauses, each with hints by which it follows from those before it.

ghost use Rattle.std.specs.Prelude.{◌≡◌, ◌++◌, ◌∷◌, [], All, OnOk, OnErr};
ghost use Rattle.cnf_form.specs.Clauses.{IsClause};

use crate::clause::Clause;
use std::alloc::{AllocError as NoMemory, Global};
use std::marker::Model;
use std::mem;

/// A clause, and the numbers of the clauses that are its hints: those of the formula have the numbers from 1 on, and
/// those of the log the next ones.
#[derive(Clone, Debug)]
pub struct LogStep {
    clause: Clause,
    hints: Vec<usize>,
}

impl Drop for LogStep {
    fn drop(self) {
        let Self {
            clause: _clause,
            hints: _hints,
        } = self;
    }
}

impl Model for LogStep {
    ghost use Rattle.cnf_form.specs.Refutations.{Step};

    ghost Value = { Step };

    ghost view = { λ s. record { clause = s.clause; hints = s.hints.items } };
}

impl LogStep {
    pub fn new(clause: Clause, hints: Vec<usize>) -> LogStep
        ensures { result ≡ record { clause = clause; hints = hints.items } }
    {
        LogStep { clause, hints }
    }

    pub fn clause(&self) -> &Clause
        ensures { result.now ≡ self.now.clause }
    {
        &self.clause
    }

    pub fn hints(&self) -> &[usize]
        ensures { result.now ≡ self.now.hints }
    {
        self.hints.as_slice()
    }
}

/// Steps in their order.
#[derive(Clone, Debug, Drop)]
pub struct Log {
    steps: Vec<LogStep>,
}

impl Model for Log {
    ghost use Rattle.std.specs.Prelude.{All, List};
    ghost use Rattle.cnf_form.specs.Clauses.{IsClause};
    ghost use Rattle.cnf_form.specs.Refutations.{Step};

    ghost Value = { List Step };

    ghost view = { λ l. l.steps.items };

    ghost invariant = { λ l. All (λ s. IsClause s.clause) l.steps.items };
}

impl Log {
    /// No steps.
    pub fn new(alloc: Global) -> Log
        ensures { result ≡ [] }
    {
        Log {
            steps: Vec::new(alloc),
        }
    }

    /// Puts a step behind the others.
    pub fn push(&mut self, step: LogStep) -> Result<(), NoMemory>
        ensures ok { OnOk result (self.new ≡ self.old ++ step ∷ []) }
        ensures err { OnErr result (self.new ≡ self.old) }
    {
        // That it is a clause as texts have it is known of its literals.
        let _ = step.clause().literals();
        self.steps.push(step)?;
        Ok(())
    }

    /// Takes the steps out, so that none is left.
    pub fn take(&mut self, alloc: Global) -> Log
        ensures value { result ≡ self.old }
        ensures left { self.new ≡ [] }
        ensures formed { All (λ s. IsClause s.clause) result }
    {
        Log {
            steps: mem::replace(&mut self.steps, Vec::new(alloc)),
        }
    }

    pub fn steps(&self) -> &[LogStep]
        ensures { result.now ≡ self.now }
    {
        self.steps.as_slice()
    }
}
