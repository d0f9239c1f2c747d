//! Whether steps may come next, one after the other. A clause is a subset of another just where it is false once each
//! literal of the other is. Then its last literal is one of the other's, and so only the clauses are looked at that end in
//! one of those literals, each up to its first literal that isn't false.

ghost use Rattle.std.specs.Prelude.{◌≡◌, ◌++◌, ◌∷◌, [], ◌&&◌, true, IfOk, OnOk, OnErr};
ghost use Rattle.cnf_form.specs.Clauses.{are_increasing};
ghost use Rattle.cnf_form.specs.Propagation.{follows};
ghost use Rattle.cnf_form.specs.Refutations.{is_new};

use crate::checking::{falsify, follows};
use crate::filed::{FiledClauses, has_falsified_end};
use crate::index::EMPTY;
use crate::marks::Marks;
use cnf_form::{Clause, Clauses, Cnf, Lit, LogStep};
use std::alloc::{AllocError as NoMemory, Global};
use std::marker::Model;

/// Clauses in their order, to which others may be added that follow and are new.
#[derive(Debug)]
pub struct Checker {
    clauses: FiledClauses,
    marks: Marks,
}

impl Drop for Checker {
    fn drop(self) {
        let Self {
            clauses: _clauses,
            marks: _marks,
        } = self;
    }
}

impl Model for Checker {
    ghost use Rattle.std.specs.Prelude.{List};
    ghost use Rattle.cnf_form.specs.Literals.{Literal};

    ghost Value = { List (List Literal) };

    ghost view = { λ c. c.clauses };
}

impl Checker {
    /// No clauses.
    pub fn empty(alloc: Global) -> Checker
        ensures { result ≡ [] }
    {
        Checker {
            clauses: FiledClauses::new(alloc),
            marks: Marks::new(alloc),
        }
    }

    /// The clauses of a formula.
    pub fn new(alloc: Global, formula: &Cnf) -> Result<Checker, NoMemory>
        ensures { IfOk result (λ c. c ≡ formula.now) }
    {
        let mut checker = Checker::empty(alloc);
        let clauses = formula.clauses();
        for place in 0..clauses.len() {
            checker.note(clauses.at(place))?;
        }
        Ok(checker)
    }

    pub fn clauses(&self) -> &Clauses
        ensures { result.now ≡ self.now }
    {
        self.clauses.clauses()
    }

    /// Puts the clause of these literals, which are in the order of their variables, behind the others.
    pub fn note(&mut self, literals: &[Lit]) -> Result<(), NoMemory>
        requires { are_increasing literals.now ≡ true }
        ensures ok { OnOk result (self.new ≡ self.old ++ literals.now ∷ []) }
        ensures err { OnErr result (self.new ≡ self.old) }
    {
        self.clauses.push(literals)
    }

    /// Whether none of the clauses is a subset of this one.
    pub fn is_new(&mut self, clause: &Clause) -> Result<bool, NoMemory>
        ensures answer { IfOk result (λ yes. yes ≡ is_new self.old clause.now) }
        ensures same { self.new ≡ self.old }
    {
        let literals = clause.literals();
        falsify(&mut self.marks, literals)?;
        Ok(
            !self.clauses.has_falsified(&self.marks, EMPTY)
                && !has_falsified_end(&self.marks, &self.clauses, literals),
        )
    }

    /// Whether the step's clause follows by its hints from the clauses.
    pub fn follows(&mut self, step: &LogStep) -> Result<bool, NoMemory>
        ensures answer { IfOk result (λ yes. yes ≡ follows self.old step.now.clause step.now.hints) }
        ensures same { self.new ≡ self.old }
    {
        follows(&mut self.marks, self.clauses.clauses(), &[], step)
    }

    /// Whether the step's clause follows by its hints from the clauses, and is a superset of none of them.
    pub fn may_come_next(&mut self, step: &LogStep) -> Result<bool, NoMemory>
        ensures answer { IfOk result (λ yes. yes
            ≡ (follows self.old step.now.clause step.now.hints
            && is_new self.old step.now.clause)) }
        ensures same { self.new ≡ self.old }
    {
        if !self.follows(step)? {
            return Ok(false);
        }
        self.is_new(step.clause())
    }
}
