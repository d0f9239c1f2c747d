//! Formulas: clauses that are all to be true.

ghost use Rattle.std.specs.Prelude.{◌≡◌, ◌+◌, ◌++◌, ◌∷◌, [], true, OnOk, OnErr};
ghost use Rattle.std.specs.List.{list_all};
ghost use Rattle.cnf_form.specs.Clauses.{are_increasing, clause_of, with_made};
ghost use Rattle.cnf_form.specs.Variables.{greatest_in, greatest_variable, is_below};

use crate::clause::sort_into;
use crate::clauses::Clauses;
use crate::literal::Lit;
use std::alloc::{AllocError as NoMemory, Global};
use std::marker::Model;

/// Clauses, numbered from 1 in their order.
#[derive(Debug)]
pub struct Cnf {
    clauses: Clauses,
    /// The greatest variable, and 0 where there is none.
    variables: u32,
    /// Room in which the literals of a clause are put in order.
    scratch: Vec<Lit>,
}

impl Drop for Cnf {
    fn drop(self) {
        let Self {
            clauses: _clauses,
            variables: _variables,
            scratch: _scratch,
        } = self;
    }
}

impl Model for Cnf {
    ghost use Rattle.std.specs.Prelude.{◌≡◌, List};
    ghost use Rattle.cnf_form.specs.Literals.{Literal};
    ghost use Rattle.cnf_form.specs.Variables.{greatest_variable};

    ghost Value = { List (List Literal) };

    ghost view = { λ f. f.clauses };

    ghost invariant = { λ f. f.variables ≡ greatest_variable f.clauses };
}

// The greatest variable of a clause: that of its last literal.
fn greatest_in(clause: &[Lit]) -> u32
    requires { are_increasing clause.now ≡ true }
    ensures { result ≡ greatest_in clause.now }
{
    match clause.last() {
        Some(literal) => literal.variable(),
        None => 0,
    }
}

impl Cnf {
    /// No clauses.
    pub fn new(alloc: Global) -> Cnf
        ensures { result ≡ [] }
    {
        Cnf {
            clauses: Clauses::new(alloc),
            variables: 0,
            scratch: Vec::new(alloc),
        }
    }

    /// Puts the clause of these literals, each taken once, behind the others, unless it is always true.
    pub fn push(&mut self, literals: &[Lit]) -> Result<(), NoMemory>
        ensures ok { OnOk result (self.new ≡ with_made (clause_of literals.now) self.old) }
        ensures err { OnErr result (self.new ≡ self.old) }
    {
        if sort_into(&mut self.scratch, literals)? {
            self.clauses.push_literals(&self.scratch)?;
            self.variables = self.variables.max(greatest_in(&self.scratch));
        }
        Ok(())
    }

    pub fn clauses(&self) -> &Clauses
        ensures { result.now ≡ self.now }
    {
        &self.clauses
    }

    /// The greatest variable that occurs, and 0 where none does.
    pub fn variables(&self) -> u32
        ensures greatest { result ≡ greatest_variable self.now }
        ensures below { list_all (is_below (result + 1)) self.now ≡ true }
    {
        self.variables
    }
}
