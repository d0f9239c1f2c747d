//! Clauses in their order, filed by their last literals.

ghost use Rattle.std.specs.Prelude.{◌≡◌, ◌++◌, ◌∷◌, [], true, OnOk, OnErr, slice_get};
ghost use Rattle.cnf_form.specs.Clauses.{are_increasing};
ghost use Rattle.cnf_form.specs.Propagation.{hint_is_falsified};
ghost use Rattle.proof_check.specs.Marking.{marked};
ghost use Rattle.proof_check.specs.Filing.{keys_of, has_falsified, has_falsified_end, AreFiled};

use crate::checking::is_falsified;
use crate::index::{Index, clause_key, literal_key};
use crate::marks::Marks;
use cnf_form::{Clauses, Lit};
use std::alloc::{AllocError as NoMemory, Global};
use std::marker::Model;

fn is_falsified_at(marks: &Marks, clauses: &Clauses, place: usize) -> bool
    ensures { result ≡ hint_is_falsified (marked marks.now) (slice_get clauses.now place) }
{
    match clauses.get(place) {
        Some(clause) => is_falsified(marks, clause),
        None => false,
    }
}

// Whether one of the clauses of this key is false.
fn has_falsified(marks: &Marks, clauses: &Clauses, index: &Index, key: usize) -> bool
    requires { AreFiled (keys_of clauses.now) index.now }
    ensures { result ≡ has_falsified (marked marks.now) clauses.now key }
{
    let mut number = index.last(key);
    while number > 0 {
        let place = number - 1;
        if is_falsified_at(marks, clauses, place) {
            return true;
        }
        number = index.before(place);
    }
    false
}

/// Clauses that are found by their keys.
#[derive(Debug)]
pub struct FiledClauses {
    clauses: Clauses,
    index: Index,
}

impl Drop for FiledClauses {
    fn drop(self) {
        let Self {
            clauses: _clauses,
            index: _index,
        } = self;
    }
}

impl Model for FiledClauses {
    ghost use Rattle.std.specs.Prelude.{List};
    ghost use Rattle.cnf_form.specs.Literals.{Literal};
    ghost use Rattle.proof_check.specs.Filing.{keys_of, AreFiled};

    ghost Value = { List (List Literal) };

    ghost view = { λ c. c.clauses };

    ghost invariant = { λ c. AreFiled (keys_of c.clauses) c.index };
}

impl FiledClauses {
    /// No clauses.
    pub fn new(alloc: Global) -> FiledClauses
        ensures { result ≡ [] }
    {
        FiledClauses {
            clauses: Clauses::new(alloc),
            index: Index::new(alloc),
        }
    }

    pub fn clauses(&self) -> &Clauses
        ensures { result.now ≡ self.now }
    {
        &self.clauses
    }

    /// Puts the clause of these literals, which are in the order of their variables, behind the others.
    pub fn push(&mut self, literals: &[Lit]) -> Result<(), NoMemory>
        requires { are_increasing literals.now ≡ true }
        ensures ok { OnOk result (self.new ≡ self.old ++ literals.now ∷ []) }
        ensures err { OnErr result (self.new ≡ self.old) }
    {
        let count = self.clauses.len();
        self.clauses.push_literals(literals)?;
        let filed = self.index.push(clause_key(literals));
        if filed.is_err() {
            self.clauses.truncate(count);
        }
        filed
    }

    /// Whether one of the clauses of this key is false.
    pub(crate) fn has_falsified(&self, marks: &Marks, key: usize) -> bool
        ensures { result ≡ has_falsified (marked marks.now) self.now key }
    {
        has_falsified(marks, &self.clauses, &self.index, key)
    }
}

/// Whether a clause is false that ends in one of these literals.
pub(crate) fn has_falsified_end(marks: &Marks, clauses: &FiledClauses, literals: &[Lit]) -> bool
    ensures { result ≡ has_falsified_end (marked marks.now) clauses.now literals.now }
{
    literals
        .iter()
        .any(|l| clauses.has_falsified(marks, literal_key(*l)))
}
