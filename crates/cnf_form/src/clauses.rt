//! Clauses one after the other: the literals of all stand in one list, and each clause goes up to its end.

ghost use Rattle.std.specs.Prelude.{◌≡◌, ◌≤◌, ◌<◌, ◌++◌, ◌∷◌, [], true, length, take, slice_get, slice_index_or, slice_range, option_copied, Some, IfSome, IfOk, OnOk, OnErr};
ghost use Rattle.cnf_form.specs.Clauses.{are_increasing};

use crate::literal::Lit;
use std::alloc::{AllocError as NoMemory, Global};
use std::marker::Model;

/// Clauses, numbered from 1 in their order.
#[derive(Debug)]
pub struct Clauses {
    literals: Vec<Lit>,
    /// For each clause how many literals there are up to its end.
    ends: Vec<usize>,
}

impl Drop for Clauses {
    fn drop(self) {
        let Self {
            literals: _literals,
            ends: _ends,
        } = self;
    }
}

impl Model for Clauses {
    ghost use Rattle.std.specs.Prelude.{List};
    ghost use Rattle.cnf_form.specs.Literals.{Literal};
    ghost use Rattle.cnf_form.specs.Pieces.{clauses_in, AreClauses};

    ghost Value = { List (List Literal) };

    ghost view = { λ c. clauses_in c.literals.items c.ends.items };

    ghost invariant = { λ c. AreClauses c.literals.items c.ends.items };
}

// Where the clause at this place begins.
fn start_of(ends: &[usize], place: usize) -> usize
    requires { place ≤ length ends.now }
    ensures { result ≡ slice_index_or (0 ∷ ends.now) place 0 }
{
    if place == 0 { 0 } else { ends[place - 1] }
}

// The literals from one place to another.
fn part(literals: &[Lit], start: usize, end: usize) -> &[Lit]
    requires rises { start ≤ end }
    requires within { end ≤ length literals.now }
    ensures { result.now ≡ slice_range literals.now start end }
{
    &literals[start..end]
}

impl Clauses {
    /// No clauses.
    pub fn new(alloc: Global) -> Clauses
        ensures { result ≡ [] }
    {
        Clauses {
            literals: Vec::new(alloc),
            ends: Vec::new(alloc),
        }
    }

    /// Puts the clause of these literals, which are in the order of their variables, behind the others.
    pub fn push_literals(&mut self, literals: &[Lit]) -> Result<(), NoMemory>
        requires { are_increasing literals.now ≡ true }
        ensures ok { OnOk result (self.new ≡ self.old ++ literals.now ∷ []) }
        ensures err { OnErr result (self.new ≡ self.old) }
    {
        self.ends.reserve(1)?;
        self.literals.extend_from_slice(literals)?;
        self.ends.push(self.literals.len()).unwrap();
        Ok(())
    }

    /// Keeps the first `len` clauses.
    pub fn truncate(&mut self, len: usize)
        ensures { self.new ≡ take len self.old }
    {
        if len < self.ends.len() {
            let end = start_of(&self.ends, len);
            self.literals.truncate(end);
            self.ends.truncate(len);
        }
    }

    pub fn len(&self) -> usize
        ensures { result ≡ length self.now }
    {
        self.ends.len()
    }

    /// The literals of the clause at this place.
    pub fn at(&self, place: usize) -> &[Lit]
        requires { place < length self.now }
        ensures value { slice_get self.now place ≡ Some result.now }
        ensures in_order { are_increasing result.now ≡ true }
    {
        let start = start_of(&self.ends, place);
        part(&self.literals, start, self.ends[place])
    }

    /// The literals of the clause at this place, if there is one.
    pub fn get(&self, place: usize) -> Option<&[Lit]>
        ensures value { option_copied result ≡ slice_get self.now place }
        ensures in_order { IfSome result (λ c. are_increasing c.now ≡ true) }
    {
        if place < self.len() {
            Some(self.at(place))
        } else {
            None
        }
    }
}
