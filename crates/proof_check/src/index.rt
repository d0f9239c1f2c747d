//! Places of clauses by keys, each key with a chain of its own, and the keys of literals and clauses.

ghost use Rattle.std.specs.Prelude.{◌≡◌, ℕ, List, ◌<◌, ◌+◌, ◌-◌, ◌^◌, ◌++◌, ◌∷◌, [], OnOk, OnErr, replicate, vec_len, slice_index_or};
ghost use Rattle.proof_check.specs.Filing.{literal_key, clause_key, AreFiled};

use cnf_form::Lit;
use std::alloc::{AllocError as NoMemory, Global};
use std::marker::Model;

/// The key of the empty clause.
pub const EMPTY: usize = 0;

/// The key of a literal: that of the variable k is 2 k + 1, that of its negation 2 k.
pub(crate) fn literal_key(literal: Lit) -> usize
    ensures key { result ≡ literal_key literal }
    ensures fits { result < 2 ^ 34 }
{
    let even = literal.variable() as usize * 2;
    if literal.is_positive() {
        even + 1
    } else {
        even
    }
}

/// The key of a clause: its last literal's.
pub(crate) fn clause_key(clause: &[Lit]) -> usize
    ensures key { result ≡ clause_key clause.now }
    ensures fits { result < 2 ^ 34 }
{
    match clause.last() {
        Some(literal) => literal_key(*literal),
        None => EMPTY,
    }
}

/// A chain for each key. A place has the next number after its own, and 0 ends a chain.
#[derive(Debug)]
pub struct Index {
    /// The number of the last place under each key.
    lasts: Vec<usize>,
    /// For each place the number of the one before it under the same key.
    earlier: Vec<usize>,
}

impl Drop for Index {
    fn drop(self) {
        let Self {
            lasts: _lasts,
            earlier: _earlier,
        } = self;
    }
}

impl Model for Index {
    ghost use Rattle.proof_check.specs.Filing.{Chains};

    ghost Value = { Chains };

    ghost view = { λ i. record { lasts = i.lasts.items; earlier = i.earlier.items } };
}

// Makes room for this key.
fn reach(lasts: &mut Vec<usize>, key: usize) -> Result<(), NoMemory>
    requires { key < 2 ^ 34 }
    ensures there { OnOk result (key < vec_len lasts.new) }
    ensures items { OnOk result (lasts.new.items
        ≡ lasts.old.items ++ replicate (key + 1 - vec_len lasts.old) 0) }
    ensures err { OnErr result (lasts.new.items ≡ lasts.old.items) }
{
    if lasts.len() <= key {
        lasts.resize(key + 1, 0)?;
    }
    Ok(())
}

impl Index {
    /// No place.
    pub fn new(alloc: Global) -> Index
        ensures { result ≡ record { lasts = []; earlier = [] } }
    {
        Index {
            lasts: Vec::new(alloc),
            earlier: Vec::new(alloc),
        }
    }

    /// Files the next place under a key.
    pub fn push(&mut self, key: usize) -> Result<(), NoMemory>
        requires { key < 2 ^ 34 }
        ensures ok { OnOk result ((keys : List ℕ) → AreFiled keys self.old
            → AreFiled (keys ++ key ∷ []) self.new) }
        ensures err { OnErr result (self.new ≡ self.old) }
    {
        self.earlier.reserve(1)?;
        reach(&mut self.lasts, key)?;
        self.earlier.push(self.lasts[key]).unwrap();
        self.lasts[key] = self.earlier.len();
        Ok(())
    }

    /// The number of the last place under a key, or 0 if there is none.
    pub fn last(&self, key: usize) -> usize
        ensures { result ≡ slice_index_or self.now.lasts key 0 }
    {
        match self.lasts.get(key) {
            Some(number) => *number,
            None => 0,
        }
    }

    /// The number of the place before this one under the same key, or 0 if there is none.
    pub fn before(&self, place: usize) -> usize
        ensures { result ≡ slice_index_or self.now.earlier place 0 }
    {
        match self.earlier.get(place) {
            Some(number) => *number,
            None => 0,
        }
    }
}
