//! A query with the fingerprints of what it asserts.

ghost use Rattle.std.specs.Prelude.{◌≡◌, ◌↔◌, false, Contains, IfOk, IsTrue};
ghost use Rattle.query_cache.specs.Fingerprints.{prints_of};

use crate::fingerprints::{bit_of, bits_of, digest_of, prints_of};
use bv_dag::Query;
use query_pick::asks_no_more;
use std::alloc::{AllocError as NoMemory, Global};
use std::hash::{Hash, Hasher};
use std::marker::Model;

/// A query, with fingerprints by which most queries are told from it at once.
#[derive(Debug)]
pub struct Fingerprinted {
    query: Query,
    prints: Vec<u64>,
    bits: u64,
    digest: u64,
}

impl Drop for Fingerprinted {
    fn drop(self) {
        let Self {
            query: _query,
            prints: _prints,
            bits: _bits,
            digest: _digest,
        } = self;
    }
}

impl Model for Fingerprinted {
    ghost use Rattle.bv_dag.specs.Queries.{Condition};
    ghost use Rattle.query_cache.specs.Fingerprints.{AreFingerprints};

    ghost Value = { Condition };

    ghost view = { λ f. f.query };

    ghost invariant = { λ f. AreFingerprints f.query f.prints.items f.bits f.digest };
}

impl Fingerprinted {
    ghost use Rattle.query_cache.specs.Fingerprints.{digest_of};
    ghost use Rattle.term_trees.specs.Subsets.{AsksNoMore};

    /// It costs one walk over the query's terms.
    pub fn new(alloc: Global, query: Query) -> Result<Fingerprinted, NoMemory>
        ensures { IfOk result (λ f. f ≡ query) }
    {
        let prints = prints_of(alloc, &query)?;
        let bits = bits_of(&prints);
        let digest = digest_of(&prints);
        Ok(Fingerprinted {
            query,
            prints,
            bits,
            digest,
        })
    }

    /// An equal copy.
    pub fn copy(&self) -> Result<Fingerprinted, NoMemory>
        ensures { IfOk result (λ f. f ≡ self.now) }
    {
        let query = self.query.clone()?;
        let prints = self.prints.clone()?;
        Ok(Fingerprinted {
            query,
            prints,
            bits: self.bits,
            digest: self.digest,
        })
    }

    pub fn query(&self) -> &Query
        ensures { result.now ≡ self.now }
    {
        &self.query
    }

    /// The fingerprints of what it asserts, in one.
    pub fn digest(&self) -> u64
        ensures { result ≡ digest_of (prints_of self.now) }
    {
        self.digest
    }

    pub fn into_query(self) -> Query
        ensures { result ≡ self }
    {
        let Self {
            query,
            prints: _prints,
            bits: _bits,
            digest: _digest,
        } = self;
        query
    }

    // Whether this is the fingerprint of an assertion.
    fn has_print(&self, print: u64) -> bool
        ensures { IsTrue result ↔ Contains (prints_of self.now) print }
    {
        let bit = bit_of(print);
        self.bits & bit == bit && self.prints.contains(&print)
    }

    // Whether the fingerprint of the last assertion is one of the other query's. It is the one that mostly makes a difference.
    fn may_have_last(&self, other: &Fingerprinted) -> bool
        ensures { result ≡ false → AsksNoMore self.now other.now → ⊥ }
    {
        match self.prints.last() {
            Some(last) => other.has_print(*last),
            None => true,
        }
    }

    // Whether each fingerprint of this query is one of the other's.
    fn may_ask_no_more(&self, other: &Fingerprinted) -> bool
        ensures { result ≡ false → AsksNoMore self.now other.now → ⊥ }
    {
        for print in &self.prints {
            if !other.has_print(*print) {
                return false;
            }
        }
        true
    }

    /// Whether this query asks no more than the other one.
    pub(crate) fn asks_no_more(
        &self,
        alloc: Global,
        other: &Fingerprinted,
    ) -> Result<bool, NoMemory>
        ensures { IfOk result (λ yes. IsTrue yes ↔ AsksNoMore self.now other.now) }
    {
        if !self.may_have_last(other) || !self.may_ask_no_more(other) {
            return Ok(false);
        }
        asks_no_more(alloc, &self.query, &other.query)
    }
}

impl PartialEq for Fingerprinted {
    ghost use Rattle.std.proofs.Common.{rules};
    ghost use Rattle.std.specs.Cmp.Rules.{comparing};
    ghost use Rattle.bv_dag.specs.Comparing.{condition_eq};
    ghost use Rattle.bv_dag.specs.contracts.query.QueryEq.TheImpl.Laws.{laws-law as equivalence};

    ghost eq = { condition_eq };

    ghost laws = { Prim.search (comparing, rules, equivalence) };

    fn eq(&self, other: &Fingerprinted) -> bool {
        self.query == other.query
    }
}

impl Eq for Fingerprinted {
    ghost use Rattle.std.proofs.Common.{rules};
    ghost use Rattle.std.specs.Cmp.Rules.{comparing};
    ghost use Rattle.bv_dag.specs.contracts.query.QueryEq.TheImpl.Laws.{laws-law as equivalence};

    ghost laws = { Prim.search (comparing, rules, equivalence) };
}

impl Hash for Fingerprinted {
    ghost use Rattle.query_cache.specs.Fingerprints.{condition_print, condition_print-alike};

    ghost hash_input = { condition_print };

    ghost respects_eq = { condition_print-alike };

    fn hash<H: Hasher>(&self, state: &mut H) {
        self.digest.hash(state);
    }
}
