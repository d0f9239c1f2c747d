//! A part of the cache, which is held behind a lock of its own.

ghost use Rattle.std.specs.Prelude.{◌≡◌, ◌↔◌, [], IfOk, IsPermutation, IsTrue, OnOk, OnErr};
ghost use Rattle.query_cache.specs.Caches.{Serves};

use crate::fingerprinted::Fingerprinted;
use crate::satisfiability::Satisfiability;
use crate::solved::Solved;
use lru::LruCache;
use std::alloc::{AllocError as NoMemory, Global};
use std::marker::Model;
use std::num::NonZeroUsize;

/// A shard keeps at most so many entries.
pub const MOST_KEPT: usize = 256;

/// Queries with their answers, each of which is true. The one that was used least recently goes where there is one too many.
pub struct Shard {
    answers: LruCache<Fingerprinted, Satisfiability>,
}

impl Drop for Shard {
    fn drop(self) {
        let Self { answers: _answers } = self;
    }
}

impl Model for Shard {
    ghost use Rattle.std.specs.Prelude.{List};
    ghost use Rattle.query_cache.specs.Caches.{KeptAnswers, IsShard};

    ghost Value = { KeptAnswers };

    ghost view = { λ s. s.answers.entries };

    ghost invariant = { λ s. IsShard s.answers };
}

// Whether an entry answers a query.
fn serves(
    alloc: Global,
    kept: &Fingerprinted,
    answer: &Satisfiability,
    asked: &Fingerprinted,
) -> Result<bool, NoMemory>
    ensures { IfOk result (λ yes. IsTrue yes ↔ Serves asked.now (kept.now, answer.now)) }
{
    match answer {
        Satisfiability::Sat(_) => asked.asks_no_more(alloc, kept),
        Satisfiability::Unsat => kept.asks_no_more(alloc, asked),
    }
}

impl Shard {
    ghost use Rattle.query_cache.specs.Caches.{IsFound, IsServing, kept_after};

    /// A shard that keeps no entry yet.
    pub fn new(alloc: Global) -> Result<Shard, NoMemory>
        ensures { IfOk result (λ shard. shard ≡ []) }
    {
        let most = NonZeroUsize::new(MOST_KEPT).unwrap();
        Ok(Shard {
            answers: LruCache::sparse(alloc, most)?,
        })
    }

    /// Keeps an entry, as the one that was used last. It takes the place of one of the same query.
    pub fn keep(&mut self, solved: Solved) -> Result<(), NoMemory>
        ensures ok { OnOk result (self.new ≡ kept_after self.old solved) }
        ensures err { OnErr result (self.new ≡ self.old) }
    {
        let (query, answer) = solved.into_parts();
        drop(self.answers.put(query, answer)?);
        Ok(())
    }

    // Copies of the first entry that answers a query.
    fn first_that_serves(
        &self,
        alloc: Global,
        asked: &Fingerprinted,
    ) -> Result<Option<(Fingerprinted, Satisfiability)>, NoMemory>
        ensures { IfOk result (IsServing self.now asked.now) }
    {
        for (kept, answer) in self.answers.iter() {
            if serves(alloc, kept, answer, asked)? {
                return Ok(Some((kept.copy()?, answer.copy(alloc)?)));
            }
        }
        Ok(None)
    }

    /// The answer to a query, from an entry of that query or of one whose answer serves, which then counts as used last;
    /// or none, where no entry of the shard does.
    pub fn look(
        &mut self,
        alloc: Global,
        asked: &Fingerprinted,
    ) -> Result<Option<Satisfiability>, NoMemory>
        ensures found { IfOk result (IsFound self.old asked.now) }
        ensures same { IsPermutation self.old self.new }
        ensures err { OnErr result (self.new ≡ self.old) }
    {
        if let Some(answer) = self.answers.peek(asked) {
            let copied = answer.copy(alloc)?;
            self.answers.promote(asked);
            return Ok(Some(copied));
        }
        match self.first_that_serves(alloc, asked)? {
            Some((kept, answer)) => {
                self.answers.promote(&kept);
                Ok(Some(answer))
            }
            None => Ok(None),
        }
    }
}
