//! Answers that threads share.

ghost use Rattle.std.specs.Prelude.{IfOk, IfSome};

use crate::fingerprinted::Fingerprinted;
use crate::satisfiability::Satisfiability;
use crate::shard::Shard;
use crate::solved::Solved;
use std::alloc::{AllocError as NoMemory, Global};
use std::sync::{Mutex, Wait};

/// A cache has so many shards.
pub const SHARDS: usize = 8;

/// KeptAnswers, each in the shard of its number of assertions, so that threads seldom wait for one another.
pub struct Cache {
    shards: [Mutex<Shard>; SHARDS],
}

impl Drop for Cache {
    fn drop(self) {
        let Self { shards: _shards } = self;
    }
}

// A shard behind its lock.
fn locked(alloc: Global) -> Result<Mutex<Shard>, NoMemory> {
    Ok(Mutex::new(Shard::new(alloc)?))
}

impl Cache {
    ghost use Rattle.query_cache.specs.Answers.{IsAnswer};

    /// A cache that keeps no entry yet.
    pub fn new(alloc: Global) -> Result<Cache, NoMemory> {
        Ok(Cache {
            shards: [
                locked(alloc)?,
                locked(alloc)?,
                locked(alloc)?,
                locked(alloc)?,
                locked(alloc)?,
                locked(alloc)?,
                locked(alloc)?,
                locked(alloc)?,
            ],
        })
    }

    /// The answer to a query, from the first shard that has one. None says nothing: a shard that was looked through may have
    /// been given the answer since.
    pub fn get(
        &self,
        rt: &impl Wait,
        alloc: Global,
        asked: &Fingerprinted,
    ) -> Result<Option<Satisfiability>, NoMemory>
        ensures { IfOk result (λ found. IfSome found (IsAnswer asked.now)) }
    {
        for shard in &self.shards {
            let found = shard.lock(rt).look(alloc, asked)?;
            if found.is_some() {
                return Ok(found);
            }
        }
        Ok(None)
    }

    /// Keeps an entry. Others may take its place before the next call, so nothing is said of what is kept.
    pub fn put(&self, rt: &impl Wait, solved: Solved) -> Result<(), NoMemory> {
        let number = solved.query().query().asserted().len() % SHARDS;
        self.shards[number].lock(rt).keep(solved)
    }
}
