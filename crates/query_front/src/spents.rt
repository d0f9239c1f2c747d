//! Questions on which a budget was spent, kept with what was learnt for them: a run that asks the same again, as those below one
//! branch often do, isn't made to spend it again.

ghost use Rattle.std.specs.Prelude.{IfOk, IfSome, OnErr, OnOk, length, ◌≡◌, []};
ghost use Rattle.circuit_spec.specs.Budgets.{IsSpent};

use cnf_form::Log;
use lru::LruCache;
use query_cache::Fingerprinted;
use std::alloc::{AllocError as NoMemory, Global};
use std::marker::Model;
use std::num::NonZeroUsize;

/// So many questions are kept. A log may have some megabytes.
const MOST_SPENT: usize = 64;

/// Questions, each with the clauses that were learnt for it and left it open. The one that was kept first goes where there is one
/// too many.
pub(crate) struct SpentQuestions {
    logs: LruCache<Fingerprinted, Log>,
}

impl Drop for SpentQuestions {
    fn drop(self) {
        let Self { logs: _logs } = self;
    }
}

impl Model for SpentQuestions {
    ghost use Rattle.query_front.specs.Spents.{KeptLogs, AreSpent};

    ghost Value = { KeptLogs };

    ghost view = { λ s. s.logs.entries };

    ghost invariant = { λ s. AreSpent s.logs.entries };
}

// An equal log.
pub(crate) fn copy_of(log: &Log) -> Result<Log, NoMemory>
    ensures { IfOk result (λ copy. copy ≡ log.now) }
{
    log.clone()
}

impl SpentQuestions {
    /// None are kept yet.
    pub(crate) fn new(alloc: Global) -> Result<SpentQuestions, NoMemory>
        ensures { IfOk result (λ s. s ≡ []) }
    {
        let most = NonZeroUsize::new(MOST_SPENT).unwrap();
        Ok(SpentQuestions {
            logs: LruCache::sparse(alloc, most)?,
        })
    }

    /// Keeps a question. It takes the place of the same one.
    pub(crate) fn keep(&mut self, question: Fingerprinted, log: Log) -> Result<(), NoMemory>
        requires { IsSpent question (length log) log }
        ensures err { OnErr result (self.new ≡ self.old) }
    {
        drop(self.logs.put(question, log)?);
        Ok(())
    }

    /// A copy of what was learnt for a question, if it is kept.
    pub(crate) fn look(&self, asked: &Fingerprinted) -> Result<Option<Log>, NoMemory>
        ensures { IfOk result (λ found. IfSome found
            (λ log. IsSpent asked.now (length log) log)) }
    {
        match self.logs.peek(asked) {
            Some(log) => Ok(Some(copy_of(log)?)),
            None => Ok(None),
        }
    }
}
