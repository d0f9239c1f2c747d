//! What workers share: the questions that were answered, those on which a budget was spent, and answers to try.

ghost use Rattle.std.specs.Prelude.{◌≡◌, true, IfOk, IfSome, length};
ghost use Rattle.bv_dag.specs.Queries.{holds};
ghost use Rattle.circuit_spec.specs.Budgets.{IsSpent};
ghost use Rattle.query_cache.specs.Answers.{IsAnswer};

use crate::spents::{SpentQuestions, copy_of};
use byte_list::Bytes;
use cnf_form::Log;
use model_pool::Pool;
use query_cache::{Cache, Fingerprinted, Satisfiability, Solved};
use std::alloc::{AllocError as NoMemory, Global};
use std::sync::atomic::{AtomicU64, Ordering};
use std::sync::{Mutex, Wait};

/// How many questions were answered by each means.
#[derive(Clone, Copy, Debug, PartialEq, Eq)]
pub struct Counts {
    /// They had been answered before, or others had whose answers serve; or the same budget was spent on them before.
    pub cached: u64,
    /// The run's sample met them, or did so with the bytes of an earlier answer.
    pub sampled: u64,
    /// They had to be decided: by all values of one byte, or by a search, which may have spent its budget.
    pub decided: u64,
    /// Those of the decided whose budget was spent, with no answer.
    pub spent: u64,
}

/// Answers, each true of its question, and the newest ones to try. Threads look through them and add to them behind a `&`.
pub struct Shared {
    answers: Cache,
    spents: Mutex<SpentQuestions>,
    found: Pool,
    cached: AtomicU64,
    sampled: AtomicU64,
    decided: AtomicU64,
    spent: AtomicU64,
}

impl Drop for Shared {
    fn drop(self) {
        let Self {
            answers: _answers,
            spents: _spents,
            found: _found,
            cached: _cached,
            sampled: _sampled,
            decided: _decided,
            spent: _spent,
        } = self;
    }
}

// Counts one more.
fn count(counter: &AtomicU64) {
    counter.fetch_add(1, Ordering::SeqCst);
}

impl Shared {
    /// No answers yet.
    pub fn new(alloc: Global) -> Result<Shared, NoMemory> {
        Ok(Shared {
            answers: Cache::new(alloc)?,
            spents: Mutex::new(SpentQuestions::new(alloc)?),
            found: Pool::new(alloc)?,
            cached: AtomicU64::new(0),
            sampled: AtomicU64::new(0),
            decided: AtomicU64::new(0),
            spent: AtomicU64::new(0),
        })
    }

    /// How many questions were answered so far, by each means.
    pub fn counts(&self) -> Counts {
        Counts {
            cached: self.cached.load(Ordering::SeqCst),
            sampled: self.sampled.load(Ordering::SeqCst),
            decided: self.decided.load(Ordering::SeqCst),
            spent: self.spent.load(Ordering::SeqCst),
        }
    }

    /// A copy of the answer to a question, where it was answered before, or one whose answer serves.
    pub(crate) fn look(
        &self,
        rt: &impl Wait,
        alloc: Global,
        query: &Fingerprinted,
    ) -> Result<Option<Satisfiability>, NoMemory>
        ensures { IfOk result (λ found. IfSome found (IsAnswer query.now)) }
    {
        let found = self.answers.get(rt, alloc, query)?;
        if found.is_some() {
            count(&self.cached);
        }
        Ok(found)
    }

    /// Bytes that meet a question: the sample, or the sample with those of an answer of the pool in their places.
    pub(crate) fn sample(
        &self,
        rt: &impl Wait,
        alloc: Global,
        question: &Fingerprinted,
        sample: &Bytes,
    ) -> Result<Option<Bytes>, NoMemory>
        ensures { IfOk result (λ found. IfSome found (λ input. holds question.now input ≡ true)) }
    {
        let (query, digest) = (question.query(), question.digest());
        if query.holds(alloc, sample.as_slice())? {
            count(&self.sampled);
            return Ok(Some(Bytes::from_slice(alloc, sample.as_slice())?));
        }
        let found = self.found.find(rt, alloc, query, digest, sample)?;
        if found.is_some() {
            count(&self.sampled);
        }
        Ok(found)
    }

    /// What was learnt for a question when this budget was spent on it before.
    pub(crate) fn look_spent(
        &self,
        rt: &impl Wait,
        question: &Fingerprinted,
        budget: u32,
    ) -> Result<Option<Log>, NoMemory>
        ensures { IfOk result (λ found. IfSome found (IsSpent question.now budget)) }
    {
        if self.spent.load(Ordering::SeqCst) == 0 {
            return Ok(None);
        }
        let Some(log) = self.spents.lock(rt).look(question)? else {
            return Ok(None);
        };
        if log.steps().len() != budget as usize {
            return Ok(None);
        }
        count(&self.cached);
        Ok(Some(log))
    }

    /// Counts a question that has to be decided.
    pub(crate) fn count_decided(&self) {
        count(&self.decided);
    }

    // Keeps copies of a question and of what was learnt for it.
    fn keep_copies(
        &self,
        rt: &impl Wait,
        question: &Fingerprinted,
        log: &Log,
    ) -> Result<(), NoMemory>
        requires { IsSpent question.now (length log.now) log.now }
    {
        let question = question.copy()?;
        let log = copy_of(log)?;
        self.spents.lock(rt).keep(question, log)
    }

    /// Counts a question on which the budget was spent, beside counting it as one that has to be decided, and keeps it with what
    /// was learnt for it, unless there is no memory for that.
    pub(crate) fn keep_spent(&self, rt: &impl Wait, question: &Fingerprinted, log: &Log)
        requires { IsSpent question.now (length log.now) log.now }
    {
        count(&self.spent);
        let _ = self.keep_copies(rt, question, log);
    }

    /// Keeps an answer for when its question is asked again, or one that it answers too, unless there is no memory for it.
    pub(crate) fn keep(&self, rt: &impl Wait, solved: Solved) {
        let _ = self.answers.put(rt, solved);
    }

    /// Offers the bytes that meet a question to the pool, unless there is no memory for them.
    pub(crate) fn offer(
        &self,
        rt: &impl Wait,
        alloc: Global,
        question: &Fingerprinted,
        answer: &Bytes,
    ) {
        self.found
            .offer(rt, alloc, question.query(), question.digest(), answer);
    }
}
