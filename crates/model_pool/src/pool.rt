//! The answers that workers share: the newest of those that were offered, one for each question.

ghost use Rattle.std.specs.Prelude.{◌≡◌, true, IfOk, IfSome};
ghost use Rattle.bv_dag.specs.Queries.{holds};

use crate::patch::{Patch, named_inputs};
use crate::scanning::scan;
use crate::wanted::Wanted;
use boxcar::Vec as Block;
use bv_dag::Query;
use byte_list::Bytes;
use std::alloc::{AllocError as NoMemory, Global};
use std::sync::{Arc, Mutex, Wait};

/// A block takes so many answers.
pub const BLOCK_SIZE: usize = 64;

/// A pool keeps so many blocks, of which the newest takes answers. The oldest goes where there is one too many.
pub const MOST_BLOCKS: usize = 16;

/// The answers of so many blocks, the newest, are tried on any question, and those of the others on their own alone.
pub const TRIED_BLOCKS: usize = 2;

// A block, and the digests of the questions that it has answers to, apart from these since they are compared under the lock.
struct KeptBlock {
    block: Arc<Block<Patch>>,
    digests: Vec<u64>,
}

impl Drop for KeptBlock {
    fn drop(self) {
        let Self {
            block: _block,
            digests: _digests,
        } = self;
    }
}

impl KeptBlock {
    // A block with no answers yet.
    fn new(alloc: Global) -> Result<KeptBlock, NoMemory> {
        let digests = Vec::with_capacity(alloc, BLOCK_SIZE)?;
        let block = Arc::new(alloc, Block::new(alloc)?)?;
        Ok(KeptBlock { block, digests })
    }

    // Whether it takes no more answers.
    fn is_full(&self) -> bool {
        self.digests.len() >= BLOCK_SIZE
    }

    // Whether it has an answer to a question with this digest.
    fn has_answer(&self, digest: u64) -> bool {
        self.digests.contains(&digest)
    }

    // Takes an answer to a question with this digest.
    fn push(&mut self, rt: &impl Wait, digest: u64, patch: Patch) -> Result<(), NoMemory> {
        if self.block.push(rt, patch).is_ok() {
            self.digests.push(digest)?;
        }
        Ok(())
    }
}

/// Answers that threads offer and try, each behind a `&`. Where one to the same question is kept, as its digest tells, another is
/// left out: else a question that is decided often would push out the answers to others. The lock is held only while digests are
/// compared and one is put into the newest block, or while the blocks are shared out: nothing is tried under it.
pub struct Pool {
    blocks: Mutex<Vec<KeptBlock>>,
}

impl Drop for Pool {
    fn drop(self) {
        let Self { blocks: _blocks } = self;
    }
}

// Makes room for one more answer, where the newest block is full or there is none.
fn make_room(alloc: Global, blocks: &mut Vec<KeptBlock>) -> Result<(), NoMemory> {
    if blocks.last().is_some_and(|newest| !newest.is_full()) {
        return Ok(());
    }
    let block = KeptBlock::new(alloc)?;
    if blocks.len() >= MOST_BLOCKS {
        drop(blocks.remove(0));
    }
    blocks.push(block)?;
    Ok(())
}

// The sample with the bytes of each answer of a block that is wanted, the oldest first.
fn tries(
    alloc: Global,
    block: &Block<Patch>,
    wanted: &Wanted,
    sample: &[u8],
) -> Result<Vec<Bytes>, NoMemory> {
    let mut all = Vec::new(alloc);
    for (_, patch) in block.iter() {
        if wanted.takes(patch) {
            all.push(patch.put_into(alloc, sample)?)?;
        }
    }
    Ok(all)
}

// The newest blocks, so many at most.
fn newest(blocks: &[Arc<Block<Patch>>], most: usize) -> &[Arc<Block<Patch>>] {
    &blocks[blocks.len().saturating_sub(most)..]
}

// Bytes that meet the condition: the sample with those of a wanted answer in their places. The newest is tried first.
fn first_met(
    alloc: Global,
    blocks: &[Arc<Block<Patch>>],
    wanted: &Wanted,
    query: &Query,
    sample: &Bytes,
) -> Result<Option<Bytes>, NoMemory>
    ensures { IfOk result (λ found. IfSome found (λ sample. holds query.now sample ≡ true)) }
{
    for block in blocks.iter().rev() {
        let tries = tries(alloc, block, wanted, sample.as_slice())?;
        let found = scan(alloc, tries.iter().rev(), query)?;
        if found.is_some() {
            return Ok(found);
        }
    }
    Ok(None)
}

impl Pool {
    /// A pool with no answers yet.
    pub fn new(alloc: Global) -> Result<Pool, NoMemory> {
        Ok(Pool {
            blocks: Mutex::new(Vec::with_capacity(alloc, MOST_BLOCKS)?),
        })
    }

    // Puts an answer to a question with this digest into the newest block, unless one to it is kept.
    fn put(
        &self,
        rt: &impl Wait,
        alloc: Global,
        digest: u64,
        patch: Patch,
    ) -> Result<(), NoMemory> {
        let mut blocks = self.blocks.lock(rt);
        if blocks.iter().any(|kept| kept.has_answer(digest)) {
            return Ok(());
        }
        make_room(alloc, &mut blocks)?;
        match blocks.last_mut() {
            Some(newest) => newest.push(rt, digest, patch),
            None => Ok(()),
        }
    }

    /// Puts the bytes that meet a question with this digest into the pool, or lets them go where an answer to it is kept, or there
    /// is no memory. Nothing is said of what a pool keeps: whoever finds bytes there tests them.
    pub fn offer(&self, rt: &impl Wait, alloc: Global, query: &Query, digest: u64, answer: &Bytes) {
        if let Ok(patch) = Patch::of(alloc, query, digest, answer.as_slice()) {
            let _ = self.put(rt, alloc, digest, patch);
        }
    }

    // The blocks as they are now, shared.
    fn shared_blocks(
        &self,
        rt: &impl Wait,
        alloc: Global,
    ) -> Result<Vec<Arc<Block<Patch>>>, NoMemory> {
        let blocks = self.blocks.lock(rt);
        let mut shared = Vec::with_capacity(alloc, blocks.len())?;
        for kept in blocks.iter() {
            shared.push(Arc::try_clone(&kept.block)?)?;
        }
        Ok(shared)
    }

    /// Bytes that meet a condition with this digest: the sample with those of an answer of the pool in their places. The one to the
    /// same question is tried first, and then the newest that share input bytes with it.
    pub fn find(
        &self,
        rt: &impl Wait,
        alloc: Global,
        query: &Query,
        digest: u64,
        sample: &Bytes,
    ) -> Result<Option<Bytes>, NoMemory>
        ensures { IfOk result (λ found. IfSome found (λ sample. holds query.now sample ≡ true)) }
    {
        let blocks = self.shared_blocks(rt, alloc)?;
        let again = first_met(alloc, &blocks, &Wanted::Same(digest), query, sample)?;
        if again.is_some() {
            return Ok(again);
        }
        let tried = newest(&blocks, TRIED_BLOCKS);
        let sharing = Wanted::Sharing(named_inputs(alloc, query)?);
        first_met(alloc, tried, &sharing, query, sample)
    }
}
