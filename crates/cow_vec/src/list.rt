//! The list.

ghost use Rattle.std.specs.Prelude.{◌≡◌, ◌↔◌, ◌<◌, ◌++◌, ◌∷◌, [], IfOk, IsTrue, OnOk, OnErr, length, slice_get, slice_set, take};

use crate::chunk::CHUNK;
use crate::chunks::Chunks;
use std::alloc::{AllocError as NoMemory, Global};
use std::marker::Model;

/// A list in chunks of 64 that its copies share.
pub struct CowVec<T: Copy> {
    alloc: Global,
    chunks: Chunks<T>,
    len: usize,
}

impl<T: Copy> Drop for CowVec<T> {
    fn drop(self) {
        let Self {
            alloc: _alloc,
            chunks: _chunks,
            len: _len,
        } = self;
    }
}

impl<T: Copy> Model for CowVec<T> {
    ghost use Rattle.std.specs.Prelude.{List, take};
    ghost use Rattle.cow_vec.specs.Chunks.{joined_pieces, IsChunked};

    ghost Value = { List T };

    ghost view = { λ v. take v.len (joined_pieces v.chunks) };

    ghost invariant = { λ v. IsChunked v.chunks v.len };
}

impl<T: Copy> CowVec<T> {
    /// No items yet, and no memory taken.
    pub fn new(alloc: Global) -> CowVec<T>
        ensures { result ≡ [] }
    {
        CowVec {
            alloc,
            chunks: Chunks::new(alloc),
            len: 0,
        }
    }

    pub fn len(&self) -> usize
        ensures { result ≡ length self.now }
    {
        self.len
    }

    pub fn is_empty(&self) -> bool
        ensures { IsTrue result ↔ (length self.now ≡ 0) }
    {
        self.len == 0
    }

    /// The item at a place, if the list has one there.
    pub fn get(&self, i: usize) -> Option<T>
        ensures { result ≡ slice_get self.now i }
    {
        if i >= self.len {
            return None;
        }
        Some(self.chunks.item(i / CHUNK, i % CHUNK))
    }

    /// Puts the value behind the others. It copies the last chunk where another list holds it too.
    pub fn push(&mut self, value: T) -> Result<(), NoMemory>
        ensures ok { OnOk result (self.new ≡ self.old ++ value ∷ []) }
        ensures err { OnErr result (self.new ≡ self.old) }
    {
        let Some(len) = self.len.checked_add(1) else {
            return Err(NoMemory);
        };
        if self.len % CHUNK == 0 {
            self.chunks.push(self.alloc, value)?;
        } else {
            self.chunks
                .push_to(self.alloc, self.len / CHUNK, self.len % CHUNK, value)?;
        }
        self.len = len;
        Ok(())
    }

    /// Puts the value in place of the item at `i`. It copies the item's chunk where another list
    /// holds it too.
    pub fn set(&mut self, i: usize, value: T) -> Result<(), NoMemory>
        requires { i < length self.old }
        ensures ok { OnOk result (self.new ≡ slice_set self.old i value) }
        ensures err { OnErr result (self.new ≡ self.old) }
    {
        self.chunks.set(self.alloc, i / CHUNK, i % CHUNK, value)
    }

    /// Keeps the first `len` items, or all where there are no more. It takes no memory.
    pub fn truncate(&mut self, len: usize)
        ensures { self.new ≡ take len self.old }
    {
        if len < self.len {
            self.chunks.truncate(len.div_ceil(CHUNK));
            self.len = len;
        }
    }

    /// An equal list, which shares the chunks. It takes memory for a table of references alone, and none
    /// where there is one chunk.
    pub fn share(&self) -> Result<CowVec<T>, NoMemory>
        ensures { IfOk result (λ copy. copy ≡ self.now) }
    {
        Ok(CowVec {
            alloc: self.alloc,
            chunks: self.chunks.share(self.alloc)?,
            len: self.len,
        })
    }
}
