//! The chunks of a list. The first stands by itself, so that a list of one chunk takes no table.

ghost use Rattle.std.specs.Prelude.{◌≡◌, ◌++◌, ◌∷◌, ◌<◌, ◌≤◌, [], IfOk, OnOk, OnErr, Some, length, slice_get, slice_index_or, slice_set, take};
ghost use Rattle.cow_vec.specs.Chunks.{pieces_of};

use crate::chunk::{chunk_of, push_to, set_in};
use std::alloc::{AllocError as NoMemory, Global};
use std::marker::Model;
use std::sync::Arc;

/// Chunks, each of which copies may share.
pub(crate) struct Chunks<T: Copy> {
    first: Option<Arc<Vec<T>>>,
    rest: Vec<Arc<Vec<T>>>,
}

impl<T: Copy> Drop for Chunks<T> {
    fn drop(self) {
        let Self {
            first: _first,
            rest: _rest,
        } = self;
    }
}

impl<T: Copy> Model for Chunks<T> {
    ghost use Rattle.std.specs.Prelude.{List, ◌++◌};
    ghost use Rattle.cow_vec.specs.Chunks.{IsLed, first_piece, pieces_of};

    ghost Value = { List (List T) };

    ghost view = { λ c. first_piece c.first ++ pieces_of c.rest.items };

    ghost invariant = { λ c. IsLed c.first c.rest.items };
}

// Shares of the chunks, in a table of their own.
fn shared<T: Copy>(alloc: Global, chunks: &[Arc<Vec<T>>]) -> Result<Vec<Arc<Vec<T>>>, NoMemory>
    ensures { IfOk result (λ copy. pieces_of copy.items ≡ pieces_of chunks.now) }
{
    let mut copy = Vec::with_capacity(alloc, chunks.len())?;
    for chunk in chunks {
        copy.push(Arc::try_clone(chunk)?)?;
    }
    Ok(copy)
}

impl<T: Copy> Chunks<T> {
    /// None yet, and no memory taken.
    pub(crate) fn new(alloc: Global) -> Chunks<T>
        ensures { result ≡ [] }
    {
        Chunks {
            first: None,
            rest: Vec::new(alloc),
        }
    }

    /// The item at a place of a chunk.
    pub(crate) fn item(&self, chunk: usize, place: usize) -> T
        requires there { chunk < length self.now }
        requires within { place < length (slice_index_or self.now chunk []) }
        ensures { slice_get (slice_index_or self.now chunk []) place ≡ Some result }
    {
        if chunk > 0 {
            return self.rest[chunk - 1][place];
        }
        match &self.first {
            Some(items) => items[place],
            None => unreachable!(),
        }
    }

    /// Puts a chunk of one item behind the others.
    pub(crate) fn push(&mut self, alloc: Global, value: T) -> Result<(), NoMemory>
        ensures ok { OnOk result (self.new ≡ self.old ++ (value ∷ []) ∷ []) }
        ensures err { OnErr result (self.new ≡ self.old) }
    {
        let chunk = chunk_of(alloc, value)?;
        if self.first.is_some() {
            self.rest.push(chunk)?;
        } else {
            self.first = Some(chunk);
        }
        Ok(())
    }

    /// Puts the value behind the first `len` items of a chunk, in place of those that stood there. It copies the chunk where
    /// another list holds it too.
    pub(crate) fn push_to(
        &mut self,
        alloc: Global,
        chunk: usize,
        len: usize,
        value: T,
    ) -> Result<(), NoMemory>
        requires there { chunk < length self.old }
        requires within { len ≤ length (slice_index_or self.old chunk []) }
        ensures ok { OnOk result (self.new ≡ slice_set self.old chunk
            (take len (slice_index_or self.old chunk []) ++ value ∷ [])) }
        ensures err { OnErr result (self.new ≡ self.old) }
    {
        if chunk > 0 {
            return push_to(alloc, &mut self.rest[chunk - 1], len, value);
        }
        match &mut self.first {
            Some(items) => push_to(alloc, items, len, value),
            None => unreachable!(),
        }
    }

    /// Puts the value in place of the item at a place of a chunk. It copies the chunk where another list holds it too.
    pub(crate) fn set(
        &mut self,
        alloc: Global,
        chunk: usize,
        place: usize,
        value: T,
    ) -> Result<(), NoMemory>
        requires there { chunk < length self.old }
        requires within { place < length (slice_index_or self.old chunk []) }
        ensures ok { OnOk result (self.new ≡ slice_set self.old chunk
            (slice_set (slice_index_or self.old chunk []) place value)) }
        ensures err { OnErr result (self.new ≡ self.old) }
    {
        if chunk > 0 {
            return set_in(alloc, &mut self.rest[chunk - 1], place, value);
        }
        match &mut self.first {
            Some(items) => set_in(alloc, items, place, value),
            None => unreachable!(),
        }
    }

    /// Keeps the first `count` chunks, or all where there are no more. It takes no memory.
    pub(crate) fn truncate(&mut self, count: usize)
        ensures { self.new ≡ take count self.old }
    {
        if count > 0 {
            self.rest.truncate(count - 1);
        } else {
            self.first = None;
            self.rest.clear();
        }
    }

    /// Equal chunks, which both hold.
    pub(crate) fn share(&self, alloc: Global) -> Result<Chunks<T>, NoMemory>
        ensures { IfOk result (λ copy. copy ≡ self.now) }
    {
        let Some(first) = &self.first else {
            return Ok(Chunks::new(alloc));
        };
        Ok(Chunks {
            first: Some(Arc::try_clone(first)?),
            rest: shared(alloc, &self.rest)?,
        })
    }
}
