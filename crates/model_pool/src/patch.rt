//! The input bytes on which a question was met, to be tried in other samples.

ghost use Rattle.std.specs.Prelude.{◌≡◌, IfOk, length};

use bv_dag::{Node, Query};
use byte_list::Bytes;
use std::alloc::{AllocError as NoMemory, Global};

// An input byte and its place.
#[derive(Clone, Copy, Debug)]
struct PlacedByte {
    place: usize,
    byte: u8,
}

/// The input bytes that a question's graph names, as they met the question, and the question's digest.
#[derive(Debug)]
pub struct Patch {
    digest: u64,
    bytes: Vec<PlacedByte>,
}

impl Drop for Patch {
    fn drop(self) {
        let Self {
            digest: _digest,
            bytes: _bytes,
        } = self;
    }
}

/// For each input byte whether a question's graph names it.
pub(crate) fn named_inputs(alloc: Global, query: &Query) -> Result<Vec<bool>, NoMemory> {
    let mut named = vec![in alloc; false; query.inputs()]?;
    for node in query.dag().nodes() {
        if let Node::Input(place) = *node {
            if place < named.len() {
                named[place] = true;
            }
        }
    }
    Ok(named)
}

impl Patch {
    /// The bytes of an answer to a question with this digest.
    pub(crate) fn of(
        alloc: Global,
        query: &Query,
        digest: u64,
        answer: &[u8],
    ) -> Result<Patch, NoMemory> {
        let mut bytes = Vec::new(alloc);
        for node in query.dag().nodes() {
            if let Node::Input(place) = *node {
                if place < answer.len() {
                    let byte = answer[place];
                    bytes.push(PlacedByte { place, byte })?;
                }
            }
        }
        Ok(Patch { digest, bytes })
    }

    /// Whether its question has this digest.
    pub(crate) fn answers(&self, digest: u64) -> bool {
        self.digest == digest
    }

    /// Whether it has one of the input bytes that are named.
    pub(crate) fn touches(&self, named: &[bool]) -> bool {
        for placed in &self.bytes {
            if placed.place < named.len() && named[placed.place] {
                return true;
            }
        }
        false
    }

    /// The sample, with these bytes in their places.
    pub(crate) fn put_into(&self, alloc: Global, sample: &[u8]) -> Result<Bytes, NoMemory>
        ensures { IfOk result (λ bytes. length bytes ≡ length sample.now) }
    {
        let mut bytes = Vec::from_slice(alloc, sample)?;
        for placed in &self.bytes {
            if placed.place < bytes.len() {
                bytes[placed.place] = placed.byte;
            }
        }
        Ok(Bytes::from_vec(bytes))
    }
}
