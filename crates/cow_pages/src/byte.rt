//! Bytes of symbolic memory.

/// A byte of memory.
#[derive(Clone, Copy, Debug, PartialEq, Eq)]
pub enum Byte {
    /// It is known.
    Number(u8),
    /// It is what the term at this place is worth, a term of 8 bits.
    Term(usize),
}
