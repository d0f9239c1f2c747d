//! What registers of symbolic runs hold, and what tests of them give.

/// A number, or the term of this place, which is 32 bits wide.
#[derive(Clone, Copy, Debug, PartialEq, Eq)]
pub enum Value {
    Number(u32),
    Term(usize),
}

/// Whether something holds, or the term of one bit at this place that is 1 where it does.
#[derive(Clone, Copy, Debug, PartialEq, Eq)]
pub enum Bit {
    Known(bool),
    Term(usize),
}
