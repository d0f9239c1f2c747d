//! What the text of a term begins with.

use bv_dag::{BinaryOp, Comparison};

/// What the first word of a term's text says of it.
#[derive(Clone, Copy, Debug, PartialEq, Eq)]
pub enum Head {
    Num,
    Input,
    Not,
    Neg,
    Binary(BinaryOp),
    /// A test with a name of its own.
    Test(Comparison),
    /// The test of whether two terms are equal, or a choice, whose condition is the test of whether a term is 1.
    Equal,
    Extract,
    /// With the sign, or with zeros.
    Extend(bool),
    Concat,
}
