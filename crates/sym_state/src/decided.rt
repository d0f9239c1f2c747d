//! What is known of a decision.

/// What a step decides, where it is known.
#[derive(Clone, Copy, Debug, PartialEq, Eq)]
pub enum Decided {
    /// The side of a conditional branch: whether it is taken.
    Side(bool),
    /// A number that the step needs.
    Number(u32),
}
