//! The points of a worker's turn, and what comes next.

/// A point of a worker's turn.
#[derive(Clone, Copy, Debug, PartialEq, Eq)]
pub enum Point {
    AfterClaim,
    Working,
    BeforeGive,
    AfterGive,
    Idle,
}

/// What a worker does next.
#[derive(Clone, Copy, Debug, PartialEq, Eq)]
pub enum Next {
    Go,
    Leave,
}
