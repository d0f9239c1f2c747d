//! The ends of a row.

/// Towards the high end of a row, or the low one.
#[derive(Clone, Copy, Debug)]
pub enum Direction {
    Up,
    Down,
}
