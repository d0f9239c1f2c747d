//! How a leaf says that its runs end.

use rv_decode::Trap;
use tree_core::Cause;

/// How the runs of a leaf end, or why they were cut.
#[derive(Clone, Copy, Debug, PartialEq, Eq)]
pub enum LeafEnd {
    /// They exit, with the value of the term of this number as their status.
    Exits { status: usize },
    Traps(Trap),
    /// They are still running.
    Cut(Cause),
}
