//! How runs end.

use rv_decode::Trap;

/// How all runs that a symbolic run stands for end.
#[derive(Clone, Copy, Debug, PartialEq, Eq)]
pub enum RunEnd {
    /// They exit, with the low byte of x10.
    Exits,
    Traps(Trap),
}
