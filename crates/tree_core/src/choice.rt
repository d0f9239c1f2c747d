//! The sides of a fork.

/// Which side of a fork a run is on.
///
/// `No` and `Yes`: the branch's condition is 0, or it is 1. `Value(v)`: the term that had to be a number is v.
/// `Rest`: it is none of the values that stand as kids of their own.
#[derive(Clone, Copy, Debug, PartialEq, Eq, PartialOrd, Ord)]
pub enum Choice {
    No,
    Yes,
    Value(u32),
    Rest,
}
