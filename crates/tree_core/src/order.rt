//! The order in which free nodes are claimed.

/// Which free node a claim takes.
///
/// `Deepest`: the one that most choices lead to, and of several the one of the least number. `Oldest`: the one of the least number.
/// `Mixed`: one that is drawn by the number of events so far.
#[derive(Clone, Copy, Debug, PartialEq, Eq)]
pub enum Order {
    Deepest,
    Oldest,
    Mixed,
}
