//! A node as an order sees it.

/// A node that may be claimed, or was: how many choices lead to it, and whether it is free.
#[derive(Clone, Copy)]
pub(crate) struct Claimable {
    pub(crate) depth: usize,
    pub(crate) is_free: bool,
}
