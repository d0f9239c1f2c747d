//! The formats of tests.

/// How a test has its regions and its input bytes.
#[derive(Clone, Copy)]
pub(crate) enum Format {
    /// Format 1: the bytes of all regions are one text, beside the list of the regions.
    Joined,
    /// Format 2: each region is an object, with its own bytes.
    Apart,
}
