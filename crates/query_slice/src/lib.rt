//! A condition cut to the part that matters for one of its terms: the asserted terms that share input bytes with it,
//! directly or through others; and the answer to that part, merged into bytes that meet the rest.
//!
//! - `classes`: input bytes in classes
//! - `linking`: an input byte under each term, and the classes of those under asserted ones
//! - `slicing`: `slice`
//! - `merging`: `merge`
#![tactic(auto)]

mod classes;
pub mod laws;
mod linking;
mod merging;
mod slicing;

pub use merging::merge;
pub use slicing::slice;
