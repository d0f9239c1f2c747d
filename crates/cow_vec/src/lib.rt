//! A list in chunks that its copies share: a copy costs a table of references, and a write copies
//! at most one chunk.
#![tactic(auto)]

mod chunk;
mod chunks;
mod list;

pub use list::CowVec;
