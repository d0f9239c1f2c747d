//! Answers to questions on input bytes, kept for when a question is asked again, or one that they answer too.
//!
//! - `satisfiability`: the answers
//! - `fingerprints`: the fingerprints of trees
//! - `fingerprinted`: a query with its fingerprints
//! - `solved`: a query with its answer
//! - `shard`: a part of the cache
//! - `cache`: the shards, each behind a lock
#![tactic(auto)]

mod cache;
mod fingerprinted;
mod fingerprints;
mod satisfiability;
mod shard;
mod solved;

pub use cache::{Cache, SHARDS};
pub use fingerprinted::Fingerprinted;
pub use satisfiability::Satisfiability;
pub use shard::{MOST_KEPT, Shard};
pub use solved::Solved;
