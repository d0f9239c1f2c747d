//! Answers that workers share: bytes that met a question of late often meet the next one, put into the sample that meets the rest.
//!
//! - `patch`: the bytes of an answer, and how they are put into a sample
//! - `scanning`: a sample that meets a condition, among those that an iterator gives
//! - `wanted`: which answers are tried
//! - `pool`: the answers that workers share
#![tactic(auto)]

mod patch;
mod pool;
mod scanning;
mod wanted;

pub use pool::{BLOCK_SIZE, MOST_BLOCKS, Pool, TRIED_BLOCKS};
pub use scanning::scan;
