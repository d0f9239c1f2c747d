//! Questions on input bytes, decided: by trying the 256 values of the one byte that a question rests on (`query_pick`), or
//! by clauses and a search.
//!
//! - `decision`: what is answered
//! - `deciding`: `decide`
#![tactic(auto)]

mod deciding;
mod decision;

pub use deciding::decide;
pub use decision::Decision;
