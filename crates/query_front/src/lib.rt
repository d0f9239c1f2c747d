//! Questions: whether a condition and one more term can hold. A question is cut to the part that matters for the term, looked for among those that were answered before, tried on samples, and only then decided.
//!
//! - `asked`: what is answered
//! - `spents`: the questions on which a budget was spent
//! - `shared`: the answers that workers share
//! - `part`: the part of a question that matters
//! - `asking`: `ask`
#![tactic(auto)]

mod asked;
mod asking;
mod part;
mod shared;
mod spents;

pub use asked::Asked;
pub use asking::{ask, ask_part};
pub use part::part_of;
pub use shared::{Counts, Shared};
