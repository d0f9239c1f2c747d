//! The lines that more than one text has: the sides of a split, a value that was found, and a clause that was learnt.
#![tactic(auto)]

mod clause;
mod found;
mod sides;

pub use clause::write_learnt_line;
pub use found::found_line;
pub use sides::write_side;
