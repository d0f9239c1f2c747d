//! The sides of a fork: the runs that a run parts into where a branch may go both ways, or where a term has to be a number.
//!
//! - `branch`: the two sides of a branch
//! - `pin`: the side on which a term has a value
//! - `narrow`: what both do to a run
#![tactic(auto)]

mod branch;
mod narrow;
mod pin;

pub use branch::{SIDE, Tested, choice_of, take_side, with_test};
pub use pin::{Pin, value_side};
