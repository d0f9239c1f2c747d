//! The formula of a condition on input bytes: the gates, the rows of literals and the circuits that it is made of, and the laws on
//! what they mean. There is no other code here.
#![tactic(auto)]

mod direction;
mod gate;
pub mod laws;

pub use direction::Direction;
pub use gate::Gate;
