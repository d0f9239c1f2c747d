//! What several texts share: the digits of numbers, budgets, choices and paths, the words for kinds and ends of leaves, and the readers
//! of such pieces.
#![tactic(auto)]

mod digits;
mod names;
mod numbered;

pub use digits::{has_leading_zero, hex_number};
pub use names::{cause_name, write_choice, write_choices, write_path};
pub use numbered::{push_closed, push_numbered};
