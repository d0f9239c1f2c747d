//! The fork tree's claim protocol: nodes that workers claim and part, finish, cut or release, as a list of events that only grows.
//! The sides of a fork, what an exploration may spend and in which order, and why a leaf is cut.
#![tactic(auto)]

mod budgets;
mod cause;
mod choice;
mod cover;
mod deed;
mod event;
pub mod laws;
mod node;
mod order;
mod refusal;
mod shelves;
mod tree;

pub use budgets::Budgets;
pub use cause::Cause;
pub use choice::Choice;
pub use cover::Cover;
pub use event::{Deed, Event, Kid, Noted};
pub use node::{Node, Origin, Status};
pub use order::Order;
pub use refusal::Refusal;
pub use tree::Core;
