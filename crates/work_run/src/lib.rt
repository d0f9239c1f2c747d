//! Any number of workers on one fork tree, which is handed out in turns.
#![tactic(auto)]

mod ended;
mod lent;
mod round;
mod run;
mod stopped;
mod turn;
mod turn_tree;
mod worker;

pub use lent::Lent;
pub use run::explore;
pub use stopped::Stopped;
pub use turn_tree::TurnTree;
pub use worker::work;
