//! Terms over bit-vectors, each built of earlier ones, and what they are worth.
#![tactic(auto)]

mod evaluation;
mod graph;
pub mod laws;
mod nodes;
mod query;
mod table;
mod words;

pub use graph::Dag;
pub use nodes::{BinaryOp, Comparison, Node, Widths};
pub use query::Query;
pub use table::Table;
pub use words::Word;
