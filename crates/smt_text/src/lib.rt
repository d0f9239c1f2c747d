//! The texts of leaves and of conditions, in SMT-LIB's logic QF_ABV: how they are written, and how they may be read.
#![tactic(auto)]

mod ending;
mod ends;
mod head;
pub mod laws;
mod leaf;
mod lines;
mod node_text;
mod printing;
mod spot;

pub use ending::Ending;
pub use ends::{end_name, kind_name};
pub use head::Head;
pub use leaf::LeafText;
pub use lines::{write_assert_line, write_input_line, write_node_line};
pub use printing::{print_leaf, print_parts, print_query};
pub use spot::Spot;
