//! Reading the texts of leaves: a text is a leaf's, or is refused at its first line that may not stand.
#![tactic(auto)]

mod cursor;
mod leaf_reader;
mod leaf_reading;
mod lists;
mod take_counts;
mod take_heading;
mod take_terms;
mod term;

pub use cursor::{behind, eight, named, number, one, three};
pub use leaf_reader::{SmtRefused, read_leaf};
pub use lists::take_choice;
pub use take_counts::take_count;
pub use take_terms::{NodeSaid, assertion_said, node_said};
pub use term::take_term;
