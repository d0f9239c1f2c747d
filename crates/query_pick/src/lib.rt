//! Questions on input bytes, without a search: some terms of a table in a graph of their own, over only what they stand
//! on, and the question that terms of one bit ask; whether one question asks no more than another; and the one input byte
//! that a question rests on, with the trial of its 256 values.
//!
//! - `operands`: the operands of a term, and how it is renumbered
//! - `finding`: the terms under some terms of a table
//! - `picking`: the terms picked, and the question
//! - `shapes`: terms of several graphs, numbered by their trees
//! - `comparing`: whether one query asks no more than another
//! - `occurrence`: which input bytes a question rests on
//! - `one_byte`: trying the values of one byte
#![tactic(auto)]

mod comparing;
mod finding;
mod occurrence;
mod one_byte;
mod operands;
mod picking;
mod shapes;

pub use comparing::asks_no_more;
pub use finding::cone;
pub use occurrence::{Occurrence, occurring};
pub use one_byte::try_byte;
pub use operands::number_of;
pub use picking::{Picked, pick, pick_terms};
