//! Formulas whose solutions are those of conditions on input bytes.
#![tactic(auto)]

mod adders;
mod circuit;
mod encoding;
mod gates;
mod products;
mod query;
mod row;
mod rows;
mod shifts;
mod values;

pub use encoding::Encoding;
pub use query::encode;
