//! Tests of a program, as JSON files: an assignment of the input bytes, and what the run of it does.
#![tactic(auto)]

mod digits;
mod fields;
mod filled;
mod format;
mod forms;
mod inputs;
pub mod laws;
mod parts;
mod path_form;
mod places;
mod reading;
mod refused;
mod said;
mod test;
mod test_error;
mod upgrading;
mod writing;

pub use parts::{end_text, region_list};
pub use reading::read_test;
pub use refused::TestRefused;
pub use test::Test;
pub use test_error::TestError;
pub use upgrading::upgrade_test;
pub use writing::write_test;
