//! The text of a certificate: a heading and the lines of a walk through a fork tree, printed, and read back or refused at the first
//! line that may not stand.
#![tactic(auto)]

mod heading;
mod items;
mod kind;
mod lists;
mod printing;
mod reading;
mod walk;

pub use printing::{print_cert, print_lines};
pub use reading::{CertRefused, read_cert};
