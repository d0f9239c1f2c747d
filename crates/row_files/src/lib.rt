//! Small programs, each a list of words, and their ELF files: for tests, and for a look at the tool.
//!
//! `file` has the file of any list of words, `programs` the programs.
#![tactic(auto)]

mod file;
pub mod programs;

pub use file::row_file;
