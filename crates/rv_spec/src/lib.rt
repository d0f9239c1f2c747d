//! The machine under test: RV32IM, one assignment of the input bytes at a time.
//!
//! It has no code but laws. Its definitions stand in `specs/`: `Arithmetic` has what the instructions compute, `Memory` the
//! pages and the input bytes, `Machine` one step by cases on the instruction, and `Runs` runs.
#![tactic(auto)]

pub mod laws;
