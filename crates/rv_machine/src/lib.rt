//! The machine under test, one assignment of the input bytes at a time: RV32IM over plain memory.
//!
//! - `arithmetic`: what the instructions compute.
//! - `memory`: the pages of memory.
//! - `hart`: registers, memory and what was written.
//! - `step`: what an instruction leads to.
//! - `transfer`: loads and stores.
//! - `call`: the environment call.
//! - `execute`: each instruction.
//! - `filling`: the input bytes.
//! - `machine`: a run, step by step.
//! - `run`: so many steps of a run.
//! - `laws`: what the definitions say of runs.
#![tactic(auto)]

pub mod arithmetic;
mod call;
mod execute;
mod filling;
mod hart;
pub mod laws;
mod machine;
mod memory;
mod run;
mod step;
mod transfer;

pub use call::{EXIT, MOST_WRITTEN, WRITE, is_file};
pub use hart::STACK_POINTER;
pub use machine::Machine;
pub use memory::{EXECUTE, PAGE, word};
pub use run::Ran;
pub use step::Step;
pub use transfer::{is_load_aligned, is_store_aligned};
