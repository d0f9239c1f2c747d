//! The instructions of RV32IM, and the words that they are written as.
#![tactic(auto)]

mod decoder;
mod ends;
mod fields;
mod instr;
mod ops;
mod register;

pub use decoder::decode;
pub use ends::{End, PathStep, Trap};
pub use instr::Instr;
pub use ops::{ImmediateOp, LoadWidth, RegisterOp, ShiftOp, StoreWidth, Test};
pub use register::Register;
