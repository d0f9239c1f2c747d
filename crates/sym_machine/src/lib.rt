//! The symbolic machine: RV32IM over numbers and terms. An instruction is carried out where all that it needs is known, on all
//! assignments alike; else it stops before it has done anything.
//!
//! - `outcome`, `halt`: what an instruction leads to, and why it isn't carried out
//! - `needs`: what has to be known
//! - `fetch`: the instruction that comes next
//! - `decoded`: instructions that were decoded lately
//! - `going`: to the next instruction, or to another
//! - `transfer`: bytes of memory and registers
//! - `loading`, `storing`: loads and stores
//! - `call`: the environment call
//! - `execute`: each instruction
//! - `stepping`: steps, one after the other
#![tactic(auto)]

mod call;
mod decoded;
mod execute;
mod fetch;
mod going;
mod halt;
mod loading;
mod needs;
mod outcome;
mod stepping;
mod storing;
mod transfer;

pub use stepping::{Advanced, Stop, advance};
