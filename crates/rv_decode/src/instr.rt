//! Instructions of the machine under test.

use crate::ops::{ImmediateOp, LoadWidth, RegisterOp, ShiftOp, StoreWidth, Test};
use crate::register::Register;

/// An instruction of RV32IM. Immediates and offsets are sign-extended to 32 bits, and sums are modulo 2 to the 32.
#[derive(Clone, Copy, Debug, PartialEq, Eq)]
pub enum Instr {
    /// `rd` becomes `upper`, whose lowest twelve bits are 0.
    Lui {
        rd: Register,
        upper: u32,
    },
    /// `rd` becomes `pc + upper`; the lowest twelve bits of `upper` are 0.
    Auipc {
        rd: Register,
        upper: u32,
    },
    /// Goes to `pc + offset`, and `rd` becomes the next instruction's address.
    Jal {
        rd: Register,
        offset: u32,
    },
    /// Goes to `rs1 + offset` with its lowest bit cleared, and `rd` becomes the next instruction's address.
    Jalr {
        rd: Register,
        rs1: Register,
        offset: u32,
    },
    /// Goes to `pc + offset` where the test of `rs1` and `rs2` holds.
    Branch {
        test: Test,
        rs1: Register,
        rs2: Register,
        offset: u32,
    },
    /// `rd` becomes what lies at `rs1 + offset`.
    Load {
        width: LoadWidth,
        rd: Register,
        rs1: Register,
        offset: u32,
    },
    /// What lies at `rs1 + offset` becomes `rs2`.
    Store {
        width: StoreWidth,
        rs1: Register,
        rs2: Register,
        offset: u32,
    },
    /// `rd` becomes the operation's result on `rs1` and `immediate`.
    Immediate {
        op: ImmediateOp,
        rd: Register,
        rs1: Register,
        immediate: u32,
    },
    /// `rd` becomes `rs1` shifted by `amount`, which is below 32.
    ShiftImmediate {
        op: ShiftOp,
        rd: Register,
        rs1: Register,
        amount: u32,
    },
    /// `rd` becomes the operation's result on `rs1` and `rs2`.
    Binary {
        op: RegisterOp,
        rd: Register,
        rs1: Register,
        rs2: Register,
    },
    /// Orders memory accesses.
    Fence,
    /// Calls the environment.
    Ecall,
    /// Calls the debugger.
    Ebreak,
}
