//! From words to instructions.

ghost use Rattle.std.specs.Prelude.{◌≡◌, IfSome};
ghost use Rattle.rv_decode.specs.Instructions.{instr, jalr_instr, branch_instr, load_instr, store_instr, immediate_instr, shift_instr, register_immediate_instr, binary_instr, fence_instr, system_instr, ShiftsBelow32};

use crate::instr::Instr;
use crate::{fields, ops};

/// A JALR.
fn jalr(word: u32) -> Option<Instr>
    ensures { result ≡ jalr_instr word }
{
    if fields::funct3(word) == 0b000 {
        Some(Instr::Jalr {
            rd: fields::rd(word),
            rs1: fields::rs1(word),
            offset: fields::i_immediate(word),
        })
    } else {
        None
    }
}

fn branch(word: u32) -> Option<Instr>
    ensures { result ≡ branch_instr word }
{
    Some(Instr::Branch {
        test: ops::branch_test(fields::funct3(word))?,
        rs1: fields::rs1(word),
        rs2: fields::rs2(word),
        offset: fields::b_immediate(word),
    })
}

fn load(word: u32) -> Option<Instr>
    ensures { result ≡ load_instr word }
{
    Some(Instr::Load {
        width: ops::load_width(fields::funct3(word))?,
        rd: fields::rd(word),
        rs1: fields::rs1(word),
        offset: fields::i_immediate(word),
    })
}

fn store(word: u32) -> Option<Instr>
    ensures { result ≡ store_instr word }
{
    Some(Instr::Store {
        width: ops::store_width(fields::funct3(word))?,
        rs1: fields::rs1(word),
        rs2: fields::rs2(word),
        offset: fields::s_immediate(word),
    })
}

/// An operation on a register and an immediate that is no shift.
fn immediate(word: u32) -> Option<Instr>
    ensures { result ≡ immediate_instr word }
{
    Some(Instr::Immediate {
        op: ops::immediate_op(fields::funct3(word))?,
        rd: fields::rd(word),
        rs1: fields::rs1(word),
        immediate: fields::i_immediate(word),
    })
}

fn shift_immediate(word: u32) -> Option<Instr>
    ensures value { result ≡ shift_instr word }
    ensures amount { IfSome result ShiftsBelow32 }
{
    Some(Instr::ShiftImmediate {
        op: ops::shift_op(fields::funct3(word), fields::funct7(word))?,
        rd: fields::rd(word),
        rs1: fields::rs1(word),
        amount: fields::amount(word),
    })
}

/// An operation on a register and an immediate, or a shift by a fixed amount.
fn register_immediate(word: u32) -> Option<Instr>
    ensures value { result ≡ register_immediate_instr word }
    ensures amount { IfSome result ShiftsBelow32 }
{
    match fields::funct3(word) {
        0b001 | 0b101 => shift_immediate(word),
        _ => immediate(word),
    }
}

/// An operation on two registers.
fn binary(word: u32) -> Option<Instr>
    ensures { result ≡ binary_instr word }
{
    Some(Instr::Binary {
        op: ops::register_op(fields::funct3(word), fields::funct7(word))?,
        rd: fields::rd(word),
        rs1: fields::rs1(word),
        rs2: fields::rs2(word),
    })
}

fn fence(word: u32) -> Option<Instr>
    ensures { result ≡ fence_instr word }
{
    if fields::funct3(word) == 0b000 {
        Some(Instr::Fence)
    } else {
        None
    }
}

/// An ECALL or an EBREAK.
fn system(word: u32) -> Option<Instr>
    ensures { result ≡ system_instr word }
{
    match word {
        0x0000_0073 => Some(Instr::Ecall),
        0x0010_0073 => Some(Instr::Ebreak),
        _ => None,
    }
}

/// The instruction that a word is, or `None` where it is none.
pub fn decode(word: u32) -> Option<Instr>
    ensures value { result ≡ instr word }
    ensures amount { IfSome result ShiftsBelow32 }
{
    match fields::opcode(word) {
        0b011_0111 => Some(Instr::Lui {
            rd: fields::rd(word),
            upper: fields::u_immediate(word),
        }),
        0b001_0111 => Some(Instr::Auipc {
            rd: fields::rd(word),
            upper: fields::u_immediate(word),
        }),
        0b110_1111 => Some(Instr::Jal {
            rd: fields::rd(word),
            offset: fields::j_immediate(word),
        }),
        0b110_0111 => jalr(word),
        0b110_0011 => branch(word),
        0b000_0011 => load(word),
        0b010_0011 => store(word),
        0b001_0011 => register_immediate(word),
        0b011_0011 => binary(word),
        0b000_1111 => fence(word),
        0b111_0011 => system(word),
        _ => None,
    }
}
