//! The fields of a word (RISC-V unprivileged manual, "Base Instruction Formats" and "Immediate Encoding Variants").

ghost use Rattle.std.specs.Prelude.{◌≡◌, ◌<◌, ◌^◌};
ghost use Rattle.rv_decode.specs.Fields.{bits, opcode, rd, funct3, rs1, rs2, funct7, sign_extended, i_immediate, s_immediate, b_immediate, u_immediate, j_immediate};

use crate::register::Register;

/// The bits of a word from `low` up, so many of them.
#[tactic(auto, unfolding(crate::specs::Fields::bits))]
fn field(word: u32, low: u32, count: u32) -> u32
    requires low { low < 32 }
    requires count { count < 32 }
    ensures value { result ≡ bits word low count }
    ensures below { result < 2 ^ count }
{
    (word >> low) & ((1 << count) - 1)
}

/// A number of so many bits in two's complement, as a word.
#[tactic(auto, unfolding(crate::specs::Fields::sign_extended))]
fn sign_extended(number: u32, count: u32) -> u32
    requires some { 0 < count }
    requires count { count < 32 }
    requires below { number < 2 ^ count }
    ensures { result ≡ sign_extended count number }
{
    if number < 1 << (count - 1) {
        number
    } else {
        number.wrapping_sub(1 << count)
    }
}

/// The register whose number stands from bit `low` up.
fn register_at(word: u32, low: u32) -> Register
    requires { low < 32 }
    ensures { result ≡ bits word low 5 }
{
    Register::new(field(word, low, 5))
}

/// The register that an instruction sets.
pub fn rd(word: u32) -> Register
    ensures { result ≡ rd word }
{
    register_at(word, 7)
}

/// The first register that an instruction reads.
pub fn rs1(word: u32) -> Register
    ensures { result ≡ rs1 word }
{
    register_at(word, 15)
}

/// The second register that an instruction reads.
pub fn rs2(word: u32) -> Register
    ensures { result ≡ rs2 word }
{
    register_at(word, 20)
}

pub(crate) fn opcode(word: u32) -> u32
    ensures { result ≡ opcode word }
{
    field(word, 0, 7)
}

pub(crate) fn funct3(word: u32) -> u32
    ensures { result ≡ funct3 word }
{
    field(word, 12, 3)
}

pub(crate) fn funct7(word: u32) -> u32
    ensures { result ≡ funct7 word }
{
    field(word, 25, 7)
}

/// The amount of a shift by a fixed amount.
pub fn amount(word: u32) -> u32
    ensures value { result ≡ rs2 word }
    ensures below { result < 32 }
{
    field(word, 20, 5)
}

/// The immediate of an I-type instruction.
#[tactic(auto, unfolding(crate::specs::Fields::i_immediate))]
pub(crate) fn i_immediate(word: u32) -> u32
    ensures { result ≡ i_immediate word }
{
    sign_extended(field(word, 20, 12), 12)
}

/// The offset of a store.
#[tactic(auto, unfolding(crate::specs::Fields::s_immediate))]
pub(crate) fn s_immediate(word: u32) -> u32
    ensures { result ≡ s_immediate word }
{
    let number = field(word, 25, 7) * 32 + field(word, 7, 5);
    sign_extended(number, 12)
}

/// The offset of a branch.
#[tactic(auto, unfolding(crate::specs::Fields::b_immediate))]
pub(crate) fn b_immediate(word: u32) -> u32
    ensures { result ≡ b_immediate word }
{
    let number = field(word, 31, 1) * 4096
        + field(word, 7, 1) * 2048
        + field(word, 25, 6) * 32
        + field(word, 8, 4) * 2;
    sign_extended(number, 13)
}

/// The upper part of a U-type instruction.
#[tactic(auto, unfolding(crate::specs::Fields::u_immediate))]
pub(crate) fn u_immediate(word: u32) -> u32
    ensures { result ≡ u_immediate word }
{
    field(word, 12, 20) * 4096
}

/// The offset of a JAL.
#[tactic(auto, unfolding(crate::specs::Fields::j_immediate))]
pub(crate) fn j_immediate(word: u32) -> u32
    ensures { result ≡ j_immediate word }
{
    let number = field(word, 31, 1) * 0x10_0000
        + field(word, 12, 8) * 4096
        + field(word, 20, 1) * 2048
        + field(word, 21, 10) * 2;
    sign_extended(number, 21)
}
