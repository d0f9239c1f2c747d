//! Words from an assembler (LLVM 14's, for riscv32 with M), whose instructions are known, and words that are none.

use rv_decode::{
    End, ImmediateOp, Instr, LoadWidth, PathStep, Register, RegisterOp, ShiftOp, StoreWidth, Test,
    Trap, decode,
};
use std::process::Abort;

fn check(rt: &impl Abort, word: u32, want: Option<Instr>) {
    assert!(rt; decode(word) == want, "{word:#010X}");
}

/// The register of this number, which is below 32.
fn x(number: u32) -> Register {
    Register::new(number % 32)
}

const LUIS: [(u32, u32, u32); 2] = [
    (0x0001_12B7, 5, 0x0001_1000),
    (0xFFFF_FFB7, 31, 0xFFFF_F000),
];

const AUIPCS: [(u32, u32, u32); 2] = [
    (0x0000_1097, 1, 0x0000_1000),
    (0x8000_0517, 10, 0x8000_0000),
];

#[test]
fn decodes_upper_immediates(rt: HostRuntime) {
    for &(word, rd, upper) in &LUIS {
        let want = Instr::Lui { rd: x(rd), upper };
        check(&rt, word, Some(want));
    }
    for &(word, rd, upper) in &AUIPCS {
        let want = Instr::Auipc { rd: x(rd), upper };
        check(&rt, word, Some(want));
    }
}

const JALS: [(u32, u32, u32); 4] = [
    (0xFF9F_F06F, 0, 0xFFFF_FFF8),
    (0x0010_00EF, 1, 2048),
    (0x7FEF_F2EF, 5, 0x000F_F7FE),
    (0x8000_02EF, 5, 0xFFF0_0000),
];

const JALRS: [(u32, u32, u32, u32); 2] = [
    (0x00C4_0067, 0, 8, 12),
    (0xFFC1_00E7, 1, 2, 0xFFFF_FFFC),
];

#[test]
fn decodes_jumps(rt: HostRuntime) {
    for &(word, rd, offset) in &JALS {
        let want = Instr::Jal { rd: x(rd), offset };
        check(&rt, word, Some(want));
    }
    for &(word, rd, rs1, offset) in &JALRS {
        let want = Instr::Jalr {
            rd: x(rd),
            rs1: x(rs1),
            offset,
        };
        check(&rt, word, Some(want));
    }
}

const BRANCHES: [(u32, Test, u32, u32, u32); 6] = [
    (0x0063_8663, Test::Beq, 7, 6, 12),
    (0x0004_1463, Test::Bne, 8, 0, 8),
    (0xFE20_CEE3, Test::Blt, 1, 2, 0xFFFF_FFFC),
    (0x0041_D0E3, Test::Bge, 3, 4, 2048),
    (0x8062_E063, Test::Bltu, 5, 6, 0xFFFF_F000),
    (0x7FEF_FFE3, Test::Bgeu, 31, 30, 4094),
];

#[test]
fn decodes_branches(rt: HostRuntime) {
    for &(word, test, rs1, rs2, offset) in &BRANCHES {
        let want = Instr::Branch {
            test,
            rs1: x(rs1),
            rs2: x(rs2),
            offset,
        };
        check(&rt, word, Some(want));
    }
}

const LOADS: [(u32, LoadWidth, u32, u32, u32); 5] = [
    (0xFFF1_0083, LoadWidth::Lb, 1, 2, 0xFFFF_FFFF),
    (0x0003_9303, LoadWidth::Lh, 6, 7, 0),
    (0x7FF2_2183, LoadWidth::Lw, 3, 4, 2047),
    (0x0002_C383, LoadWidth::Lbu, 7, 5, 0),
    (0x800F_D483, LoadWidth::Lhu, 9, 31, 0xFFFF_F800),
];

#[test]
fn decodes_loads(rt: HostRuntime) {
    for &(word, width, rd, rs1, offset) in &LOADS {
        let want = Instr::Load {
            width,
            rd: x(rd),
            rs1: x(rs1),
            offset,
        };
        check(&rt, word, Some(want));
    }
}

const STORES: [(u32, StoreWidth, u32, u32, u32); 3] = [
    (0x0062_8823, StoreWidth::Sb, 6, 5, 16),
    (0xFE74_1F23, StoreWidth::Sh, 7, 8, 0xFFFF_FFFE),
    (0x81F0_A023, StoreWidth::Sw, 31, 1, 0xFFFF_F800),
];

#[test]
fn decodes_stores(rt: HostRuntime) {
    for &(word, width, rs2, rs1, offset) in &STORES {
        let want = Instr::Store {
            width,
            rs1: x(rs1),
            rs2: x(rs2),
            offset,
        };
        check(&rt, word, Some(want));
    }
}

const IMMEDIATES: [(u32, ImmediateOp, u32, u32, u32); 6] = [
    (0x0410_0313, ImmediateOp::Addi, 6, 0, 65),
    (0xFFF1_2093, ImmediateOp::Slti, 1, 2, 0xFFFF_FFFF),
    (0x0153_B413, ImmediateOp::Sltiu, 8, 7, 21),
    (0xFFF2_4193, ImmediateOp::Xori, 3, 4, 0xFFFF_FFFF),
    (0x7FF3_6293, ImmediateOp::Ori, 5, 6, 2047),
    (0x8004_7393, ImmediateOp::Andi, 7, 8, 0xFFFF_F800),
];

const SHIFTS: [(u32, ShiftOp, u32, u32, u32); 3] = [
    (0x0033_9393, ShiftOp::Slli, 7, 7, 3),
    (0x01F1_5093, ShiftOp::Srli, 1, 2, 31),
    (0x41F1_5093, ShiftOp::Srai, 1, 2, 31),
];

#[test]
fn decodes_immediates(rt: HostRuntime) {
    for &(word, op, rd, rs1, immediate) in &IMMEDIATES {
        let want = Instr::Immediate {
            op,
            rd: x(rd),
            rs1: x(rs1),
            immediate,
        };
        check(&rt, word, Some(want));
    }
    for &(word, op, rd, rs1, amount) in &SHIFTS {
        let want = Instr::ShiftImmediate {
            op,
            rd: x(rd),
            rs1: x(rs1),
            amount,
        };
        check(&rt, word, Some(want));
    }
}

const BINARIES: [(u32, RegisterOp, u32, u32, u32); 18] = [
    (0x0031_00B3, RegisterOp::Add, 1, 2, 3),
    (0x4083_8933, RegisterOp::Sub, 18, 7, 8),
    (0x0062_9233, RegisterOp::Sll, 4, 5, 6),
    (0x0094_23B3, RegisterOp::Slt, 7, 8, 9),
    (0x00C5_B533, RegisterOp::Sltu, 10, 11, 12),
    (0x00F7_46B3, RegisterOp::Xor, 13, 14, 15),
    (0x0128_D833, RegisterOp::Srl, 16, 17, 18),
    (0x415A_59B3, RegisterOp::Sra, 19, 20, 21),
    (0x018B_EB33, RegisterOp::Or, 22, 23, 24),
    (0x01BD_7CB3, RegisterOp::And, 25, 26, 27),
    (0x03EE_8E33, RegisterOp::Mul, 28, 29, 30),
    (0x0231_10B3, RegisterOp::Mulh, 1, 2, 3),
    (0x0262_A233, RegisterOp::Mulhsu, 4, 5, 6),
    (0x0294_33B3, RegisterOp::Mulhu, 7, 8, 9),
    (0x0273_4433, RegisterOp::Div, 8, 6, 7),
    (0x02C5_D533, RegisterOp::Divu, 10, 11, 12),
    (0x0273_64B3, RegisterOp::Rem, 9, 6, 7),
    (0x0263_F3B3, RegisterOp::Remu, 7, 7, 6),
];

#[test]
fn decodes_binary_operations(rt: HostRuntime) {
    for &(word, op, rd, rs1, rs2) in &BINARIES {
        let want = Instr::Binary {
            op,
            rd: x(rd),
            rs1: x(rs1),
            rs2: x(rs2),
        };
        check(&rt, word, Some(want));
    }
}

const OTHERS: [(u32, Instr); 4] = [
    (0x0FF0_000F, Instr::Fence),
    (0x0000_0073, Instr::Ecall),
    (0x0010_0073, Instr::Ebreak),
    (0x8330_000F, Instr::Fence),
];

#[test]
fn decodes_the_rest(rt: HostRuntime) {
    for &(word, want) in &OTHERS {
        check(&rt, word, Some(want));
    }
}

/// Words that no row of the table has: funct3 and funct7 that stand for nothing, opcodes of other extensions,
/// FENCE.I and environment calls with more bits set.
const NO_INSTRUCTIONS: [u32; 19] = [
    0,
    0xFFFF_FFFF,
    0x0020_0073,
    0x0000_00F3,
    0x3020_0073,
    0x4033_9393,
    0x0233_9393,
    0x8020_D093,
    0x0431_00B3,
    0x4062_92B3,
    0x0020_A063,
    0x0020_B063,
    0x0000_B083,
    0x0000_E083,
    0x0020_B023,
    0x00C4_1067,
    0x0000_100F,
    0x0000_0012,
    0x0000_003B,
];

#[test]
fn finds_no_instruction(rt: HostRuntime) {
    for &word in &NO_INSTRUCTIONS {
        check(&rt, word, None);
    }
}

#[test]
fn names_traps(rt: HostRuntime) {
    assert_eq!(rt; Trap::FetchMisaligned.name(), "FetchMisaligned");
    assert_eq!(rt; Trap::Call.name(), "Call");
}

/// Values of each type that a run's account is made of can be compared and copied.
#[test]
fn compares_ends(rt: HostRuntime) {
    assert_ne!(rt; End::Exit(0), End::Trapped(Trap::Illegal));
    assert_eq!(rt; PathStep::Target(8), PathStep::Target(8));
    assert_ne!(rt; PathStep::Taken, PathStep::NotTaken);
    assert_eq!(rt; x(31).index(), 31);
    assert_eq!(rt; x(31).number(), 31);
}
