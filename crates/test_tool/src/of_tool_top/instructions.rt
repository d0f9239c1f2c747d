//! Programs of instructions that compute, load, store and jump: the line said, the names of the files, and how each of some of them begins.

use crate::of_tool_top::rows::{FOUR_TARGETS, Row, check_rows};
use crate::of_tool_top::runs::EXPLORE;
use row_files::programs::{ADDED, DIVIDED, STORED};
use std::alloc::AllocError as NoMemory;

// It exits with the low byte of 100 divided by its input byte, where both are unsigned: LUI x5, 0x11; LBU x7, 0(x5);
// ADDI x6, x0, 100; DIVU x10, x6, x7; ADDI x17, x0, 93; ECALL. A quotient by 0 is all ones, so it exits with 255 then.
const QUOTIENT: [u32; 6] = [
    0x0001_12B7,
    0x0002_C383,
    0x0640_0313,
    0x0273_5533,
    0x05D0_0893,
    0x0000_0073,
];

// It stores its input byte as a word, loads that word, and exits with 1 where it is 'A', and else with 0: LUI x5, 0x11;
// LBU x7, 0(x5); SW x7, 16(x5); LW x6, 16(x5); ADDI x8, x0, 65; BEQ x6, x8, 12; ADDI x17, x0, 93; ECALL; ADDI x10, x0, 1;
// ADDI x17, x0, 93; ECALL. That is 8 steps where the branch isn't taken, and 9 where it is.
const KEPT: [u32; 11] = [
    0x0001_12B7,
    0x0002_C383,
    0x0072_A823,
    0x0102_A303,
    0x0410_0413,
    0x0083_0663,
    0x05D0_0893,
    0x0000_0073,
    0x0010_0513,
    0x05D0_0893,
    0x0000_0073,
];

// It divides -2^31 by its input byte, which is signed, and exits with the remainder where the quotient is -2^31, and else with 0:
// LUI x5, 0x11; LB x7, 0(x5); LUI x6, 0x80000; DIV x8, x6, x7; REM x9, x6, x7; BEQ x8, x6, 12; ADDI x17, x0, 93; ECALL;
// ADD x10, x0, x9; ADDI x17, x0, 93; ECALL. By 1 and by -1 the quotient is -2^31, and the remainder 0.
const LEAST: [u32; 11] = [
    0x0001_12B7,
    0x0002_8383,
    0x8000_0337,
    0x0273_4433,
    0x0273_64B3,
    0x0064_0663,
    0x05D0_0893,
    0x0000_0073,
    0x0090_0533,
    0x05D0_0893,
    0x0000_0073,
];

// It jumps into a table by its input byte modulo 6, and exits with that number: LUI x5, 0x11; LBU x7, 0(x5); ADDI x6, x0, 6;
// REMU x7, x7, x6; SLLI x7, x7, 3; AUIPC x8, 0; ADD x8, x8, x7; JALR x0, 12(x8); six times ADDI x10, x0, N and a JAL to the
// end; ADDI x17, x0, 93; ECALL. The table begins at 0x00010020.
const TABLE: [u32; 22] = [
    0x0001_12B7,
    0x0002_C383,
    0x0060_0313,
    0x0263_F3B3,
    0x0033_9393,
    0x0000_0417,
    0x0074_0433,
    0x00C4_0067,
    0x0000_0513,
    0x02C0_006F,
    0x0010_0513,
    0x0240_006F,
    0x0020_0513,
    0x01C0_006F,
    0x0030_0513,
    0x0140_006F,
    0x0040_0513,
    0x00C0_006F,
    0x0050_0513,
    0x0040_006F,
    0x05D0_0893,
    0x0000_0073,
];

// It loads a half word at an address to which it adds its input byte, and exits with 0: LUI x5, 0x11; LBU x7, 0(x5);
// ADD x7, x5, x7; LH x6, 0(x7); ADDI x17, x0, 93; ECALL. All of these addresses are on one page.
const HALF_ADDED: [u32; 6] = [
    0x0001_12B7,
    0x0002_C383,
    0x0072_83B3,
    0x0003_9303,
    0x05D0_0893,
    0x0000_0073,
];

// It stores 9 at 0x00011100 plus its input byte, and exits with the byte at 0x00011105: LUI x5, 0x11; LBU x7, 0(x5);
// ADD x7, x5, x7; ADDI x6, x0, 9; SB x6, 0x100(x7); LBU x10, 0x105(x5); ADDI x17, x0, 93; ECALL.
const BYTE_ADDED: [u32; 8] = [
    0x0001_12B7,
    0x0002_C383,
    0x0072_83B3,
    0x0090_0313,
    0x1063_8023,
    0x1052_C503,
    0x05D0_0893,
    0x0000_0073,
];

// It exits with 0. The last byte of its first instruction, ADDI x10, x0, 0, is the input: the upper bits of the immediate.
const CODE: [u32; 3] = [0x0000_0513, 0x05D0_0893, 0x0000_0073];

const CODE_BYTE: &[&str] = &[
    "rvklee",
    "explore",
    "--workers",
    "1",
    "--targets",
    "4",
    "p.elf",
    "out",
    "00010003:1",
];

const SIX_TARGETS: &[&str] = &[
    "rvklee",
    "explore",
    "--workers",
    "1",
    "--targets",
    "6",
    "p.elf",
    "out",
    "00011000:1",
];

const SIX_TARGETS_MIXED: &[&str] = &[
    "rvklee",
    "explore",
    "--workers",
    "1",
    "--targets",
    "6",
    "--order",
    "mixed",
    "p.elf",
    "out",
    "00011000:1",
];

const ROWS: &[Row] = &[
    // Nothing is decided by the input, so there is one leaf; its sample is zeros.
    Row {
        program: &QUOTIENT,
        words: EXPLORE,
        said: "leaves 1 finished 1 cut 0 tests 1 steps 6\n",
        puts: 4,
        tests: 1,
        files: &[
            (0, "out/events.txt", "claim 0 0\nfinish 0 0\n"),
            (
                1,
                "out/leaf-000000.smt2",
                "; rvklee leaf 1\n; kind finished\n; choices .\n; path .\n; steps 6\n; end exit\n",
            ),
            (
                2,
                "out/test-000000.json",
                "{\"end\":\"exit 255\",\"format\":2,\"inputs\":[{\"at\":\"00011000\",\"bytes\":\"00\"}],\"leaf\":0,\"output\":\"\",\"path\":\"\",\"steps\":6}\n",
            ),
        ],
    },
    // The branch decides, on the byte that was stored; zeros don't take it, and 'A' alone does.
    Row {
        program: &KEPT,
        words: EXPLORE,
        said: "leaves 2 finished 2 cut 0 tests 2 steps 17\n",
        puts: 6,
        tests: 2,
        files: &[
            (
                1,
                "out/leaf-000000.smt2",
                "; rvklee leaf 1\n; kind finished\n; choices N.\n; path N.\n; steps 8\n; end exit\n",
            ),
            (
                2,
                "out/test-000000.json",
                "{\"end\":\"exit 0\",\"format\":2,\"inputs\":[{\"at\":\"00011000\",\"bytes\":\"00\"}],\"leaf\":0,\"output\":\"\",\"path\":\"N\",\"steps\":8}\n",
            ),
            (
                3,
                "out/leaf-000001.smt2",
                "; rvklee leaf 1\n; kind finished\n; choices Y.\n; path T.\n; steps 9\n; end exit\n",
            ),
            (
                4,
                "out/test-000001.json",
                "{\"end\":\"exit 1\",\"format\":2,\"inputs\":[{\"at\":\"00011000\",\"bytes\":\"41\"}],\"leaf\":1,\"output\":\"\",\"path\":\"T\",\"steps\":9}\n",
            ),
        ],
    },
    // A quotient of -7 is never 1, since -7 divided by 0 is -1.
    Row {
        program: &DIVIDED,
        words: EXPLORE,
        said: "leaves 1 finished 1 cut 0 tests 1 steps 8\n",
        puts: 4,
        tests: 1,
        files: &[(
            1,
            "out/leaf-000000.smt2",
            "; rvklee leaf 1\n; kind finished\n; choices .\n; path N.\n; steps 8\n; end exit\n",
        )],
    },
    Row {
        program: &LEAST,
        words: EXPLORE,
        said: "leaves 2 finished 2 cut 0 tests 2 steps 17\n",
        puts: 6,
        tests: 2,
        files: &[
            (
                1,
                "out/leaf-000000.smt2",
                "; rvklee leaf 1\n; kind finished\n; choices N.\n; path N.\n; steps 8\n; end exit\n",
            ),
            (
                3,
                "out/leaf-000001.smt2",
                "; rvklee leaf 1\n; kind finished\n; choices Y.\n; path T.\n; steps 9\n; end exit\n",
            ),
            (4, "out/test-000001.json", "{\"end\":\"exit 0\","),
        ],
    },
    Row {
        program: &TABLE,
        words: SIX_TARGETS,
        said: "leaves 6 finished 6 cut 0 tests 6 steps 72\n",
        puts: 14,
        tests: 6,
        files: &[
            (
                1,
                "out/leaf-000000.smt2",
                "; rvklee leaf 1\n; kind finished\n; choices =00010020.\n; path @00010020.\n; steps 12\n; end exit\n",
            ),
            (2, "out/test-000000.json", "{\"end\":\"exit 0\","),
            (
                11,
                "out/leaf-000005.smt2",
                "; rvklee leaf 1\n; kind finished\n; choices =00010048.\n; path @00010048.\n; steps 12\n; end exit\n",
            ),
            (12, "out/test-000005.json", "{\"end\":\"exit 5\","),
        ],
    },
    // The order draws node 5 of the six that are free, and then node 3 of five.
    Row {
        program: &TABLE,
        words: SIX_TARGETS_MIXED,
        said: "leaves 6 finished 6 cut 0 tests 6 steps 72\n",
        puts: 14,
        tests: 6,
        files: &[(
            0,
            "out/events.txt",
            "claim 0 0\nsplit 0 0 1 =00010020 =00010028 =00010030 =00010038 =00010040 =00010048\nclaim 0 5\nfinish 0 5\nclaim 0 3\n",
        )],
    },
    Row {
        program: &TABLE,
        words: FOUR_TARGETS,
        said: "leaves 5 finished 4 cut 1 tests 4 steps 48\n",
        puts: 12,
        tests: 4,
        files: &[
            (
                1,
                "out/leaf-000000.smt2",
                "; rvklee leaf 1\n; kind finished\n; choices =00010020.\n",
            ),
            (
                9,
                "out/leaf-000004.smt2",
                "; rvklee leaf 1\n; kind targets\n; choices R.\n",
            ),
            (10, "out/spent-000004.txt", "; spent targets 4\n; term n"),
        ],
    },
    // A byte other than 0 stores 9, and 0 reads what was there.
    Row {
        program: &STORED,
        words: EXPLORE,
        said: "leaves 2 finished 2 cut 0 tests 2 steps 15\n",
        puts: 6,
        tests: 2,
        files: &[
            (
                1,
                "out/leaf-000000.smt2",
                "; rvklee leaf 1\n; kind finished\n; choices N.\n; path N.\n; steps 8\n; end exit\n",
            ),
            (2, "out/test-000000.json", "{\"end\":\"exit 9\","),
            (
                3,
                "out/leaf-000001.smt2",
                "; rvklee leaf 1\n; kind finished\n; choices Y.\n; path T.\n; steps 7\n; end exit\n",
            ),
            (
                4,
                "out/test-000001.json",
                "{\"end\":\"exit 0\",\"format\":2,\"inputs\":[{\"at\":\"00011000\",\"bytes\":\"00\"}],",
            ),
        ],
    },
    // A byte below 128 leads to the second page of data, and another to the page behind, which isn't there.
    Row {
        program: &ADDED,
        words: EXPLORE,
        said: "leaves 2 finished 2 cut 0 tests 2 steps 10\n",
        puts: 6,
        tests: 2,
        files: &[
            (
                0,
                "out/events.txt",
                "claim 0 0\nsplit 0 0 1 =00000111 =00000112\nclaim 0 1\nfinish 0 1\nclaim 0 2\nfinish 0 2\n",
            ),
            (
                1,
                "out/leaf-000000.smt2",
                "; rvklee leaf 1\n; kind finished\n; choices =00000111.\n; path .\n; steps 6\n; end exit\n",
            ),
            (
                2,
                "out/test-000000.json",
                "{\"end\":\"exit 0\",\"format\":2,\"inputs\":[{\"at\":\"00011000\",\"bytes\":\"00\"}],\"leaf\":0,\"output\":\"\",\"path\":\"\",\"steps\":6}\n",
            ),
            (
                3,
                "out/leaf-000001.smt2",
                "; rvklee leaf 1\n; kind finished\n; choices =00000112.\n; path .\n; steps 4\n; end LoadAccess\n",
            ),
            (4, "out/test-000001.json", "{\"end\":\"trap LoadAccess\","),
        ],
    },
    // Whether the byte is odd is all that differs.
    Row {
        program: &HALF_ADDED,
        words: EXPLORE,
        said: "leaves 2 finished 2 cut 0 tests 2 steps 10\n",
        puts: 6,
        tests: 2,
        files: &[
            (
                1,
                "out/leaf-000000.smt2",
                "; rvklee leaf 1\n; kind finished\n; choices =00000000.\n; path .\n; steps 6\n; end exit\n",
            ),
            (
                2,
                "out/test-000000.json",
                "{\"end\":\"exit 0\",\"format\":2,\"inputs\":[{\"at\":\"00011000\",\"bytes\":\"00\"}],\"leaf\":0,\"output\":\"\",\"path\":\"\",\"steps\":6}\n",
            ),
            (
                3,
                "out/leaf-000001.smt2",
                "; rvklee leaf 1\n; kind finished\n; choices =00000001.\n; path .\n; steps 4\n; end LoadMisaligned\n",
            ),
            (
                4,
                "out/test-000001.json",
                "{\"end\":\"trap LoadMisaligned\",",
            ),
        ],
    },
    // All that is stored to is on one page, so there is one leaf.
    Row {
        program: &BYTE_ADDED,
        words: EXPLORE,
        said: "leaves 1 finished 1 cut 0 tests 1 steps 8\n",
        puts: 4,
        tests: 1,
        files: &[
            (
                1,
                "out/leaf-000000.smt2",
                "; rvklee leaf 1\n; kind finished\n; choices .\n; path .\n; steps 8\n; end exit\n",
            ),
            (
                2,
                "out/test-000000.json",
                "{\"end\":\"exit 0\",\"format\":2,\"inputs\":[{\"at\":\"00011000\",\"bytes\":\"00\"}],\"leaf\":0,\"output\":\"\",\"path\":\"\",\"steps\":8}\n",
            ),
        ],
    },
    // The word that is fetched first is what differs, so there is a leaf for each of four words, and the rest.
    Row {
        program: &CODE,
        words: CODE_BYTE,
        said: "leaves 5 finished 4 cut 1 tests 4 steps 12\n",
        puts: 12,
        tests: 4,
        files: &[
            (
                1,
                "out/leaf-000000.smt2",
                "; rvklee leaf 1\n; kind finished\n; choices =00000513.\n; path .\n; steps 3\n; end exit\n",
            ),
            (
                2,
                "out/test-000000.json",
                "{\"end\":\"exit 0\",\"format\":2,\"inputs\":[{\"at\":\"00010003\",\"bytes\":\"00\"}],",
            ),
            (
                9,
                "out/leaf-000004.smt2",
                "; rvklee leaf 1\n; kind targets\n; choices R.\n",
            ),
        ],
    },
];

#[test]
fn instructions_are_explored(rt: HostRuntime) -> Result<(), NoMemory> {
    check_rows(&rt, ROWS)
}
