//! Programs whose input has more bytes than one: the line said, the names of the files, and how each of some of them begins.

use crate::of_tool_top::rows::{Row, check_rows, explored};
use crate::of_tool_top::runs::{check, count_lines};
use row_files::programs::STRAIGHT;
use std::alloc::{AllocError as NoMemory, Global};
use std::process::Abort;
use tool_io::NamedFile;

// It exits with 1 where its input bytes have the sum 5 and the difference 2, which no bytes have, and else with 0: LUI x5, 0x11;
// LBU x7, 0(x5); LBU x8, 1(x5); ADD x9, x7, x8; SUB x18, x7, x8; XORI x9, x9, 5; XORI x18, x18, 2; OR x9, x9, x18;
// BEQ x9, x0, 12; ADDI x17, x0, 93; ECALL; ADDI x10, x0, 1; ADDI x17, x0, 93; ECALL.
const BALANCED: [u32; 14] = [
    0x0001_12B7,
    0x0002_C383,
    0x0012_C403,
    0x0083_84B3,
    0x4083_8933,
    0x0054_C493,
    0x0029_4913,
    0x0124_E4B3,
    0x0004_8663,
    0x05D0_0893,
    0x0000_0073,
    0x0010_0513,
    0x05D0_0893,
    0x0000_0073,
];

// It writes as many bytes as the second input byte says modulo 4, from the first input byte on, and exits with that number:
// LUI x5, 0x11; LBU x12, 1(x5); ANDI x12, x12, 3; ADDI x10, x0, 1; ADDI x11, x5, 0; ADDI x17, x0, 64; ECALL; ADDI x17, x0, 93;
// ECALL.
const WRITTEN: [u32; 9] = [
    0x0001_12B7,
    0x0012_C603,
    0x0036_7613,
    0x0010_0513,
    0x0002_8593,
    0x0400_0893,
    0x0000_0073,
    0x05D0_0893,
    0x0000_0073,
];

const TWO_BYTES: &[&str] = &[
    "rvklee",
    "explore",
    "--workers",
    "1",
    "p.elf",
    "out",
    "00011000:2",
];

const MOST_BYTES: &[&str] = &[
    "rvklee",
    "explore",
    "--workers",
    "1",
    "p.elf",
    "out",
    "7FFF0000:1024",
];

const PAST_A_PAGE: &[&str] = &[
    "rvklee",
    "explore",
    "--workers",
    "1",
    "p.elf",
    "out",
    "00011000:257",
];

const ONE_CONFLICT: &[&str] = &[
    "rvklee",
    "explore",
    "--workers",
    "1",
    "--conflicts",
    "1",
    "p.elf",
    "out",
    "00011000:2",
];

const ROWS: &[Row] = &[
    Row {
        program: &STRAIGHT,
        words: MOST_BYTES,
        said: "leaves 1 finished 1 cut 0 tests 1 steps 3\n",
        puts: 4,
        tests: 1,
        files: &[],
    },
    Row {
        program: &STRAIGHT,
        words: PAST_A_PAGE,
        said: "leaves 1 finished 1 cut 0 tests 1 steps 3\n",
        puts: 4,
        tests: 1,
        files: &[],
    },
    // The sum and the difference of two numbers are both even or both odd.
    Row {
        program: &BALANCED,
        words: TWO_BYTES,
        said: "leaves 1 finished 1 cut 0 tests 1 steps 11\n",
        puts: 4,
        tests: 1,
        files: &[(
            1,
            "out/leaf-000000.smt2",
            "; rvklee leaf 1\n; kind finished\n; choices .\n; path N.\n; steps 11\n; end exit\n",
        )],
    },
    // That takes more than one conflict to find out.
    Row {
        program: &BALANCED,
        words: ONE_CONFLICT,
        said: "leaves 2 finished 1 cut 1 tests 1 steps 11\n",
        puts: 6,
        tests: 1,
        files: &[
            (
                0,
                "out/events.txt",
                "claim 0 0\nsplit 0 0 1 N Y!conflicts\n",
            ),
            (
                1,
                "out/leaf-000000.smt2",
                "; rvklee leaf 1\n; kind finished\n; choices N.\n",
            ),
            (
                2,
                "out/test-000000.json",
                "{\"end\":\"exit 0\",\"format\":2,\"inputs\":[{\"at\":\"00011000\",\"bytes\":\"0000\"}],",
            ),
            (
                3,
                "out/leaf-000001.smt2",
                "; rvklee leaf 1\n; kind conflicts\n; choices Y.\n",
            ),
            (4, "out/spent-000001.txt", "; spent conflicts 1\n"),
        ],
    },
    Row {
        program: &WRITTEN,
        words: TWO_BYTES,
        said: "leaves 4 finished 4 cut 0 tests 4 steps 36\n",
        puts: 10,
        tests: 4,
        files: &[
            (
                1,
                "out/leaf-000000.smt2",
                "; rvklee leaf 1\n; kind finished\n; choices =00000000.\n",
            ),
            (
                2,
                "out/test-000000.json",
                "{\"end\":\"exit 0\",\"format\":2,\"inputs\":[{\"at\":\"00011000\",\"bytes\":\"0000\"}],\"leaf\":0,\"output\":\"\",",
            ),
            (
                3,
                "out/leaf-000001.smt2",
                "; rvklee leaf 1\n; kind finished\n; choices =00000001.\n",
            ),
            (
                5,
                "out/leaf-000002.smt2",
                "; rvklee leaf 1\n; kind finished\n; choices =00000002.\n",
            ),
            (
                7,
                "out/leaf-000003.smt2",
                "; rvklee leaf 1\n; kind finished\n; choices =00000003.\n",
            ),
        ],
    },
];

#[test]
fn inputs_of_more_bytes_are_explored(rt: HostRuntime) -> Result<(), NoMemory> {
    check_rows(&rt, ROWS)
}

// One clause was spent before the second leaf was cut.
fn check_spent(rt: &impl Abort, puts: &[NamedFile]) {
    check(rt, puts.len() == 6, 0, "how many files are put");
    match puts.get(4) {
        Some(file) => {
            check(
                rt,
                file.name() == "out/spent-000001.txt",
                0,
                "the name of the fifth",
            );
            check(
                rt,
                count_lines(file.bytes(), b"c ") == 1,
                0,
                "how many clauses are spent",
            );
        }
        None => {}
    }
}

#[test]
fn one_conflict_is_one_clause(rt: HostRuntime) -> Result<(), NoMemory> {
    let held = explored(&rt, &BALANCED, ONE_CONFLICT, 0)?;
    check_spent(&rt, held.puts());
    Ok(())
}
// The place of a test among the files, its rank, how many digits of its input are those of its output, and those behind them.
const WRITES: &[(usize, &str, usize, &str)] = &[
    (2, "0", 0, ""),
    (4, "1", 2, ""),
    (6, "2", 4, ""),
    (8, "3", 4, "00"),
];

// Whether the text is these parts, one behind the other.
fn is_made_of(text: &[u8], parts: &[&[u8]]) -> bool {
    let mut rest = text;
    for part in parts {
        match rest.strip_prefix(part) {
            Some(others) => rest = others,
            None => return false,
        }
    }
    rest.is_empty()
}

// Whether the test of this rank, whose status has one digit, says as its output so many digits of its input, and more behind them.
fn is_written(text: &[u8], rank: &str, digits: usize, more: &str) -> bool {
    let Some(input) = text.get(63..67) else {
        return false;
    };
    let parts = [
        b"{\"end\":\"exit ".as_slice(),
        rank.as_bytes(),
        b"\",\"format\":2,\"inputs\":[{\"at\":\"00011000\",\"bytes\":\"",
        input,
        b"\"}],\"leaf\":",
        rank.as_bytes(),
        b",\"output\":\"",
        &input[..digits.min(4)],
        more.as_bytes(),
        b"\",\"path\":\"\",\"steps\":9}\n",
    ];
    is_made_of(text, &parts)
}

fn check_writes(rt: &impl Abort, puts: &[NamedFile]) {
    for &(at, rank, digits, more) in WRITES {
        let is_right = puts
            .get(at)
            .is_some_and(|file| is_written(file.bytes(), rank, digits, more));
        check(rt, is_right, at, "the test");
    }
}

// What is written is the first of the input bytes, both, or both and the byte behind them, which is 0.
#[test]
fn bytes_of_the_input_are_written(rt: HostRuntime) -> Result<(), NoMemory> {
    let held = explored(&rt, &WRITTEN, TWO_BYTES, 0)?;
    check_writes(&rt, held.puts());
    Ok(())
}
