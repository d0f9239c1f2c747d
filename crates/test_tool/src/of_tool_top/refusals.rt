//! Programs and inputs that are refused, by the line that is said.

use crate::of_tool_top::runs::{EXPLORE, answers, by_three, holding, program_file};
use row_files::programs::STRAIGHT;
use std::alloc::AllocError as NoMemory;
use std::process::Abort;
use std::sync::Wait;
use std::thread::Threads;
use work_gate::OpenGate;

const ONE_LEAF: &str = "leaves 1 finished 1 cut 0 tests 1 steps 3\n";

// The file of a program that exits with 7: its length, bytes that are set at places, the status and what is said.
const FILES: &[(usize, &[(usize, u8)], u8, &str)] = &[
    (0, &[], 3, "program refused 2 Short\n"),
    (51, &[], 3, "program refused 2 Short\n"),
    (115, &[], 3, "program refused 11 HeadersPastEnd\n"),
    (127, &[], 3, "program refused 14 BytesPastEnd\n"),
    (1_048_577, &[], 3, "program refused 1 TooBig\n"),
    (128, &[(0, 0)], 3, "program refused 3 Magic\n"),
    (128, &[(4, 2)], 3, "program refused 4 Class\n"),
    (128, &[(5, 2)], 3, "program refused 5 ByteOrder\n"),
    (128, &[(6, 0)], 3, "program refused 6 Version\n"),
    (128, &[(20, 2)], 3, "program refused 6 Version\n"),
    (128, &[(16, 3)], 3, "program refused 7 FileType\n"),
    (128, &[(18, 0)], 3, "program refused 8 Machine\n"),
    (128, &[(36, 1)], 3, "program refused 9 Flags\n"),
    (128, &[(36, 8)], 3, "program refused 9 Flags\n"),
    (128, &[(40, 51)], 3, "program refused 10 HeaderSize\n"),
    (128, &[(42, 40)], 3, "program refused 10 HeaderSize\n"),
    (128, &[(44, 3)], 3, "program refused 11 HeadersPastEnd\n"),
    (128, &[(44, 0)], 3, "program refused 18 Nothing\n"),
    (128, &[(52, 3)], 3, "program refused 12 Dynamic\n"),
    (128, &[(68, 13)], 3, "program refused 13 FileOverMemory\n"),
    (128, &[(56, 117)], 3, "program refused 14 BytesPastEnd\n"),
    (
        128,
        &[(92, 0), (93, 255), (94, 255), (95, 255)],
        3,
        "program refused 15 AddressRange\n",
    ),
    (
        128,
        &[(92, 0), (93, 255), (94, 254), (95, 127)],
        3,
        "program refused 15 AddressRange\n",
    ),
    (128, &[(92, 8), (93, 0)], 3, "program refused 16 Overlap\n"),
    (
        128,
        &[(104, 0), (105, 0), (106, 64)],
        3,
        "program refused 17 TooManyPages\n",
    ),
    (128, &[(52, 0), (84, 0)], 3, "program refused 18 Nothing\n"),
    // Such files that load: each has one leaf.
    (128, &[], 0, ONE_LEAF),
    (1_048_576, &[], 0, ONE_LEAF),
    (128, &[(36, 6)], 0, ONE_LEAF),
    (128, &[(104, 0), (105, 255), (106, 63)], 0, ONE_LEAF),
];

// The file of the program of this length, with these bytes set.
fn edited<R: AllocGlobal + Abort>(
    rt: &R,
    length: usize,
    edits: &[(usize, u8)],
) -> Result<Vec<u8>, NoMemory> {
    let mut bytes = program_file(rt, &STRAIGHT)?.into_vec();
    bytes.resize(length, 0)?;
    for &(at, value) in edits {
        if at < bytes.len() {
            bytes[at] = value;
        }
    }
    Ok(bytes)
}

fn says<R: Threads + Wait + Sync + AllocGlobal + Abort>(
    rt: &R,
    bytes: &[u8],
    words: &[&str],
    outcome: (u8, &str),
    row: usize,
) -> Result<(), NoMemory> {
    let mut files = holding(rt.alloc(), bytes, &[])?;
    answers(rt, words, &mut files, &OpenGate, outcome, row)
}

#[test]
fn files_are_refused_or_load(rt: HostRuntime) -> Result<(), NoMemory> {
    for (row, &(length, edits, status, said)) in FILES.iter().enumerate() {
        let bytes = edited(&rt, length, edits)?;
        says(&rt, bytes.as_slice(), EXPLORE, (status, said), row)?;
    }
    Ok(())
}

#[test]
fn three_workers_are_refused_the_same_files(rt: HostRuntime) -> Result<(), NoMemory> {
    let words = by_three(rt.alloc(), EXPLORE)?;
    for (row, &(length, edits, status, said)) in FILES.iter().enumerate() {
        let bytes = edited(&rt, length, edits)?;
        says(&rt, bytes.as_slice(), words.as_slice(), (status, said), row)?;
    }
    Ok(())
}

const NINE: &[&str] = &[
    "rvklee",
    "explore",
    "p.elf",
    "out",
    "00011000:1",
    "00011000:1",
    "00011000:1",
    "00011000:1",
    "00011000:1",
    "00011000:1",
    "00011000:1",
    "00011000:1",
    "00011000:1",
];

const TWICE: &[&str] = &[
    "rvklee",
    "explore",
    "p.elf",
    "out",
    "00011000:1",
    "00011000:1",
];

const NONE: &[&str] = &["rvklee", "explore", "p.elf", "out", "00011000:0"];

const LONG: &[&str] = &["rvklee", "explore", "p.elf", "out", "00011000:1025"];

const LONG_STACK: &[&str] = &["rvklee", "explore", "p.elf", "out", "7FFF0000:1025"];

const PAST: &[&str] = &["rvklee", "explore", "p.elf", "out", "00011000:513"];

const FAR: &[&str] = &["rvklee", "explore", "p.elf", "out", "00012000:1"];

// Inputs for a program, and the line.
const INPUTS: &[(&[&'static str], &str)] = &[
    (NINE, "inputs refused 1 TooMany\n"),
    (NONE, "inputs refused 2 Empty\n"),
    (LONG, "inputs refused 3 TooLong\n"),
    (LONG_STACK, "inputs refused 3 TooLong\n"),
    (PAST, "inputs refused 4 Unmapped\n"),
    (FAR, "inputs refused 4 Unmapped\n"),
    (TWICE, "inputs refused 5 Overlap\n"),
];

#[test]
fn inputs_that_are_refused(rt: HostRuntime) -> Result<(), NoMemory> {
    let bytes = program_file(&rt, &STRAIGHT)?;
    for (row, &(words, line)) in INPUTS.iter().enumerate() {
        says(&rt, bytes.as_slice(), words, (4, line), row)?;
        let words = by_three(rt.alloc(), words)?;
        says(&rt, bytes.as_slice(), words.as_slice(), (4, line), row)?;
    }
    Ok(())
}
