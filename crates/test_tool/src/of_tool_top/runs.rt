//! Runs of the tool over files in memory and over real files, by what is put, said and answered.

use byte_list::Bytes;
use row_files::programs::FORKED;
use row_files::row_file;
use std::alloc::{AllocError as NoMemory, Global};
use std::fs;
use std::process::Abort;
use std::sync::Wait;
use std::thread::Threads;
use tool_io::{Fault, Files, HostFiles, MemFiles, NamedFile};
use tool_top::run_tool;
use work_gate::{Gate, OpenGate};

/// What is said of `FORKED`, explored with its one input byte.
pub(crate) const SUMMARY: &str = "leaves 2 finished 2 cut 0 tests 2 steps 13\n";

/// What is said of words that make no job.
pub(crate) const USAGE: &str =
    "usage: rvklee explore [--steps N] [--targets N] [--conflicts N] [--workers N] [--nodes N] [--order O] PROGRAM OUT INPUT..\n       rvklee replay PROGRAM TEST\n       rvklee bench NUMBER WORKERS OUT\n       rvklee upgrade TEST OUT\n       rvklee audit PROGRAM CERT\n";

const UNFIT: &str = "inputs refused 4 Unmapped\n";

const FAULT: &str = "read fault\n";

const REFUSED: &str = "program refused 2 Short\n";

const TEST_0: &str =
    "{\"end\":\"exit 0\",\"format\":2,\"inputs\":[{\"at\":\"00011000\",\"bytes\":\"00\"}],\"leaf\":0,\"output\":\"\",\"path\":\"N\",\"steps\":6}\n";

const TEST_1: &str =
    "{\"end\":\"exit 1\",\"format\":2,\"inputs\":[{\"at\":\"00011000\",\"bytes\":\"41\"}],\"leaf\":1,\"output\":\"\",\"path\":\"T\",\"steps\":7}\n";

pub(crate) const EXPLORE: &[&str] = &[
    "rvklee",
    "explore",
    "--workers",
    "1",
    "p.elf",
    "out",
    "00011000:1",
];

const NO_COMMAND: &[&str] = &["rvklee"];

const WITHOUT_INPUT: &[&str] = &["rvklee", "explore", "--workers", "1", "p.elf", "out"];

const OTHER_INPUT: &[&str] = &["rvklee", "explore", "p.elf", "out", "00012000:1"];

const NO_INPUT: &[&str] = &["rvklee", "explore", "p.elf", "out", "00011000:10000"];

const NO_STEPS: &[&str] = &[
    "rvklee",
    "explore",
    "--steps",
    "0",
    "p.elf",
    "out",
    "00011000:1",
];

const HERE: &[&str] = &["rvklee", "explore", "p.elf", ".", "00011000:1"];

/// What p.elf is.
pub(crate) enum Held {
    Missing,
    Empty,
    Program(&'static [u32]),
}

pub(crate) const FORKS: Held = Held::Program(&FORKED);

// The words, what p.elf is, the call that fails, the status, what is said, and how many names are read and files put.
type Row = (
    &'static [&'static str],
    Held,
    u64,
    u8,
    &'static str,
    usize,
    usize,
);

const ROWS: &[Row] = &[
    (NO_COMMAND, FORKS, 9, 2, USAGE, 0, 0),
    (WITHOUT_INPUT, FORKS, 9, 2, USAGE, 0, 0),
    (NO_INPUT, FORKS, 9, 2, USAGE, 0, 0),
    (NO_STEPS, FORKS, 9, 2, USAGE, 0, 0),
    (OTHER_INPUT, FORKS, 9, 4, UNFIT, 1, 0),
    (OTHER_INPUT, FORKS, 2, 4, "", 1, 0),
    (NO_COMMAND, FORKS, 1, 2, "", 0, 0),
    (EXPLORE, Held::Missing, 9, 5, FAULT, 1, 0),
    (EXPLORE, FORKS, 1, 5, FAULT, 1, 0),
    (EXPLORE, FORKS, 2, 6, "", 1, 0),
    (EXPLORE, FORKS, 3, 6, "", 1, 1),
    (EXPLORE, FORKS, 4, 6, "", 1, 2),
    (EXPLORE, FORKS, 5, 6, "", 1, 3),
    (EXPLORE, FORKS, 6, 6, "", 1, 4),
    (EXPLORE, FORKS, 7, 6, "", 1, 5),
    (EXPLORE, FORKS, 8, 6, "", 1, 6),
    (EXPLORE, FORKS, 9, 0, SUMMARY, 1, 6),
    // The program is looked at before the input, and its refusal stands where the line can't be said.
    (EXPLORE, Held::Empty, 9, 3, REFUSED, 1, 0),
    (OTHER_INPUT, Held::Empty, 9, 3, REFUSED, 1, 0),
    (EXPLORE, Held::Empty, 2, 3, "", 1, 0),
];

fn strings(alloc: Global, words: &[&str]) -> Result<Vec<String>, NoMemory> {
    let mut strings = Vec::new(alloc);
    for word in words {
        strings.push(String::from_str(alloc, word)?)?;
    }
    Ok(strings)
}

/// The file of a program of these words.
pub(crate) fn program_file<R: AllocGlobal + Abort>(
    rt: &R,
    words: &[u32],
) -> Result<Bytes, NoMemory> {
    assert!(rt; words.len() < 0x4000_0000);
    row_file(rt.alloc(), words)
}

/// Files that hold these bytes as p.elf, and fail at these calls.
pub(crate) fn holding(
    alloc: Global,
    program: &[u8],
    to_fail: &[u64],
) -> Result<MemFiles, NoMemory> {
    let mut files = MemFiles::new(alloc, Vec::from_slice(alloc, to_fail)?);
    files.hold("p.elf", program)?;
    Ok(files)
}

/// Files that hold the program of these words as p.elf, and fail at these calls.
pub(crate) fn files<R: AllocGlobal + Abort>(
    rt: &R,
    program: &[u32],
    to_fail: &[u64],
) -> Result<MemFiles, NoMemory> {
    let file = program_file(rt, program)?;
    holding(rt.alloc(), file.as_slice(), to_fail)
}

/// Files of which p.elf is this, and which fail at these calls.
pub(crate) fn files_of<R: AllocGlobal + Abort>(
    rt: &R,
    held: &Held,
    to_fail: &[u64],
) -> Result<MemFiles, NoMemory> {
    match held {
        Held::Missing => Ok(MemFiles::new(rt.alloc(), Vec::from_slice(rt.alloc(), to_fail)?)),
        Held::Empty => holding(rt.alloc(), b"", to_fail),
        Held::Program(words) => files(rt, words, to_fail),
    }
}

/// Lets a name hold so many blanks.
pub(crate) fn hold_blanks(
    alloc: Global,
    files: &mut MemFiles,
    name: &str,
    count: u32,
) -> Result<(), NoMemory> {
    let mut text = Vec::new(alloc);
    text.resize(count as usize, b' ')?;
    files.hold(name, text.as_slice())
}

/// The status of the tool's run at this gate.
pub(crate) fn run<R: Threads + Wait + Sync + AllocGlobal, F: Files, G: Gate + Sync>(
    rt: &R,
    words: &[&str],
    files: &mut F,
    gate: &G,
) -> Result<u8, NoMemory> {
    let words = strings(rt.alloc(), words)?;
    Ok(run_tool(rt, rt.alloc(), words.as_slice(), files, gate))
}

/// The words of an exploration, with three workers in place of theirs, which stand right behind the command if they are said.
pub(crate) fn by_three(
    alloc: Global,
    words: &[&'static str],
) -> Result<Vec<&'static str>, NoMemory> {
    let mut others = Vec::from_slice(alloc, &["rvklee", "explore", "--workers", "3"])?;
    let behind = match words.get(2) {
        Some(word) if *word == "--workers" => 4,
        _ => 2,
    };
    others.extend_from_slice(words.get(behind..).unwrap_or(&[]))?;
    Ok(others)
}

/// This holds of the row, or else the test fails and names both.
pub(crate) fn check(rt: &impl Abort, holds: bool, row: usize, what: &str) {
    assert!(rt; holds, "row {row}: {what}");
}

/// The tool's run at this gate answers this status and says this.
pub(crate) fn answers<R: Threads + Wait + Sync + AllocGlobal + Abort, G: Gate + Sync>(
    rt: &R,
    words: &[&str],
    files: &mut MemFiles,
    gate: &G,
    (status, said): (u8, &str),
    row: usize,
) -> Result<(), NoMemory> {
    let answer = run(rt, words, files, gate)?;
    check(rt, answer == status, row, "the status");
    check(rt, files.said() == said.as_bytes(), row, "what is said");
    Ok(())
}

/// How many lines behind the first begin so.
pub(crate) fn count_lines(bytes: &[u8], beginning: &[u8]) -> usize {
    let mut count: usize = 0;
    for at in 0..bytes.len() {
        if bytes[at] == b'\n' && bytes[at + 1..].starts_with(beginning) {
            count = count.saturating_add(1);
        }
    }
    count
}

/// So many names were read and files put.
pub(crate) fn counts(rt: &impl Abort, files: &MemFiles, (names, puts): (usize, usize), row: usize) {
    check(
        rt,
        files.names().len() == names,
        row,
        "how many names are read",
    );
    check(
        rt,
        files.puts().len() == puts,
        row,
        "how many files are put",
    );
}

fn comes_to<R: Threads + Wait + Sync + AllocGlobal + Abort>(
    rt: &R,
    words: &[&str],
    &(_, ref held, to_fail, status, said, names, puts): &Row,
    row: usize,
) -> Result<(), NoMemory> {
    let mut files = files_of(rt, held, &[to_fail])?;
    answers(rt, words, &mut files, &OpenGate, (status, said), row)?;
    counts(rt, &files, (names, puts), row);
    Ok(())
}

// What is said, and how many names are read and files put, where no report is put in whole.
#[test]
fn other_runs_say_one_line(rt: HostRuntime) -> Result<(), NoMemory> {
    for (at, row) in ROWS.iter().enumerate() {
        comes_to(&rt, row.0, row, at)?;
    }
    Ok(())
}

// The number of workers changes nothing of that.
#[test]
fn three_workers_say_the_same_line(rt: HostRuntime) -> Result<(), NoMemory> {
    for (at, row) in ROWS.iter().enumerate() {
        if row.0.len() > 1 {
            let words = by_three(rt.alloc(), row.0)?;
            comes_to(&rt, words.as_slice(), row, at)?;
        }
    }
    Ok(())
}

const PUT_THERE: [&str; 6] = [
    "out/events.txt",
    "out/leaf-000000.smt2",
    "out/test-000000.json",
    "out/leaf-000001.smt2",
    "out/test-000001.json",
    "out/report.json",
];

// The calls that put them: the first call of all reads the program.
const PUTTING: [u64; 6] = [2, 3, 4, 5, 6, 7];

// Whether a file that one run put at this place is of this name, and as another run put it there.
fn is_same(all: &[NamedFile], first: &[NamedFile], at: usize, name: &str) -> bool {
    match (all.get(at), first.get(at)) {
        (Some(whole), Some(file)) => file.name() == name && file.bytes() == whole.bytes(),
        _ => false,
    }
}

// Whether one run put the first so many files, each as another run did.
fn are_first(all: &[NamedFile], first: &[NamedFile], count: usize) -> bool {
    for (at, name) in PUT_THERE.iter().enumerate() {
        if at < count && !is_same(all, first, at, name) {
            return false;
        }
    }
    first.len() == count
}

// Where a call that puts a file fails, those before stand whole, and no other.
#[test]
fn a_put_that_fails_leaves_those_before(rt: HostRuntime) -> Result<(), NoMemory> {
    let mut whole = files(&rt, &FORKED, &[])?;
    answers(&rt, EXPLORE, &mut whole, &OpenGate, (0, SUMMARY), 0)?;
    for (count, &call) in PUTTING.iter().enumerate() {
        let mut cut = files(&rt, &FORKED, &[call])?;
        answers(&rt, EXPLORE, &mut cut, &OpenGate, (6, ""), count)?;
        let are_whole = are_first(whole.puts(), cut.puts(), count);
        check(&rt, are_whole, count, "the files");
    }
    Ok(())
}

// Puts the program as p.elf.
fn put_program<R: AllocGlobal + Abort, F: Files>(rt: &R, files: &mut F) -> Result<(), Fault> {
    let program = program_file(rt, &FORKED)?;
    files.put("p.elf", program.as_slice())
}

/// Whether the name holds this text, as far as so many bytes.
pub(crate) fn holds<F: Files>(
    files: &mut F,
    name: &str,
    most: usize,
    text: &str,
) -> Result<bool, Fault> {
    Ok(files.read(name, most)?.as_slice() == text.as_bytes())
}

/// Removes these files.
pub(crate) fn remove<R: std::rt::Files + Abort>(rt: &R, names: &[&str]) {
    for name in names {
        check(rt, fs::remove_file(rt, name).is_ok(), 0, name);
    }
}

const PUT_HERE: &[&str] = &[
    "p.elf",
    "events.txt",
    "leaf-000000.smt2",
    "test-000000.json",
    "leaf-000001.smt2",
    "test-000001.json",
    "report.json",
];

// The program is explored, and its tests are put.
fn explore_here<R: Threads + Wait + Sync + AllocGlobal + Abort, F: Files>(
    rt: &R,
    files: &mut F,
) -> Result<(), Fault> {
    put_program(rt, files)?;
    check(rt, run(rt, HERE, files, &OpenGate)? == 0, 0, "the status");
    check(
        rt,
        holds(files, "./test-000000.json", 1000, TEST_0)?,
        0,
        "the first test",
    );
    check(
        rt,
        holds(files, "./test-000001.json", 1000, TEST_1)?,
        0,
        "the second test",
    );
    Ok(())
}

#[test]
fn real_files_are_read_and_put(rt: HostRuntime) -> Result<(), Fault> {
    let mut files = HostFiles::new(&rt, rt.alloc());
    explore_here(&rt, &mut files)?;
    remove(&rt, PUT_HERE);
    Ok(())
}
