//! Programs that are explored: the line said, the names of the files, and how each of some of them begins.

use crate::of_tool_top::runs::{EXPLORE, by_three, check, files, run};
use leaf_reader::read_leaf;
use row_files::programs::{CALLED, COMPARED, COUNTED, FORKED, STRAIGHT};
use smt_text::print_leaf;
use std::alloc::{AllocError as NoMemory, Global};
use std::process::Abort;
use std::sync::Wait;
use std::thread::Threads;
use tool_io::{MemFiles, NamedFile};
use work_gate::OpenGate;

/// A run of the tool on a program.
pub(crate) struct Row {
    pub program: &'static [u32],
    pub words: &'static [&'static str],
    pub said: &'static str,
    pub puts: usize,
    /// How many of the files that are put are tests.
    pub tests: usize,
    /// Some of the files by their places among those put, with their names and how they begin.
    pub files: &'static [(usize, &'static str, &'static str)],
}

const FIFTY_STEPS: &[&str] = &[
    "rvklee",
    "explore",
    "--workers",
    "1",
    "--steps",
    "50",
    "p.elf",
    "out",
    "00011000:1",
];

const FEWER_STEPS: &[&str] = &[
    "rvklee",
    "explore",
    "--workers",
    "1",
    "--steps",
    "49",
    "p.elf",
    "out",
    "00011000:1",
];

pub(crate) const FOUR_TARGETS: &[&str] = &[
    "rvklee",
    "explore",
    "--workers",
    "1",
    "--targets",
    "4",
    "p.elf",
    "out",
    "00011000:1",
];

const ROWS: &[Row] = &[
    Row {
        program: &STRAIGHT,
        words: EXPLORE,
        said: "leaves 1 finished 1 cut 0 tests 1 steps 3\n",
        puts: 4,
        tests: 1,
        files: &[
            (0, "out/events.txt", "claim 0 0\nfinish 0 0\n"),
            (
                1,
                "out/leaf-000000.smt2",
                "; rvklee leaf 1\n; kind finished\n; choices .\n; path .\n; steps 3\n; end exit\n",
            ),
            (
                2,
                "out/test-000000.json",
                "{\"end\":\"exit 7\",\"format\":2,\"inputs\":[{\"at\":\"00011000\",\"bytes\":\"00\"}],\"leaf\":0,\"output\":\"\",\"path\":\"\",\"steps\":3}\n",
            ),
            (
                3,
                "out/report.json",
                "{\"budgets\":{\"conflicts\":2000,\"nodes\":1000000,\"order\":\"deepest\",\"steps\":10000,\"targets\":16,\"workers\":1},\"leaves\":[{\"choices\":\"\",\"end\":\"exit\",\"kind\":\"finished\",\"node\":0,\"steps\":3}],\"regions\":[\"00011000:1\"],\"summary\":{\"cut\":0,\"finished\":1,\"leaves\":1,\"steps\":3,\"tests\":1}}\n",
            ),
        ],
    },
    Row {
        program: &FORKED,
        words: EXPLORE,
        said: "leaves 2 finished 2 cut 0 tests 2 steps 13\n",
        puts: 6,
        tests: 2,
        files: &[
            (
                0,
                "out/events.txt",
                "claim 0 0\nsplit 0 0 1 N Y\nclaim 0 1\nfinish 0 1\nclaim 0 2\nfinish 0 2\n",
            ),
            (
                1,
                "out/leaf-000000.smt2",
                "; rvklee leaf 1\n; kind finished\n; choices N.\n; path N.\n; steps 6\n; end exit\n",
            ),
            (
                2,
                "out/test-000000.json",
                "{\"end\":\"exit 0\",\"format\":2,\"inputs\":[{\"at\":\"00011000\",\"bytes\":\"00\"}],\"leaf\":0,\"output\":\"\",\"path\":\"N\",\"steps\":6}\n",
            ),
            (
                3,
                "out/leaf-000001.smt2",
                "; rvklee leaf 1\n; kind finished\n; choices Y.\n; path T.\n; steps 7\n; end exit\n",
            ),
            (
                4,
                "out/test-000001.json",
                "{\"end\":\"exit 1\",\"format\":2,\"inputs\":[{\"at\":\"00011000\",\"bytes\":\"41\"}],\"leaf\":1,\"output\":\"\",\"path\":\"T\",\"steps\":7}\n",
            ),
        ],
    },
    Row {
        program: &COMPARED,
        words: EXPLORE,
        said: "leaves 3 finished 3 cut 0 tests 3 steps 26\n",
        puts: 8,
        tests: 3,
        files: &[
            (
                1,
                "out/leaf-000000.smt2",
                "; rvklee leaf 1\n; kind finished\n; choices N.\n; path NT.\n; steps 9\n; end exit\n",
            ),
            (
                2,
                "out/test-000000.json",
                "{\"end\":\"exit 1\",\"format\":2,\"inputs\":[{\"at\":\"00011000\",\"bytes\":\"0",
            ),
            (
                3,
                "out/leaf-000001.smt2",
                "; rvklee leaf 1\n; kind finished\n; choices YN.\n; path TN.\n; steps 9\n; end exit\n",
            ),
            (4, "out/test-000001.json", "{\"end\":\"exit 2\","),
            (
                5,
                "out/leaf-000002.smt2",
                "; rvklee leaf 1\n; kind finished\n; choices YY.\n; path TT.\n; steps 8\n; end exit\n",
            ),
            (6, "out/test-000002.json", "{\"end\":\"exit 0\","),
        ],
    },
    Row {
        program: &COUNTED,
        words: FIFTY_STEPS,
        said: "leaves 17 finished 16 cut 1 tests 17 steps 440\n",
        puts: 36,
        tests: 17,
        files: &[
            (
                1,
                "out/leaf-000000.smt2",
                "; rvklee leaf 1\n; kind steps\n; choices NNNNNNNNNNNNNNNN.\n; path NNNNNNNNNNNNNNNN.\n; steps 50\n; end running\n",
            ),
            (
                2,
                "out/test-000000.json",
                "{\"end\":\"running\",\"format\":2,\"inputs\":[{\"at\":\"00011000\",\"bytes\":\"",
            ),
            (
                33,
                "out/leaf-000016.smt2",
                "; rvklee leaf 1\n; kind finished\n; choices Y.\n; path T.\n; steps 5\n; end exit\n",
            ),
            (
                34,
                "out/test-000016.json",
                "{\"end\":\"exit 0\",\"format\":2,\"inputs\":[{\"at\":\"00011000\",\"bytes\":\"00\"}],\"leaf\":16,",
            ),
        ],
    },
    Row {
        program: &COUNTED,
        words: FEWER_STEPS,
        said: "leaves 17 finished 15 cut 2 tests 17 steps 390\n",
        puts: 36,
        tests: 17,
        files: &[
            (
                1,
                "out/leaf-000000.smt2",
                "; rvklee leaf 1\n; kind steps\n; choices NNNNNNNNNNNNNNNN.\n",
            ),
            (
                3,
                "out/leaf-000001.smt2",
                "; rvklee leaf 1\n; kind steps\n; choices NNNNNNNNNNNNNNNY.\n",
            ),
        ],
    },
    Row {
        program: &CALLED,
        words: FOUR_TARGETS,
        said: "leaves 5 finished 4 cut 1 tests 4 steps 12\n",
        puts: 12,
        tests: 4,
        files: &[
            (
                1,
                "out/leaf-000000.smt2",
                "; rvklee leaf 1\n; kind finished\n; choices =00000000.\n; path .\n; steps 3\n; end Call\n",
            ),
            (
                2,
                "out/test-000000.json",
                "{\"end\":\"trap Call\",\"format\":2,\"inputs\":[{\"at\":\"00011000\",\"bytes\":\"00\"}],\"leaf\":0,\"output\":\"\",\"path\":\"\",\"steps\":3}\n",
            ),
            (
                9,
                "out/leaf-000004.smt2",
                "; rvklee leaf 1\n; kind targets\n; choices R.\n",
            ),
            (10, "out/spent-000004.txt", "; spent targets 4\n; term n"),
        ],
    },
];

/// The files after a run on this program, which is done.
pub(crate) fn explored<R: Threads + Wait + Sync + AllocGlobal + Abort>(
    rt: &R,
    program: &[u32],
    words: &[&str],
    row: usize,
) -> Result<MemFiles, NoMemory> {
    let mut held = files(rt, program, &[])?;
    check(
        rt,
        run(rt, words, &mut held, &OpenGate)? == 0,
        row,
        "the status",
    );
    Ok(held)
}

// What is said is as the row says, and so many files are put.
fn check_said(rt: &impl Abort, held: &MemFiles, row: &Row, at: usize) {
    check(rt, held.said() == row.said.as_bytes(), at, "what is said");
    check(
        rt,
        held.puts().len() == row.puts,
        at,
        "how many files are put",
    );
}

// Whether the file at this place has this name, and begins so.
fn begins(puts: &[NamedFile], at: usize, name: &str, beginning: &str) -> bool {
    match puts.get(at) {
        Some(file) => file.name() == name && file.bytes().starts_with(beginning.as_bytes()),
        None => false,
    }
}

// Each of these files is the one put at its place, and begins so.
fn check_files(rt: &impl Abort, puts: &[NamedFile], files: &[(usize, &str, &str)], row: usize) {
    for &(at, name, beginning) in files {
        check(rt, begins(puts, at, name, beginning), row, name);
    }
}

// Whether the text is read as a leaf, which is printed to the same bytes.
fn is_read_back(alloc: Global, text: &[u8]) -> Result<bool, NoMemory> {
    match read_leaf(alloc, text)? {
        Ok(leaf) => Ok(print_leaf(alloc, &leaf)?.as_slice() == text),
        Err(_) => Ok(false),
    }
}

// Each leaf file is read back.
fn read_back<R: AllocGlobal + Abort>(
    rt: &R,
    puts: &[NamedFile],
    row: usize,
) -> Result<(), NoMemory> {
    for file in puts {
        if file.name().starts_with("out/leaf-") {
            check(
                rt,
                is_read_back(rt.alloc(), file.bytes())?,
                row,
                file.name(),
            );
        }
    }
    Ok(())
}

// The names of the tests among these files.
fn test_names(alloc: Global, puts: &[NamedFile]) -> Result<Vec<String>, NoMemory> {
    let mut names = Vec::new(alloc);
    for file in puts {
        if file.name().starts_with("out/test-") {
            names.push(String::from_str(alloc, file.name())?)?;
        }
    }
    Ok(names)
}

// Each of these tests is as its run, which is said.
fn replay_each<R: Threads + Wait + Sync + AllocGlobal + Abort>(
    rt: &R,
    held: &mut MemFiles,
    names: &[String],
    row: usize,
) -> Result<(), NoMemory> {
    let mut said = held.said().len();
    for name in names {
        let words = ["rvklee", "replay", "p.elf", name.as_str()];
        check(
            rt,
            run(rt, &words, held, &OpenGate)? == 0,
            row,
            name.as_str(),
        );
        said = said.saturating_add(5);
    }
    check(
        rt,
        held.said().len() == said,
        row,
        "what is said of its tests",
    );
    Ok(())
}

// So many tests were put. Each is replayed, and is as its run.
fn replay_tests<R: Threads + Wait + Sync + AllocGlobal + Abort>(
    rt: &R,
    held: &mut MemFiles,
    tests: usize,
    row: usize,
) -> Result<(), NoMemory> {
    let names = test_names(rt.alloc(), held.puts())?;
    check(rt, names.len() == tests, row, "how many tests are put");
    replay_each(rt, held, names.as_slice(), row)
}

fn explores<R: Threads + Wait + Sync + AllocGlobal + Abort>(
    rt: &R,
    row: &Row,
    at: usize,
) -> Result<(), NoMemory> {
    let mut held = explored(rt, row.program, row.words, at)?;
    check_said(rt, &held, row, at);
    check_files(rt, held.puts(), row.files, at);
    read_back(rt, held.puts(), at)?;
    replay_tests(rt, &mut held, row.tests, at)
}

// How many workers there are changes neither the leaves nor their number.
fn says_the_same<R: Threads + Wait + Sync + AllocGlobal + Abort>(
    rt: &R,
    row: &Row,
    at: usize,
) -> Result<(), NoMemory> {
    let words = by_three(rt.alloc(), row.words)?;
    let held = explored(rt, row.program, words.as_slice(), at)?;
    check_said(rt, &held, row, at);
    Ok(())
}

/// What is put and said is as each row says, each test that is put is as its run, and three workers say what one does.
pub(crate) fn check_rows<R: Threads + Wait + Sync + AllocGlobal + Abort>(
    rt: &R,
    rows: &[Row],
) -> Result<(), NoMemory> {
    for (at, row) in rows.iter().enumerate() {
        explores(rt, row, at)?;
        says_the_same(rt, row, at)?;
    }
    Ok(())
}

#[test]
fn programs_are_explored(rt: HostRuntime) -> Result<(), NoMemory> {
    check_rows(&rt, ROWS)
}
