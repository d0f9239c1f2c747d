//! Tests that are upgraded: the status, the line said, and the file put.

use crate::of_tool_top::runs::{USAGE, answers, check, counts};
use std::alloc::AllocError as NoMemory;
use std::process::Abort;
use std::sync::Wait;
use std::thread::Threads;
use tool_io::{MemFiles, NamedFile};
use work_gate::OpenGate;

const UPGRADE: &[&str] = &["rvklee", "upgrade", "t.json", "new.json"];

const IN_PLACE: &[&str] = &["rvklee", "upgrade", "t.json", "t.json"];

const NOT_THERE: &[&str] = &["rvklee", "upgrade", "other.json", "new.json"];

const WITHOUT_OUT: &[&str] = &["rvklee", "upgrade", "t.json"];

const JOINED: &str =
    "{\"end\":\"exit 7\",\"format\":1,\"input\":\"00\",\"leaf\":0,\"output\":\"\",\"path\":\"\",\"regions\":[\"00011000:1\"],\"steps\":3}\n";

const APART: &str =
    "{\"end\":\"exit 7\",\"format\":2,\"inputs\":[{\"at\":\"00011000\",\"bytes\":\"00\"}],\"leaf\":0,\"output\":\"\",\"path\":\"\",\"steps\":3}\n";

const NO_REGION: &str =
    "{\"end\":\"exit 7\",\"format\":1,\"input\":\"\",\"leaf\":0,\"output\":\"\",\"path\":\"\",\"regions\":[],\"steps\":3}\n";

// The words, what t.json holds, the call that fails, the status, what is said, and how many names are read and files put.
type Row = (
    &'static [&'static str],
    &'static str,
    u64,
    u8,
    &'static str,
    usize,
    usize,
);

const ROWS: &[Row] = &[
    (UPGRADE, JOINED, 9, 0, "upgraded\n", 1, 1),
    (UPGRADE, APART, 9, 0, "upgraded\n", 1, 1),
    (IN_PLACE, JOINED, 9, 0, "upgraded\n", 1, 1),
    (WITHOUT_OUT, JOINED, 9, 2, USAGE, 0, 0),
    (NOT_THERE, JOINED, 9, 5, "read fault\n", 1, 0),
    (UPGRADE, JOINED, 1, 5, "read fault\n", 1, 0),
    // The put fails, and then the line.
    (UPGRADE, JOINED, 2, 6, "", 1, 0),
    (UPGRADE, JOINED, 3, 6, "", 1, 1),
    (UPGRADE, "", 9, 7, "test refused 1 NotJson\n", 1, 0),
    (UPGRADE, "{}", 9, 7, "test refused 2 Missing\n", 1, 0),
    (UPGRADE, NO_REGION, 9, 7, "test refused 5 Length\n", 1, 0),
    (UPGRADE, NO_REGION, 2, 7, "", 1, 0),
];

// Whether the files that were put are the test in format 2, or none.
fn are_upgraded(puts: &[NamedFile], name: &str) -> bool {
    match puts.first() {
        Some(file) => file.name() == name && file.bytes() == APART.as_bytes(),
        None => true,
    }
}

fn upgrades<R: Threads + Wait + Sync + AllocGlobal + Abort>(
    rt: &R,
    &(words, test, to_fail, status, said, names, puts): &Row,
    row: usize,
) -> Result<(), NoMemory> {
    let mut files = MemFiles::new(rt.alloc(), Vec::from_slice(rt.alloc(), &[to_fail])?);
    files.hold("t.json", test.as_bytes())?;
    answers(rt, words, &mut files, &OpenGate, (status, said), row)?;
    counts(rt, &files, (names, puts), row);
    let name = words.last().copied().unwrap_or("");
    check(rt, are_upgraded(files.puts(), name), row, "what is put");
    Ok(())
}

#[test]
fn tests_are_upgraded(rt: HostRuntime) -> Result<(), NoMemory> {
    for (at, row) in ROWS.iter().enumerate() {
        upgrades(&rt, row, at)?;
    }
    Ok(())
}
