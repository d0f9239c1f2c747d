//! Tests that are replayed: the status, the line said, and how many names are read.

use crate::of_tool_top::runs::{FORKS, Held, answers, check, counts, files, files_of, hold_blanks};
use row_files::programs::{FORKED, STRAIGHT};
use std::alloc::AllocError as NoMemory;
use std::process::Abort;
use std::sync::Wait;
use std::thread::Threads;
use work_gate::OpenGate;

const REPLAY: &[&str] = &["rvklee", "replay", "p.elf", "t.json"];

const GOES_STRAIGHT: Held = Held::Program(&STRAIGHT);

// What p.elf is, the test's text, the status and what is said.
type Row = (Held, &'static str, u8, &'static str);

const ROWS: &[Row] = &[
    (
        FORKS,
        r#"{"end":"exit 1","format":1,"input":"41","leaf":1,"output":"","path":"T","regions":["00011000:1"],"steps":7}"#,
        0,
        "same\n",
    ),
    (
        FORKS,
        r#"{"end":"exit 1","format":2,"inputs":[{"at":"00011000","bytes":"41"}],"leaf":1,"output":"","path":"T","steps":7}"#,
        0,
        "same\n",
    ),
    // Keys in another order, and one more; hexadecimal digits of either case are taken.
    (
        FORKS,
        r#"{"steps":7,"regions":["00011000:1"],"more":[1,{}],"path":"N","output":"","leaf":0,"input":"aF","format":1,"end":"exit 0"}"#,
        1,
        "differs\nend exit 0\nsteps 6\npath N.\noutput .\n",
    ),
    (
        FORKS,
        r#"{"end":"exit 1","format":2,"inputs":[{"at":"00011000","bytes":"42"}],"leaf":1,"output":"","path":"T","steps":7}"#,
        1,
        "differs\nend exit 0\nsteps 6\npath N.\noutput .\n",
    ),
    (
        FORKS,
        r#"{"end":"running","format":2,"inputs":[{"at":"00011000","bytes":"41"}],"leaf":1,"output":"","path":"T","steps":4}"#,
        0,
        "same\n",
    ),
    (
        FORKS,
        r#"{"end":"exit 1","format":2,"inputs":[{"at":"00011000","bytes":"4"}],"leaf":1,"output":"","path":"T","steps":7}"#,
        7,
        "test refused 4 Hex\n",
    ),
    (
        FORKS,
        r#"{"end":"exit 1","format":1,"input":"4142","leaf":1,"output":"","path":"T","regions":["00011000:1"],"steps":7}"#,
        7,
        "test refused 5 Length\n",
    ),
    // In format 2 a region has as many places as bytes.
    (
        FORKS,
        r#"{"end":"exit 1","format":2,"inputs":[{"at":"00011000","bytes":"4142"}],"leaf":1,"output":"","path":"T","steps":7}"#,
        0,
        "same\n",
    ),
    (
        FORKS,
        r#"{"end":"exit 1","format":2,"inputs":[{"at":"00011000","bytes":""}],"leaf":1,"output":"","path":"T","steps":7}"#,
        7,
        "test refused 5 Length\n",
    ),
    (FORKS, "", 7, "test refused 1 NotJson\n"),
    (FORKS, "{}", 7, "test refused 2 Missing\n"),
    (FORKS, "[]", 7, "test refused 3 Kind\n"),
    (
        FORKS,
        r#"{"end":"exit 1","format":7,"leaf":1,"output":"","path":"T","regions":["00011000:1"],"steps":7}"#,
        7,
        "test refused 3 Kind\n",
    ),
    // Regions as for explore, but that a test of format 1 may have none.
    (
        FORKS,
        r#"{"end":"exit 1","format":1,"input":"41","leaf":1,"output":"","path":"T","regions":["00012000:1"],"steps":7}"#,
        4,
        "inputs refused 4 Unmapped\n",
    ),
    (
        FORKS,
        r#"{"end":"exit 1","format":1,"input":"4142","leaf":1,"output":"","path":"T","regions":["00011000:1","00011001:1"],"steps":7}"#,
        0,
        "same\n",
    ),
    // The input byte is one of the first instruction, 0x000112B7, which is LUI x5, 0x41011 then; no page is at 0x41011000, from where
    // the second loads.
    (
        FORKS,
        r#"{"end":"exit 1","format":1,"input":"41","leaf":1,"output":"","path":"T","regions":["00010003:1"],"steps":7}"#,
        1,
        "differs\nend trap LoadAccess\nsteps 2\npath .\noutput .\n",
    ),
    (
        GOES_STRAIGHT,
        r#"{"end":"exit 7","format":1,"input":"","leaf":0,"output":"","path":"","regions":[],"steps":3}"#,
        0,
        "same\n",
    ),
    // The program is looked at first.
    (Held::Empty, "[]", 3, "program refused 2 Short\n"),
];

fn replays<R: Threads + Wait + Sync + AllocGlobal + Abort>(
    rt: &R,
    &(ref held, test, status, said): &Row,
    row: usize,
) -> Result<(), NoMemory> {
    let mut files = files_of(rt, held, &[])?;
    files.hold("t.json", test.as_bytes())?;
    answers(rt, REPLAY, &mut files, &OpenGate, (status, said), row)?;
    counts(rt, &files, (2, 0), row);
    Ok(())
}

#[test]
fn tests_are_replayed(rt: HostRuntime) -> Result<(), NoMemory> {
    for (at, row) in ROWS.iter().enumerate() {
        replays(&rt, row, at)?;
    }
    Ok(())
}

#[test]
fn a_test_too_big_is_refused(rt: HostRuntime) -> Result<(), NoMemory> {
    let mut files = files(&rt, &FORKED, &[])?;
    // One byte more than is read.
    hold_blanks(rt.alloc(), &mut files, "t.json", 16_777_217)?;
    answers(
        &rt,
        REPLAY,
        &mut files,
        &OpenGate,
        (7, "test refused 6 TooBig\n"),
        0,
    )
}

#[test]
fn a_name_that_holds_nothing_is_a_read_fault(rt: HostRuntime) -> Result<(), NoMemory> {
    let mut files = files(&rt, &FORKED, &[])?;
    answers(&rt, REPLAY, &mut files, &OpenGate, (5, "read fault\n"), 0)?;
    check(&rt, files.names().len() == 2, 0, "how many names are read");
    Ok(())
}
