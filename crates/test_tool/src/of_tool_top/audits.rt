//! Certificates that are audited: the status, the line said, and how many names are read.

use crate::certificates::THREE_LEAVES;
use crate::of_tool_top::runs::{Held, USAGE, answers, counts, files_of, hold_blanks};
use row_files::programs::COMPARED;
use std::alloc::AllocError as NoMemory;
use std::process::Abort;
use std::sync::Wait;
use std::thread::Threads;
use work_gate::OpenGate;

const AUDIT: &[&str] = &["rvklee", "audit", "p.elf", "cert.txt"];

const NOT_THERE: &[&str] = &["rvklee", "audit", "p.elf", "other.txt"];

const WITHOUT_CERT: &[&str] = &["rvklee", "audit", "p.elf"];

const COMPARES: Held = Held::Program(&COMPARED);

const YES: &str = "audit yes leaves 3 finished 3 cut 0\n";

const FAULT: &str = "read fault\n";

// What stands in the certificate of three leaves, and what in its place.
type Change = (&'static str, &'static str);

const AS_IT_IS: Change = ("", "");

// The words, what p.elf is, how the certificate is changed, the call that fails, the status, what is said, and how many names are read.
type Row = (
    &'static [&'static str],
    Held,
    Change,
    u64,
    u8,
    &'static str,
    usize,
);

const ROWS: &[Row] = &[
    (AUDIT, COMPARES, AS_IT_IS, 9, 0, YES, 2),
    (
        AUDIT,
        COMPARES,
        ("one Y", "one N"),
        9,
        1,
        "audit no 6 7\n",
        2,
    ),
    (
        AUDIT,
        COMPARES,
        ("15\nend 0a\n", "15\nend 0b\n"),
        9,
        0,
        YES,
        2,
    ),
    (
        AUDIT,
        COMPARES,
        ("end 15\nend 0a", "end 0a\nend 0a"),
        9,
        1,
        "audit no 9 5\n",
        2,
    ),
    (
        AUDIT,
        COMPARES,
        ("end 0a\n", ""),
        9,
        1,
        "audit no 10 2\n",
        2,
    ),
    (
        AUDIT,
        COMPARES,
        ("end 0a\n", "end 0a\nend 0a\n"),
        9,
        1,
        "audit no 11 2\n",
        2,
    ),
    (
        AUDIT,
        COMPARES,
        ("00011000:1", "00020000:1"),
        9,
        1,
        "audit no 2 6\n",
        2,
    ),
    (
        AUDIT,
        COMPARES,
        ("cert 1", "cert 2"),
        9,
        1,
        "audit no 1 1\n",
        2,
    ),
    (
        AUDIT,
        COMPARES,
        ("end 0a\n", "end 0a"),
        9,
        1,
        "audit no 10 1\n",
        2,
    ),
    (
        AUDIT,
        Held::Empty,
        AS_IT_IS,
        9,
        3,
        "program refused 2 Short\n",
        2,
    ),
    (
        AUDIT,
        Held::Empty,
        ("cert 1", "cert 2"),
        9,
        3,
        "program refused 2 Short\n",
        2,
    ),
    (WITHOUT_CERT, COMPARES, AS_IT_IS, 9, 2, USAGE, 0),
    (AUDIT, Held::Missing, AS_IT_IS, 9, 5, FAULT, 1),
    (NOT_THERE, COMPARES, AS_IT_IS, 9, 5, FAULT, 2),
    (AUDIT, COMPARES, AS_IT_IS, 1, 5, FAULT, 1),
    (AUDIT, COMPARES, AS_IT_IS, 2, 5, FAULT, 2),
    // Where the line can't be said, a no stands, and a yes doesn't.
    (AUDIT, COMPARES, AS_IT_IS, 3, 6, "", 2),
    (AUDIT, COMPARES, ("one Y", "one N"), 3, 1, "", 2),
];

fn audits<R: Threads + Wait + Sync + AllocGlobal + Abort>(
    rt: &R,
    &(words, ref program, (old, new), to_fail, status, said, names): &Row,
    row: usize,
) -> Result<(), NoMemory> {
    let certificate = THREE_LEAVES.replace(rt.alloc(), old, new)?;
    let mut files = files_of(rt, program, &[to_fail])?;
    files.hold("cert.txt", certificate.as_bytes())?;
    answers(rt, words, &mut files, &OpenGate, (status, said), row)?;
    counts(rt, &files, (names, 0), row);
    Ok(())
}

#[test]
fn certificates_are_audited(rt: HostRuntime) -> Result<(), NoMemory> {
    for (at, row) in ROWS.iter().enumerate() {
        audits(&rt, row, at)?;
    }
    Ok(())
}

#[test]
fn a_certificate_too_long_is_at_fault_before_its_first_line(
    rt: HostRuntime,
) -> Result<(), NoMemory> {
    for (count, said) in [
        (67_108_864, "audit no 1 1\n"),
        (67_108_865, "audit no 0 1\n"),
    ] {
        let mut files = files_of(&rt, &COMPARES, &[])?;
        hold_blanks(rt.alloc(), &mut files, "cert.txt", count)?;
        answers(&rt, AUDIT, &mut files, &OpenGate, (1, said), 0)?;
    }
    Ok(())
}
