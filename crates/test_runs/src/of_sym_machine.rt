//! Where the run of all assignments of some programs stops first.

use crate::programs::program_of;
use row_files::programs::{ADDED, CALLED, COUNTED, DIVIDED, FORKED, STORED, STRAIGHT};
use rv_decode::Trap;
use std::alloc::Global;
use std::process::Abort;
use std::test::Fail;
use sym_machine::{Stop, advance};
use sym_state::{RunEnd, State};

fn name_of(stop: &Stop) -> &'static str {
    match stop {
        Stop::Branch { .. } => "branch",
        Stop::Pin { place: 1, .. } => "pin",
        Stop::Pin { .. } => "another pin",
        Stop::Ended(RunEnd::Exits) => "exit",
        Stop::Ended(RunEnd::Traps(Trap::Illegal)) => "illegal",
        Stop::Ended(RunEnd::Traps(_)) => "trap",
        Stop::Steps => "steps",
    }
}

// A stop of the run of all assignments in words, and how many steps were made.
fn stops(
    rt: &impl Abort,
    alloc: Global,
    words: &[u32],
    most: u32,
) -> Result<(&'static str, u32), Fail> {
    let program = program_of(rt, alloc, words)?;
    let state = State::first(alloc, &program)?;
    assert!(rt; state.steps() <= most && most <= 1_000_000);
    let advanced = advance(&state, most)?;
    Ok((name_of(&advanced.stop), advanced.run.steps()))
}

// It loads a half word at an address to which it adds its input byte: LUI x5, 0x11; LBU x7, 0(x5); ADD x7, x5, x7; LH x6, 0(x7).
const HALF_ADDED: [u32; 4] = [0x0001_12B7, 0x0002_C383, 0x0072_83B3, 0x0003_9303];

/// Each row: a program, how many steps it may make, where it stops, and after how many. A branch on the input, its quotient or a
/// sum that is an address is not carried out.
const ROWS: [(&[u32], u32, &str, u32); 11] = [
    (&STRAIGHT, 10, "exit", 3),
    (&STRAIGHT, 2, "steps", 2),
    (&FORKED, 10, "branch", 3),
    (&COUNTED, 10, "branch", 2),
    (&CALLED, 10, "pin", 2),
    (&DIVIDED, 10, "branch", 5),
    (&ADDED, 10, "pin", 3),
    (&HALF_ADDED, 10, "pin", 3),
    (&STORED, 10, "branch", 3),
    (&[], 10, "trap", 1),
    (&[0x0000_0013], 10, "illegal", 2),
];

#[test]
fn a_run_stops_where_it_has_to_know(rt: HostRuntime) -> Result<(), Fail> {
    for &(words, most, stop, steps) in &ROWS {
        let (found, made) = stops(&rt, rt.alloc(), words, most)?;
        assert!(rt; found == stop && made == steps, "{stop} after {steps}");
    }
    Ok(())
}
