//! Runs by several workers, and by several at once.

use crate::of_tool_top::runs::{
    Held, SUMMARY, answers, check, count_lines, counts, files, files_of,
};
use row_files::programs::{COMPARED, FORKED};
use std::alloc::AllocError as NoMemory;
use std::process::Abort;
use std::sync::Wait;
use std::thread::Threads;
use tool_io::MemFiles;
use work_gate::{DropGate, Gate, MeetGate, Next, OpenGate, Point};

const BY_TWO: &[&str] = &[
    "rvklee",
    "explore",
    "--workers",
    "2",
    "p.elf",
    "out",
    "00011000:1",
];

const BENCH: &[&str] = &["rvklee", "bench", "8", "2", "out"];

// Benches of one worker, of as many as there are input bytes, and of a program with a mebibyte of data, with what they say.
const BENCHES: &[(&[&str], &str)] = &[
    (
        &["rvklee", "bench", "1", "1", "out"],
        "bench 1 leaves 2 finished 2 cut 0 tests 2 steps 29\n",
    ),
    (&["rvklee", "bench", "8", "1", "out"], BENCH_SAYS),
    (&["rvklee", "bench", "8", "8", "out"], BENCH_SAYS),
    (
        &["rvklee", "bench", "12", "4", "out"],
        "bench 12 leaves 4096 finished 4096 cut 0 tests 4096 steps 262144\n",
    ),
];

// The summary of `COMPARED`, whoever works at it.
const COMPARED_SAYS: &str = "leaves 3 finished 3 cut 0 tests 3 steps 26\n";

const BENCH_SAYS: &str = "bench 8 leaves 256 finished 256 cut 0 tests 256 steps 11776\n";

// Two workers of this run are held at once, and neither is held up to the limit.
fn meet<R: Threads + Wait + Sync + AllocGlobal + Abort>(
    rt: &R,
    words: &[&str],
    held: &mut MemFiles,
    said: &str,
) -> Result<(), NoMemory> {
    let gate = MeetGate::new();
    answers(rt, words, held, &gate, (0, said), 0)?;
    check(rt, gate.have_met(), 0, "whether they met");
    check(
        rt,
        !gate.was_limit_reached(),
        0,
        "whether they were held up to the limit",
    );
    Ok(())
}

// Two workers have one kid of the root each at the same time: one alone would be held up to the limit.
#[test]
fn two_workers_meet(rt: HostRuntime) -> Result<(), NoMemory> {
    let mut held = files(&rt, &COMPARED, &[])?;
    meet(&rt, BY_TWO, &mut held, COMPARED_SAYS)
}

#[test]
fn a_bench_is_explored_by_two_at_once(rt: HostRuntime) -> Result<(), NoMemory> {
    let mut held = files_of(&rt, &Held::Missing, &[])?;
    meet(&rt, BENCH, &mut held, BENCH_SAYS)?;
    counts(&rt, &held, (0, 514), 0);
    Ok(())
}

// What a bench says is the same each time, whatever its number of workers.
#[test]
fn benches_say_the_same_again(rt: HostRuntime) -> Result<(), NoMemory> {
    for (row, &(words, said)) in BENCHES.iter().chain(BENCHES.iter()).enumerate() {
        let mut held = files_of(&rt, &Held::Missing, &[])?;
        answers(&rt, words, &mut held, &OpenGate, (0, said), row)?;
    }
    Ok(())
}

// At most one node was given up, and by this worker, 0 or 1.
fn check_releases(rt: &impl Abort, held: &MemFiles, worker: u32, row: usize) {
    let Some(events) = held.puts().first() else {
        return check(rt, false, row, "whether there are files");
    };
    let by: &[u8] = if worker == 0 {
        b"release 0 "
    } else {
        b"release 1 "
    };
    let all = count_lines(events.bytes(), b"release ");
    let own = count_lines(events.bytes(), by);
    check(rt, events.name() == "out/events.txt", row, "the events");
    check(
        rt,
        all == own && all < 2,
        row,
        "how many nodes are given up",
    );
}

// What a worker leaves is worked by another: the same is said.
fn says_without<R: Threads + Wait + Sync + AllocGlobal + Abort>(
    rt: &R,
    words: &[&str],
    held: &mut MemFiles,
    gate: DropGate,
    said: &str,
    row: usize,
) -> Result<(), NoMemory> {
    answers(rt, words, held, &gate, (0, said), row)?;
    check_releases(rt, held, gate.worker, row);
    Ok(())
}

#[test]
fn a_worker_leaves(rt: HostRuntime) -> Result<(), NoMemory> {
    let mut held = files(&rt, &COMPARED, &[])?;
    says_without(&rt, BY_TWO, &mut held, LAST, COMPARED_SAYS, 0)
}

#[test]
fn a_worker_leaves_a_bench(rt: HostRuntime) -> Result<(), NoMemory> {
    let mut held = files_of(&rt, &Held::Missing, &[])?;
    says_without(&rt, BENCH, &mut held, LAST, BENCH_SAYS, 1)
}

// Worker 1 leaves before it enters what came of a node.
const LAST: DropGate = DropGate {
    worker: 1,
    point: Point::BeforeGive,
};

const SMALL_BENCH: &[&str] = &["rvklee", "bench", "4", "2", "out"];

const SMALL_BENCH_SAYS: &str = "bench 4 leaves 16 finished 16 cut 0 tests 16 steps 448\n";

// Each of two workers at each point at which one may leave.
const LEAVES: [(u32, Point); 8] = [
    (0, Point::AfterClaim),
    (0, Point::BeforeGive),
    (0, Point::AfterGive),
    (0, Point::Idle),
    (1, Point::AfterClaim),
    (1, Point::BeforeGive),
    (1, Point::AfterGive),
    (1, Point::Idle),
];

#[test]
fn either_worker_leaves_anywhere(rt: HostRuntime) -> Result<(), NoMemory> {
    for (row, &(worker, point)) in LEAVES.iter().enumerate() {
        let gate = DropGate { worker, point };
        let mut held = files_of(&rt, &Held::Missing, &[])?;
        says_without(&rt, SMALL_BENCH, &mut held, gate, SMALL_BENCH_SAYS, row)?;
    }
    Ok(())
}

/// Lets each worker leave behind its first claim.
#[derive(Clone, Copy)]
struct LeaveGate;

impl Gate for LeaveGate {
    ghost use Rattle.std.specs.Prelude.{◌≡◌};
    ghost use Rattle.work_gate.specs.declared.point.Point.TheVariants.{AfterClaim};

    ghost may_leave = { λ _ _ point. point ≡ AfterClaim };

    fn reached(&self, _worker: u32, point: Point) -> Next {
        if matches!(point, Point::AfterClaim) {
            Next::Leave
        } else {
            Next::Go
        }
    }
}

// Both workers leave the root, one and then the other, and worker 0 drains the tree.
const BOTH_LEAVE: [&[u8]; 2] = [
    b"claim 0 0\nrelease 0 0\nclaim 1 0\nrelease 1 0\nclaim 0 0\n",
    b"claim 1 0\nrelease 1 0\nclaim 0 0\nrelease 0 0\nclaim 0 0\n",
];

#[test]
fn both_workers_leave(rt: HostRuntime) -> Result<(), NoMemory> {
    let mut held = files(&rt, &FORKED, &[])?;
    answers(&rt, BY_TWO, &mut held, &LeaveGate, (0, SUMMARY), 0)?;
    let is_drained = held.puts().first().is_some_and(|events| BOTH_LEAVE
        .iter()
        .any(|begin| events.bytes().starts_with(begin)));
    check(&rt, is_drained, 0, "how the events begin");
    Ok(())
}
