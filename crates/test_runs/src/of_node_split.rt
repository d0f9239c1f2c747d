//! What comes of the run of all assignments of some programs.

ghost use Rattle.std.specs.Prelude.{◌≤◌};

use crate::programs::program_of;
use fork_spec::LeafEnd;
use fork_tree::{Content, Parts, Work};
use leaf_part::{Evidence, LeafPart};
use node_split::Worker;
use query_front::Counts;
use row_files::programs::{CALLED, DIVIDED, FORKED, STRAIGHT};
use std::alloc::Global;
use std::process::Abort;
use std::sync::Wait;
use std::test::Fail;
use sym_state::State;
use tree_core::{Budgets, Cause, Choice, Kid, Order};
use work_gate::OpenGate;

// It jumps to an address to which it adds the bit of 2 of four times its input byte, and exits: LUI x5, 0x11; LBU x7, 0(x5);
// ADD x8, x7, x7; ADD x8, x8, x8; ANDI x8, x8, 2; AUIPC x5, 0; ADD x5, x5, x8; JALR x0, 12(x5); ADDI x17, x0, 93; ECALL.
const ALIKE: [u32; 10] = [
    0x0001_12B7,
    0x0002_C383,
    0x0073_8433,
    0x0084_0433,
    0x0024_7413,
    0x0000_0297,
    0x0082_82B3,
    0x00C2_8067,
    0x05D0_0893,
    0x0000_0073,
];

// It loads a half word at an address to which it adds the low two bits of twice its input byte, and exits with it: LUI x5, 0x11;
// LBU x7, 0(x5); ADD x8, x7, x7; ANDI x8, x8, 3; ADD x5, x5, x8; LHU x10, 6(x5); ADDI x17, x0, 93; ECALL. The address is 0x11006
// or 0x11008: it is even, and on the page of the input.
const LOOKED_UP: [u32; 8] = [
    0x0001_12B7,
    0x0002_C383,
    0x0073_8433,
    0x0034_7413,
    0x0082_82B3,
    0x0062_D503,
    0x05D0_0893,
    0x0000_0073,
];

// The low bit of its input byte is the number of an environment call: LUI x5, 0x11; LBU x7, 0(x5); ANDI x17, x7, 1; ECALL.
const PARITY: [u32; 4] = [0x0001_12B7, 0x0002_C383, 0x0013_F893, 0x0000_0073];

/// What comes of a run: a leaf after so many steps, or kids of these choices.
#[derive(Clone, Copy)]
enum Comes {
    Finished(u32),
    CutSteps(u32),
    Kids(&'static [Choice]),
}

/// Each row: a program, how many steps a run may make, how many values of a term become sides, and what comes of it. No byte divides -7
/// into 1.
const ROWS: [(&[u32], u32, u32, Comes); 8] = [
    (&STRAIGHT, 10, 4, Comes::Finished(3)),
    (&STRAIGHT, 2, 4, Comes::CutSteps(2)),
    (&FORKED, 10, 4, Comes::Kids(&[Choice::No, Choice::Yes])),
    (&DIVIDED, 10, 4, Comes::Finished(8)),
    (&ALIKE, 10, 1, Comes::Finished(10)),
    (&LOOKED_UP, 10, 1, Comes::Finished(8)),
    (
        &PARITY,
        10,
        2,
        Comes::Kids(&[Choice::Value(0), Choice::Value(1)]),
    ),
    (
        &CALLED,
        10,
        2,
        Comes::Kids(&[Choice::Value(0), Choice::Value(1), Choice::Rest]),
    ),
];

// The worker of the program of these words.
fn made(rt: &impl Abort, alloc: Global, words: &[u32], budgets: Budgets) -> Result<Worker, Fail> {
    assert!(rt; budgets.steps <= 1_000_000 && 1 <= budgets.targets);
    let program = program_of(rt, alloc, words)?;
    Ok(Worker::new(alloc, program, budgets)?)
}

// What comes of the run of all assignments.
fn worked(
    rt: &(impl Abort + Wait),
    alloc: Global,
    worker: &Worker,
) -> Result<Parts<State, LeafPart>, Fail> {
    assert!(rt; 1 <= worker.budgets().steps);
    let state = State::first(alloc, worker.program())?;
    Ok(worker.work(rt, alloc, &OpenGate, 0, &state)?)
}

// Whether kids have these choices, and only what is left beside values is a leaf.
fn have(kids: &[Kid<Content<State, LeafPart>>], choices: &[Choice]) -> bool {
    kids.len() == choices.len()
        && kids.iter().zip(choices).all(|(kid, choice)| {
            kid.choice == *choice && kid.is_leaf == (*choice == Choice::Rest)
        })
}

// Whether this is what comes of a run.
fn are(parts: &Parts<State, LeafPart>, comes: Comes) -> bool {
    match (parts, comes) {
        (Parts::Finished(leaf), Comes::Finished(steps)) => leaf.steps() == steps,
        (Parts::CutSteps(leaf), Comes::CutSteps(steps)) => leaf.steps() == steps,
        (Parts::Kids(kids, _), Comes::Kids(choices)) => have(kids, choices),
        _ => false,
    }
}

// Whether this is what comes of the run of all assignments.
fn comes_so(
    rt: &(impl Abort + Wait),
    alloc: Global,
    worker: &Worker,
    comes: Comes,
) -> Result<bool, Fail> {
    let parts = worked(rt, alloc, worker)?;
    Ok(are(&parts, comes))
}

// Whether this is what comes of the run of all assignments of these words.
fn words_come_so(
    rt: &(impl Abort + Wait),
    alloc: Global,
    words: &[u32],
    budgets: Budgets,
    comes: Comes,
) -> Result<bool, Fail> {
    let worker = made(rt, alloc, words, budgets)?;
    comes_so(rt, alloc, &worker, comes)
}

#[test]
fn runs_go_on_until_they_fork_or_end(rt: HostRuntime) -> Result<(), Fail> {
    for (at, &(words, steps, targets, comes)) in ROWS.iter().enumerate() {
        let budgets = Budgets {
            steps,
            targets,
            conflicts: 0,
            nodes: 1,
            order: Order::Deepest,
        };
        let are = words_come_so(&rt, rt.alloc(), words, budgets, comes)?;
        assert!(rt; are, "row {at}");
    }
    Ok(())
}

// What is counted of the questions of a run that is made three times.
fn counted(rt: &(impl Abort + Wait), alloc: Global, worker: &Worker) -> Result<Counts, Fail> {
    for _ in 0..3 {
        drop(worked(rt, alloc, worker)?);
    }
    Ok(worker.counts())
}

// A branch asks about the side on which the sample isn't.
#[test]
fn a_question_that_comes_again_is_counted_so(rt: HostRuntime) -> Result<(), Fail> {
    let budgets = Budgets {
        steps: 10,
        targets: 4,
        conflicts: 0,
        nodes: 1,
        order: Order::Deepest,
    };
    let worker = made(&rt, rt.alloc(), &FORKED, budgets)?;
    let counts = Counts {
        cached: 2,
        sampled: 0,
        decided: 1,
        spent: 0,
    };
    assert!(rt; counted(&rt, rt.alloc(), &worker)? == counts);
    Ok(())
}

// The leaf of the run of all assignments, if it parts where there are so many nodes that it may not.
fn cut_at(
    rt: &(impl Abort + Wait),
    alloc: Global,
    worker: &Worker,
    nodes: u32,
) -> Result<Option<LeafPart>, Fail>
    requires { worker.now.budgets.nodes ≤ nodes }
{
    assert!(rt; 1 <= worker.budgets().steps);
    let state = State::first(alloc, worker.program())?;
    match worker.work(rt, alloc, &OpenGate, 0, &state)? {
        Parts::Kids(_kids, run) => Ok(Some(worker.cut_nodes(alloc, run, nodes)?)),
        Parts::Finished(_) | Parts::CutSteps(_) => Ok(None),
    }
}

// Whether a leaf was cut for want of nodes after so many steps, and shows how many nodes there were, and no assignment.
fn is_by_nodes(leaf: &LeafPart, steps: u32, nodes: u32) -> bool {
    leaf.end() == LeafEnd::Cut(Cause::Nodes)
        && leaf.steps() == steps
        && leaf.sample().is_none()
        && matches!(leaf.evidence(), Some(Evidence::Nodes(shown)) if *shown == nodes)
}

// The branch comes after three steps. The last split may have passed the budget.
#[test]
fn a_run_that_may_not_part_is_cut(rt: HostRuntime) -> Result<(), Fail> {
    let budgets = Budgets {
        steps: 10,
        targets: 4,
        conflicts: 0,
        nodes: 5,
        order: Order::Deepest,
    };
    let worker = made(&rt, rt.alloc(), &FORKED, budgets)?;
    assert!(rt; worker.budgets().nodes <= 7);
    let Some(leaf) = cut_at(&rt, rt.alloc(), &worker, 7)? else {
        panic!(rt; "the run doesn't part");
    };
    assert!(rt; is_by_nodes(&leaf, 3, 7));
    Ok(())
}
