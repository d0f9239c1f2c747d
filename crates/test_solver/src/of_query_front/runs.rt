//! A run over four input bytes that is asked more than once.

ghost use Rattle.std.specs.Prelude.{◌≡◌, true, IsTrue, IfOk};
ghost use Rattle.bv_dag.specs.Queries.{holds};
ghost use Rattle.sym_state.specs.Symbolic.{condition_of};

use byte_list::Bytes;
use elf_load::{Image, Region, Regions, fit, load};
use query_front::{Asked, Counts, Shared, ask};
use query_pick::pick;
use row_files::row_file;
use rv_decode::Test;
use std::alloc::{AllocError as NoMemory, Global};
use std::process::Abort;
use std::sync::Wait;
use std::test::Fail;
use sym_state::{Program, State, Value, listed};

/// Where the four bytes stand.
const PLACES: Region = Region {
    start: 0x11000,
    count: 4,
};

/// Where the third of them does.
const THIRD: u32 = 0x11002;

/// Where the last of them does.
const FOURTH: u32 = 0x11003;

// A program of one ECALL.
fn image_of(alloc: Global) -> Result<Image, Fail> {
    let file = row_file(alloc, &[0x0000_0073])?;
    Ok(load(alloc, file.as_slice())?)
}

// The program, with the four bytes as its input.
fn program(rt: &impl Abort, alloc: Global) -> Result<Program, Fail> {
    let image = image_of(alloc)?;
    let regions = Regions::from_vec(Vec::from_slice(alloc, &[PLACES])?);
    assert!(rt; fit(&image, &regions).is_ok());
    Ok(Program::new(image, regions))
}

// The run of all its assignments.
fn first(rt: &impl Abort, alloc: Global) -> Result<State, Fail> {
    let program = program(rt, alloc)?;
    Ok(State::first(alloc, &program)?)
}

// The term that the last two bytes, the third lowest, pass a test against a number.
fn passes(state: &mut State, test: Test, number: u32) -> Result<usize, NoMemory> {
    let (low, high) = (state.byte(THIRD), state.byte(FOURTH));
    let value = state.from_half(false, low, high)?;
    state.tested(test, value, Value::Number(number))
}

// Whether the sample of a run meets its condition.
fn is_sampled(alloc: Global, state: &State) -> Result<bool, NoMemory>
    ensures { IfOk result (λ yes. IsTrue yes → holds (condition_of state.now) state.now.sample
        ≡ true) }
{
    let condition = listed(alloc, state.condition())?;
    let query = pick(alloc, state.terms(), &condition)?;
    query.holds(alloc, state.sample().as_slice())
}

// The bytes on which a run goes on where its last two bytes pass a test, if there are any. Its table has the test then.
fn ask_of(
    rt: &(impl Abort + Wait),
    alloc: Global,
    shared: &Shared,
    state: &mut State,
    test: Test,
    number: u32,
) -> Result<Option<Bytes>, Fail> {
    let new = passes(state, test, number)?;
    assert!(rt; new < state.terms().len() && state.terms().width_of(new) == 1);
    assert!(rt; is_sampled(alloc, state)?);
    let condition = listed(alloc, state.condition())?;
    let terms = state.terms();
    match ask(
        rt,
        alloc,
        shared,
        terms,
        condition,
        state.sample(),
        new,
        100,
    )? {
        Asked::Sat(bytes) => Ok(Some(bytes)),
        Asked::Unsat => Ok(None),
        Asked::Spent(_, _) => Err(Fail::new("the budget was spent")),
    }
}

// The same, of a share of the run.
fn asked(
    rt: &(impl Abort + Wait),
    alloc: Global,
    shared: &Shared,
    state: &State,
    test: Test,
    number: u32,
) -> Result<Option<Bytes>, Fail> {
    let mut state = state.share()?;
    ask_of(rt, alloc, shared, &mut state, test, number)
}

/// Each question, and whether some bytes answer it: always 0, 0, 5 and 0. The first and the last are decided, the second was
/// asked before, and the third is met by what the first found.
const QUESTIONS: &[(Test, u32, bool)] = &[
    (Test::Beq, 5, true),
    (Test::Beq, 5, true),
    (Test::Bne, 0, true),
    (Test::Bgeu, 65536, false),
];

// Whether some bytes answer a question. They are always the same.
fn is_met(
    rt: &(impl Abort + Wait),
    alloc: Global,
    shared: &Shared,
    state: &State,
    test: Test,
    number: u32,
) -> Result<bool, Fail> {
    let Some(bytes) = asked(rt, alloc, shared, state, test, number)? else {
        return Ok(false);
    };
    assert_eq!(rt; bytes.as_slice(), [0, 0, 5, 0].as_slice());
    Ok(true)
}

// What the questions find, asked of one run after the other.
fn check_questions(
    rt: &(impl Abort + Wait),
    alloc: Global,
    shared: &Shared,
    state: &State,
) -> Result<(), Fail> {
    for (test, number, want) in QUESTIONS {
        assert_eq!(rt; is_met(rt, alloc, shared, state, *test, *number)?, *want);
    }
    Ok(())
}

#[test]
fn what_was_found_serves_again(rt: HostRuntime) -> Result<(), Fail> {
    let shared = Shared::new(rt.alloc())?;
    let state = first(&rt, rt.alloc())?;
    check_questions(&rt, rt.alloc(), &shared, &state)?;
    let counts = Counts {
        cached: 1,
        sampled: 1,
        decided: 2,
        spent: 0,
    };
    assert_eq!(rt; shared.counts(), counts);
    Ok(())
}
