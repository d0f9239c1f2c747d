//! Tests that are as their run, and tests that differ from it in one thing.

ghost use Rattle.std.specs.Prelude.{◌≡◌, IfOk, length};
ghost use Rattle.rv_spec.specs.Memory.{count_of};

use byte_list::Bytes;
use elf_load::{Image, Region, Regions, load};
use replay_core::{Replayed, replay, write_difference};
use row_files::{programs, row_file};
use rv_decode::{End, PathStep};
use std::alloc::{AllocError as NoMemory, Global};
use std::process::Abort;
use std::test::Fail;
use test_files::Test;

// The input byte, and what a test says: the steps, the path, the exit status, the output.
type Said = (u8, u32, PathStep, u8, &'static [u8]);

// Of the program that exits with 1 where its input byte is 'A', and else with 0.
static SAME: [Said; 2] = [
    (0x41, 7, PathStep::Taken, 1, &[]),
    (0, 6, PathStep::NotTaken, 0, &[]),
];

static OTHER: [Said; 4] = [
    (0x41, 8, PathStep::Taken, 1, &[]),
    (0x41, 7, PathStep::NotTaken, 1, &[]),
    (0x41, 7, PathStep::Taken, 0, &[]),
    (0x41, 7, PathStep::Taken, 1, &[0x41]),
];

const LINES: &[u8] = b"differs\nend exit 1\nsteps 7\npath T.\noutput .\n";

fn forked(alloc: Global) -> Result<Image, Fail> {
    let file = row_file(alloc, &programs::FORKED)?;
    let image = load(alloc, file.as_slice()).ok().ok_or("the file loads")?;
    Ok(image)
}

fn test(alloc: Global, said: &Said) -> Result<Test, NoMemory>
    ensures { IfOk result (λ test. length test.input ≡ count_of test.regions) }
{
    let (input, steps, path, status, output) = *said;
    let region = Region {
        start: 0x11000,
        count: 1,
    };
    Ok(Test {
        leaf: 0,
        regions: Regions::from_vec(Vec::from_slice(alloc, &[region])?),
        input: Bytes::from_slice(alloc, &[input])?,
        steps,
        path: Vec::from_slice(alloc, &[path])?,
        end: Some(End::Exit(status)),
        output: Bytes::from_slice(alloc, output)?,
    })
}

// The test is run, where its region fits.
fn run(rt: &impl Abort, alloc: Global, image: &Image, said: &Said) -> Result<Replayed, NoMemory> {
    let test = test(alloc, said)?;
    assert!(rt; elf_load::fit(image, &test.regions).is_ok());
    replay(alloc, image, &test)
}

// Whether the run is as the test says.
fn is_same(rt: &impl Abort, alloc: Global, image: &Image, said: &Said) -> Result<bool, NoMemory> {
    Ok(matches!(run(rt, alloc, image, said)?, Replayed::Same))
}

// Whether the run differs from the test, and is written so.
fn differs(rt: &impl Abort, alloc: Global, image: &Image, said: &Said) -> Result<bool, NoMemory> {
    match run(rt, alloc, image, said)? {
        Replayed::Same => Ok(false),
        Replayed::Differs(ran) => {
            let lines = write_difference(alloc, &ran)?;
            Ok(lines.as_slice() == LINES)
        }
    }
}

// Whether all tests are as they are meant to be.
fn are_so(rt: &impl Abort, alloc: Global, image: &Image) -> Result<bool, NoMemory> {
    for said in &SAME {
        if !is_same(rt, alloc, image, said)? {
            return Ok(false);
        }
    }
    for said in &OTHER {
        if !differs(rt, alloc, image, said)? {
            return Ok(false);
        }
    }
    Ok(true)
}

#[test]
fn a_test_is_the_same_where_all_is(rt: HostRuntime) -> Result<(), Fail> {
    let image = forked(rt.alloc())?;
    assert!(rt; are_so(&rt, rt.alloc(), &image)?);
    Ok(())
}
