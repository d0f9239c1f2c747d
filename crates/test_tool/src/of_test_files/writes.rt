//! The text of a test, byte for byte, in format 2.

use byte_list::Bytes;
use elf_load::{Region, Regions};
use rv_decode::{End, PathStep, Trap};
use std::alloc::{AllocError as NoMemory, Global};
use std::test::Fail;
use test_files::{Test, write_test};

pub(super) const ENDED: &str =
    "{\"end\":\"exit 7\",\"format\":2,\"inputs\":[{\"at\":\"00011000\",\"bytes\":\"00\"}],\"leaf\":0,\"output\":\"\",\"path\":\"\",\"steps\":3}\n";

pub(super) const TRAPPED: &str =
    "{\"end\":\"trap LoadAccess\",\"format\":2,\"inputs\":[{\"at\":\"00011000\",\"bytes\":\"00\"},{\"at\":\"fffffffe\",\"bytes\":\"ff41\"}],\"leaf\":12,\"output\":\"0a\",\"path\":\"TN@00010028\",\"steps\":4}\n";

pub(super) const RUNNING: &str =
    "{\"end\":\"running\",\"format\":2,\"inputs\":[{\"at\":\"00011000\",\"bytes\":\"10\"}],\"leaf\":0,\"output\":\"\",\"path\":\"N\",\"steps\":50}\n";

/// What a test says.
struct Said {
    leaf: usize,
    regions: &'static [Region],
    input: &'static [u8],
    steps: u32,
    path: &'static [PathStep],
    end: Option<End>,
    output: &'static [u8],
}

static EXITS: Said = Said {
    leaf: 0,
    regions: &[Region {
        start: 0x0001_1000,
        count: 1,
    }],
    input: &[0],
    steps: 3,
    path: &[],
    end: Some(End::Exit(7)),
    output: &[],
};

static RUNS: Said = Said {
    leaf: 0,
    regions: &[Region {
        start: 0x0001_1000,
        count: 1,
    }],
    input: &[0x10],
    steps: 50,
    path: &[PathStep::NotTaken],
    end: None,
    output: &[],
};

static TRAPS: Said = Said {
    leaf: 12,
    regions: &[
        Region {
            start: 0x0001_1000,
            count: 1,
        },
        Region {
            start: 0xffff_fffe,
            count: 2,
        },
    ],
    input: &[0x00, 0xff, 0x41],
    steps: 4,
    path: &[
        PathStep::Taken,
        PathStep::NotTaken,
        PathStep::Target(0x0001_0028),
    ],
    end: Some(End::Trapped(Trap::LoadAccess)),
    output: &[0x0a],
};

/// The test that says so.
fn test(alloc: Global, said: &Said) -> Result<Test, NoMemory> {
    Ok(Test {
        leaf: said.leaf,
        regions: Regions::from_vec(Vec::from_slice(alloc, said.regions)?),
        input: Bytes::from_slice(alloc, said.input)?,
        steps: said.steps,
        path: Vec::from_slice(alloc, said.path)?,
        end: said.end,
        output: Bytes::from_slice(alloc, said.output)?,
    })
}

/// Its text.
fn text(alloc: Global, said: &Said) -> Result<Bytes, NoMemory> {
    let test = test(alloc, said)?;
    write_test(alloc, &test)
}

#[test]
fn a_test_that_exits_is_written(rt: HostRuntime) -> Result<(), Fail> {
    assert_eq!(rt; text(rt.alloc(), &EXITS)?.as_slice(), ENDED.as_bytes());
    Ok(())
}

#[test]
fn a_test_that_still_runs_is_written(rt: HostRuntime) -> Result<(), Fail> {
    assert_eq!(rt; text(rt.alloc(), &RUNS)?.as_slice(), RUNNING.as_bytes());
    Ok(())
}

#[test]
fn a_test_that_traps_is_written(rt: HostRuntime) -> Result<(), Fail> {
    assert_eq!(rt; text(rt.alloc(), &TRAPS)?.as_slice(), TRAPPED.as_bytes());
    Ok(())
}
