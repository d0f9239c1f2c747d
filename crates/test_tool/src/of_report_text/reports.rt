//! The JSON text of reports and the line said of them, byte for byte.

ghost use Rattle.std.specs.Prelude.{◌<◌, ◌^◌, length};

use byte_list::Bytes;
use elf_load::{Region, Regions};
use fork_spec::LeafEnd;
use report_text::{Reported, report_name, summarize, summary_line, write_report};
use rv_decode::Trap;
use std::alloc::{AllocError as NoMemory, Global};
use std::test::Fail;
use tree_core::{Budgets, Cause, Choice, Order};

static ONE_LEAF: &str =
    "{\"budgets\":{\"conflicts\":2000,\"nodes\":1000000,\"order\":\"deepest\",\"steps\":10000,\"targets\":16,\"workers\":1},\"leaves\":[{\"choices\":\"\",\"end\":\"exit\",\"kind\":\"finished\",\"node\":0,\"steps\":3}],\"regions\":[\"00011000:1\"],\"summary\":{\"cut\":0,\"finished\":1,\"leaves\":1,\"steps\":3,\"tests\":1}}\n";

static TWO_LEAVES: &str =
    "{\"budgets\":{\"conflicts\":2000,\"nodes\":1000000,\"order\":\"deepest\",\"steps\":10000,\"targets\":16,\"workers\":1},\"leaves\":[{\"choices\":\"N\",\"end\":\"exit\",\"kind\":\"finished\",\"node\":1,\"steps\":6},{\"choices\":\"Y\",\"end\":\"exit\",\"kind\":\"finished\",\"node\":2,\"steps\":7}],\"regions\":[\"00011000:1\"],\"summary\":{\"cut\":0,\"finished\":2,\"leaves\":2,\"steps\":13,\"tests\":2}}\n";

static CUT: &str =
    "{\"budgets\":{\"conflicts\":2000,\"nodes\":1000000,\"order\":\"deepest\",\"steps\":10000,\"targets\":16,\"workers\":1},\"leaves\":[{\"choices\":\"N\",\"end\":\"LoadAccess\",\"kind\":\"finished\",\"node\":1,\"steps\":4},{\"choices\":\"Y=0001002a\",\"end\":\"running\",\"kind\":\"steps\",\"node\":3,\"steps\":10000},{\"choices\":\"Y=0001002c\",\"end\":\"running\",\"kind\":\"nodes\",\"node\":4,\"steps\":8},{\"choices\":\"YR\",\"end\":\"running\",\"kind\":\"conflicts\",\"node\":5,\"steps\":9}],\"regions\":[\"00011000:1\"],\"summary\":{\"cut\":3,\"finished\":1,\"leaves\":4,\"steps\":4,\"tests\":2}}\n";

static BUDGETS: Budgets = Budgets {
    steps: 10_000,
    targets: 16,
    conflicts: 2_000,
    nodes: 1_000_000,
    order: Order::Deepest,
};

/// What a report says of a leaf.
#[derive(Clone, Copy)]
struct Shown {
    choices: &'static [Choice],
    steps: u32,
    end: LeafEnd,
    node: usize,
}

impl Reported for Shown {
    ghost use Rattle.std.specs.Prelude.{[]};

    ghost leaf_node = { λ s. record {
      leaf = record {
        choices = s.choices.now;
        path = [];
        steps = s.steps;
        end = s.end;
        condition = record { graph = record { inputs = 0; nodes = [] }; asserted = [] };
        outputs = [];
      };
      node = s.node;
    } };

    fn choices(&self) -> &[Choice] {
        self.choices
    }

    fn steps(&self) -> u32 {
        self.steps
    }

    fn end(&self) -> LeafEnd {
        self.end
    }

    fn node(&self) -> usize {
        self.node
    }
}

static ONE: [Shown; 1] = [Shown {
    choices: &[],
    steps: 3,
    end: LeafEnd::Exits { status: 0 },
    node: 0,
}];

static TWO: [Shown; 2] = [
    Shown {
        choices: &[Choice::No],
        steps: 6,
        end: LeafEnd::Exits { status: 0 },
        node: 1,
    },
    Shown {
        choices: &[Choice::Yes],
        steps: 7,
        end: LeafEnd::Exits { status: 0 },
        node: 2,
    },
];

static SOME_CUT: [Shown; 4] = [
    Shown {
        choices: &[Choice::No],
        steps: 4,
        end: LeafEnd::Traps(Trap::LoadAccess),
        node: 1,
    },
    Shown {
        choices: &[Choice::Yes, Choice::Value(0x0001_002a)],
        steps: 10_000,
        end: LeafEnd::Cut(Cause::Steps),
        node: 3,
    },
    Shown {
        choices: &[Choice::Yes, Choice::Value(0x0001_002c)],
        steps: 8,
        end: LeafEnd::Cut(Cause::Nodes),
        node: 4,
    },
    Shown {
        choices: &[Choice::Yes, Choice::Rest],
        steps: 9,
        end: LeafEnd::Cut(Cause::Conflicts),
        node: 5,
    },
];

/// One input byte.
fn one_region(alloc: Global) -> Result<Regions, NoMemory> {
    let region = Region {
        start: 0x0001_1000,
        count: 1,
    };
    Ok(Regions::from_vec(Vec::from_slice(alloc, &[region])?))
}

/// The report of these leaves.
fn report(alloc: Global, leaves: &[Shown]) -> Result<Bytes, NoMemory>
    requires { length leaves.now < 2 ^ 32 }
{
    let regions = one_region(alloc)?;
    write_report(alloc, &BUDGETS, 1, &regions, leaves)
}

/// Whether this is their report.
fn is_report(alloc: Global, leaves: &[Shown], want: &str) -> Result<bool, NoMemory>
    requires { length leaves.now < 2 ^ 32 }
{
    let text = report(alloc, leaves)?;
    Ok(text.as_slice() == want.as_bytes())
}

/// Whether this line is said of them.
fn is_said(alloc: Global, leaves: &[Shown], want: &str) -> Result<bool, NoMemory>
    requires { length leaves.now < 2 ^ 32 }
{
    let line = summary_line(alloc, &summarize(leaves))?;
    Ok(line.as_slice() == want.as_bytes())
}

#[test]
fn a_report_of_one_leaf(rt: HostRuntime) -> Result<(), Fail> {
    assert!(rt; is_report(rt.alloc(), &ONE, ONE_LEAF)?);
    assert_eq!(rt; report_name(rt.alloc(), "out")?.as_str(), "out/report.json");
    Ok(())
}

#[test]
fn a_report_of_two_leaves(rt: HostRuntime) -> Result<(), Fail> {
    assert!(rt; is_report(rt.alloc(), &TWO, TWO_LEAVES)?);
    assert!(rt;
        is_said(
            rt.alloc(),
            &TWO,
            "leaves 2 finished 2 cut 0 tests 2 steps 13\n"
        )?
    );
    Ok(())
}

#[test]
fn a_report_of_leaves_that_were_cut(rt: HostRuntime) -> Result<(), Fail> {
    assert!(rt; is_report(rt.alloc(), &SOME_CUT, CUT)?);
    assert!(rt;
        is_said(
            rt.alloc(),
            &SOME_CUT,
            "leaves 4 finished 1 cut 3 tests 2 steps 4\n"
        )?
    );
    Ok(())
}
