//! Command lines with a job, and command lines with none.

use elf_load::Region;
use std::alloc::{AllocError as NoMemory, Global};
use tool_words::{Job, WordsError, read_words};
use tree_core::Order;

/// Steps, targets, conflicts, nodes, workers and the order.
type Options = (u32, u32, u32, u32, u32, Order);

/// What a command line asks for.
enum Wanted {
    /// The program, the folder, the regions and the options.
    Explore(&'static str, &'static str, &'static [(u32, u32)], Options),
    /// The program and the test.
    Replay(&'static str, &'static str),
    /// The number, the workers and the folder.
    Bench(u32, u32, &'static str),
    /// The test and the file.
    Upgrade(&'static str, &'static str),
}

// Where no option is given.
const DEFAULTS: Options = (10_000, 16, 2_000, 1_000_000, 4, Order::Deepest);

const BY_OLDEST: Options = (10_000, 16, 2_000, 1_000_000, 4, Order::Oldest);

const BY_MIXED: Options = (10_000, 16, 2_000, 50, 4, Order::Mixed);

/// Command lines, and what they ask for.
static TAKEN: [(&[&str], Wanted); 21] = [
    (
        &["rvklee", "explore", "a.elf", "out", "00011000:1"],
        Wanted::Explore("a.elf", "out", &[(0x11000, 1)], DEFAULTS),
    ),
    (
        &[
            "rvklee",
            "explore",
            "a.elf",
            "out",
            "00011000:16",
            "fffffffe:2",
        ],
        Wanted::Explore("a.elf", "out", &[(0x11000, 16), (0xfffffffe, 2)], DEFAULTS),
    ),
    (
        &["rvklee", "explore", "a.elf", "out", "0aBcDeF9:0042"],
        Wanted::Explore("a.elf", "out", &[(0x0abcdef9, 42)], DEFAULTS),
    ),
    (
        &["rvklee", "explore", "a.elf", "out", "00011000:0"],
        Wanted::Explore("a.elf", "out", &[(0x11000, 0)], DEFAULTS),
    ),
    (
        &["rvklee", "explore", "a.elf", "out", "00011000:9999"],
        Wanted::Explore("a.elf", "out", &[(0x11000, 9999)], DEFAULTS),
    ),
    (
        &["rvklee", "explore", "--", "-a.elf", "--help", "00011000:1"],
        Wanted::Explore("-a.elf", "--help", &[(0x11000, 1)], DEFAULTS),
    ),
    (
        &[
            "rvklee",
            "explore",
            "a.elf",
            "--targets",
            "4",
            "out",
            "--steps",
            "50",
            "00011000:1",
        ],
        Wanted::Explore(
            "a.elf",
            "out",
            &[(0x11000, 1)],
            (50, 4, 2_000, 1_000_000, 4, Order::Deepest),
        ),
    ),
    (
        &[
            "rvklee",
            "explore",
            "--steps=1",
            "--targets=1",
            "--conflicts=1",
            "--workers=1",
            "--nodes=1",
            "a.elf",
            "out",
            "00011000:1",
        ],
        Wanted::Explore(
            "a.elf",
            "out",
            &[(0x11000, 1)],
            (1, 1, 1, 1, 1, Order::Deepest),
        ),
    ),
    (
        &[
            "rvklee",
            "explore",
            "--nodes",
            "1000000",
            "a.elf",
            "out",
            "00011000:1",
        ],
        Wanted::Explore("a.elf", "out", &[(0x11000, 1)], DEFAULTS),
    ),
    (
        &[
            "rvklee",
            "explore",
            "--workers",
            "64",
            "a.elf",
            "--conflicts=100000",
            "out",
            "--targets",
            "64",
            "--nodes=999999",
            "00011000:1",
            "--steps=1000000",
        ],
        Wanted::Explore(
            "a.elf",
            "out",
            &[(0x11000, 1)],
            (1_000_000, 64, 100_000, 999_999, 64, Order::Deepest),
        ),
    ),
    (
        &[
            "rvklee",
            "explore",
            "--steps",
            "3",
            "--",
            "--steps",
            "4",
            "00011000:1",
        ],
        Wanted::Explore(
            "--steps",
            "4",
            &[(0x11000, 1)],
            (3, 16, 2_000, 1_000_000, 4, Order::Deepest),
        ),
    ),
    (
        &[
            "rvklee",
            "explore",
            "--order",
            "deepest",
            "a.elf",
            "out",
            "00011000:1",
        ],
        Wanted::Explore("a.elf", "out", &[(0x11000, 1)], DEFAULTS),
    ),
    (
        &[
            "rvklee",
            "explore",
            "--order",
            "oldest",
            "a.elf",
            "out",
            "00011000:1",
        ],
        Wanted::Explore("a.elf", "out", &[(0x11000, 1)], BY_OLDEST),
    ),
    (
        &[
            "rvklee",
            "explore",
            "a.elf",
            "--nodes",
            "50",
            "out",
            "00011000:1",
            "--order=mixed",
        ],
        Wanted::Explore("a.elf", "out", &[(0x11000, 1)], BY_MIXED),
    ),
    (
        &["rvklee", "replay", "a.elf", "t.json"],
        Wanted::Replay("a.elf", "t.json"),
    ),
    (
        &["rvklee", "replay", "--", "-a.elf", "--help"],
        Wanted::Replay("-a.elf", "--help"),
    ),
    (
        &["rvklee", "bench", "8", "2", "out"],
        Wanted::Bench(8, 2, "out"),
    ),
    (
        &["rvklee", "bench", "12", "64", "bench"],
        Wanted::Bench(12, 64, "bench"),
    ),
    (
        &["rvklee", "bench", "--", "1", "1", "-out"],
        Wanted::Bench(1, 1, "-out"),
    ),
    (
        &["rvklee", "upgrade", "t.json", "new.json"],
        Wanted::Upgrade("t.json", "new.json"),
    ),
    (
        &["rvklee", "upgrade", "--", "-t.json", "upgrade"],
        Wanted::Upgrade("-t.json", "upgrade"),
    ),
];

/// Command lines that say too little, too much, a number out of its form or its limit, or an order that is none.
static REFUSED: [&[&str]; 49] = [
    &[],
    &["rvklee"],
    &["rvklee", "explore", "a.elf", "out"],
    &["rvklee", "explore", "a.elf", "out", "00011000:10000"],
    &["rvklee", "explore", "a.elf", "out", "00011000:00001"],
    &["rvklee", "explore", "a.elf", "out", "00011000:"],
    &["rvklee", "explore", "a.elf", "out", "00011000"],
    &["rvklee", "explore", "a.elf", "out", "0011000:1"],
    &["rvklee", "explore", "a.elf", "out", "000011000:1"],
    &["rvklee", "explore", "a.elf", "out", "0001100g:1"],
    &["rvklee", "explore", "a.elf", "out", "00011000:a"],
    &[
        "rvklee",
        "explore",
        "--steps",
        "0",
        "a.elf",
        "out",
        "00011000:1",
    ],
    &[
        "rvklee",
        "explore",
        "--steps",
        "1000001",
        "a.elf",
        "out",
        "00011000:1",
    ],
    &[
        "rvklee",
        "explore",
        "--steps",
        "01",
        "a.elf",
        "out",
        "00011000:1",
    ],
    &[
        "rvklee",
        "explore",
        "--steps",
        "+5",
        "a.elf",
        "out",
        "00011000:1",
    ],
    &[
        "rvklee",
        "explore",
        "--steps",
        "5",
        "--steps",
        "5",
        "a.elf",
        "out",
        "00011000:1",
    ],
    &[
        "rvklee",
        "explore",
        "--targets",
        "0",
        "a.elf",
        "out",
        "00011000:1",
    ],
    &[
        "rvklee",
        "explore",
        "--targets",
        "65",
        "a.elf",
        "out",
        "00011000:1",
    ],
    &[
        "rvklee",
        "explore",
        "--conflicts",
        "0",
        "a.elf",
        "out",
        "00011000:1",
    ],
    &[
        "rvklee",
        "explore",
        "--conflicts",
        "100001",
        "a.elf",
        "out",
        "00011000:1",
    ],
    &[
        "rvklee",
        "explore",
        "--workers",
        "0",
        "a.elf",
        "out",
        "00011000:1",
    ],
    &[
        "rvklee",
        "explore",
        "--workers",
        "65",
        "a.elf",
        "out",
        "00011000:1",
    ],
    &[
        "rvklee",
        "explore",
        "--nodes",
        "0",
        "a.elf",
        "out",
        "00011000:1",
    ],
    &[
        "rvklee",
        "explore",
        "--nodes",
        "1000001",
        "a.elf",
        "out",
        "00011000:1",
    ],
    &[
        "rvklee",
        "explore",
        "--nodes",
        "9",
        "--nodes",
        "9",
        "a.elf",
        "out",
        "00011000:1",
    ],
    &[
        "rvklee",
        "explore",
        "--step",
        "5",
        "a.elf",
        "out",
        "00011000:1",
    ],
    &[
        "rvklee",
        "explore",
        "--order",
        "newest",
        "a.elf",
        "out",
        "00011000:1",
    ],
    &[
        "rvklee",
        "explore",
        "--order",
        "Oldest",
        "a.elf",
        "out",
        "00011000:1",
    ],
    &[
        "rvklee",
        "explore",
        "--order",
        "old",
        "a.elf",
        "out",
        "00011000:1",
    ],
    &[
        "rvklee",
        "explore",
        "--order=",
        "a.elf",
        "out",
        "00011000:1",
    ],
    &[
        "rvklee",
        "explore",
        "--order",
        "mixed",
        "--order",
        "mixed",
        "a.elf",
        "out",
        "00011000:1",
    ],
    &["rvklee", "explore", "a.elf", "out", "00011000:1", "--steps"],
    &["rvklee", "explore", "a.elf", "out", "00011000:1", "--order"],
    &[
        "rvklee",
        "--steps",
        "5",
        "explore",
        "a.elf",
        "out",
        "00011000:1",
    ],
    &["rvklee", "explore", "--help"],
    &["rvklee", "replay", "a.elf"],
    &["rvklee", "replay", "a.elf", "t.json", "00011000:1"],
    &["rvklee", "replay", "--steps", "5", "a.elf", "t.json"],
    &["rvklee", "bench", "--nodes", "5", "8", "2", "out"],
    &["rvklee", "bench", "--order", "oldest", "8", "2", "out"],
    &["rvklee", "bench", "0", "1", "out"],
    &["rvklee", "bench", "13", "1", "out"],
    &["rvklee", "bench", "8", "0", "out"],
    &["rvklee", "bench", "8", "65", "out"],
    &["rvklee", "bench", "8", "2"],
    &["rvklee", "bench", "8", "2", "out", "00011000:8"],
    &["rvklee", "upgrade", "t.json"],
    &["rvklee", "upgrade", "t.json", "new.json", "more.json"],
    &["rvklee", "upgrade", "--steps", "5", "t.json", "new.json"],
];

/// The words as a program is given them.
fn owned(alloc: Global, words: &[&str]) -> Result<Vec<String>, NoMemory> {
    let mut owned = Vec::with_capacity(alloc, words.len())?;
    for word in words {
        owned.push(String::from_str(alloc, word)?)?;
    }
    Ok(owned)
}

/// The job of these words.
fn job_of(alloc: Global, words: &[&str]) -> Result<Job, WordsError> {
    let words = owned(alloc, words)?;
    read_words(alloc, words.as_slice())
}

/// Whether these are the regions that are wanted.
fn are_regions(regions: &[Region], wanted: &[(u32, u32)]) -> bool {
    if regions.len() != wanted.len() {
        return false;
    }
    for i in 0..regions.len() {
        if (regions[i].start, regions[i].count) != wanted[i] {
            return false;
        }
    }
    true
}

/// Whether this is the job that is wanted.
fn is_wanted(job: &Job, wanted: &Wanted) -> bool {
    match (job, wanted) {
        (Job::Explore(asked), Wanted::Explore(file, folder, places, options)) => {
            let budgets = &asked.budgets;
            asked.program.as_str() == *file
                && asked.out.as_str() == *folder
                && are_regions(asked.regions.as_slice(), places)
                && (
                    budgets.steps,
                    budgets.targets,
                    budgets.conflicts,
                    budgets.nodes,
                    asked.workers,
                    budgets.order,
                ) == *options
        }
        (Job::Replay { program, test }, Wanted::Replay(file, said)) => {
            program.as_str() == *file && test.as_str() == *said
        }
        (
            Job::Bench {
                number,
                workers,
                out,
            },
            Wanted::Bench(which, many, folder),
        ) => { *number == *which && *workers == *many && out.as_str() == *folder }
        (Job::Upgrade { test, out }, Wanted::Upgrade(said, file)) => {
            test.as_str() == *said && out.as_str() == *file
        }
        _ => false,
    }
}

/// Whether these words have this job.
fn have_job(alloc: Global, words: &[&str], wanted: &Wanted) -> bool {
    match job_of(alloc, words) {
        Ok(job) => is_wanted(&job, wanted),
        Err(_) => false,
    }
}

/// Whether these words have no job.
fn have_none(alloc: Global, words: &[&str]) -> bool {
    match job_of(alloc, words) {
        Ok(_) => false,
        Err(why) => why == WordsError::Usage,
    }
}

#[test]
fn these_words_have_a_job(rt: HostRuntime) {
    for (words, wanted) in &TAKEN {
        assert!(rt; have_job(rt.alloc(), words, wanted));
    }
}

#[test]
fn these_words_have_none(rt: HostRuntime) {
    for words in &REFUSED {
        assert!(rt; have_none(rt.alloc(), words));
    }
}
