//! Programs whose trees are cut for want of nodes: the line said, the names of the files, and how each of some of them begins.

use crate::of_tool_top::rows::{Row, check_rows};
use row_files::programs::{COMPARED, FORKED};
use std::alloc::AllocError as NoMemory;

const ONE_NODE: &[&str] = &[
    "rvklee",
    "explore",
    "--workers",
    "1",
    "--nodes",
    "1",
    "p.elf",
    "out",
    "00011000:1",
];

const THREE_NODES: &[&str] = &[
    "rvklee",
    "explore",
    "--workers",
    "1",
    "--nodes",
    "3",
    "p.elf",
    "out",
    "00011000:1",
];

const ONE_NODE_BY_TWO: &[&str] = &[
    "rvklee",
    "explore",
    "--workers",
    "2",
    "--nodes",
    "1",
    "p.elf",
    "out",
    "00011000:1",
];

const THREE_NODES_BY_TWO: &[&str] = &[
    "rvklee",
    "explore",
    "--workers",
    "2",
    "--nodes",
    "3",
    "p.elf",
    "out",
    "00011000:1",
];

const ROWS: &[Row] = &[
    Row {
        program: &FORKED,
        words: ONE_NODE,
        said: "leaves 1 finished 0 cut 1 tests 0 steps 0\n",
        puts: 4,
        tests: 0,
        files: &[
            (0, "out/events.txt", "claim 0 0\ncut 0 0 nodes\n"),
            (
                1,
                "out/leaf-000000.smt2",
                "; rvklee leaf 1\n; kind nodes\n; choices .\n; path .\n; steps 3\n; end running\n",
            ),
            (2, "out/spent-000000.txt", "; spent nodes 1\n"),
            (
                3,
                "out/report.json",
                "{\"budgets\":{\"conflicts\":2000,\"nodes\":1,\"order\":\"deepest\",\"steps\":10000,\"targets\":16,\"workers\":1},\"leaves\":[{\"choices\":\"\",\"end\":\"running\",\"kind\":\"nodes\",\"node\":0,\"steps\":3}],\"regions\":[\"00011000:1\"],\"summary\":{\"cut\":1,\"finished\":0,\"leaves\":1,\"steps\":0,\"tests\":0}}\n",
            ),
        ],
    },
    Row {
        program: &COMPARED,
        words: THREE_NODES,
        said: "leaves 2 finished 1 cut 1 tests 1 steps 9\n",
        puts: 6,
        tests: 1,
        files: &[
            (
                0,
                "out/events.txt",
                "claim 0 0\nsplit 0 0 1 N Y\nclaim 0 1\nfinish 0 1\nclaim 0 2\ncut 0 2 nodes\n",
            ),
            (
                1,
                "out/leaf-000000.smt2",
                "; rvklee leaf 1\n; kind finished\n; choices N.\n; path NT.\n; steps 9\n; end exit\n",
            ),
            (
                3,
                "out/leaf-000001.smt2",
                "; rvklee leaf 1\n; kind nodes\n; choices Y.\n; path T.\n; steps 5\n; end running\n",
            ),
            (4, "out/spent-000001.txt", "; spent nodes 3\n"),
        ],
    },
    // Whichever of two workers it is.
    Row {
        program: &FORKED,
        words: ONE_NODE_BY_TWO,
        said: "leaves 1 finished 0 cut 1 tests 0 steps 0\n",
        puts: 4,
        tests: 0,
        files: &[
            (
                1,
                "out/leaf-000000.smt2",
                "; rvklee leaf 1\n; kind nodes\n; choices .\n; path .\n; steps 3\n; end running\n",
            ),
            (2, "out/spent-000000.txt", "; spent nodes 1\n"),
        ],
    },
    Row {
        program: &COMPARED,
        words: THREE_NODES_BY_TWO,
        said: "leaves 2 finished 1 cut 1 tests 1 steps 9\n",
        puts: 6,
        tests: 1,
        files: &[
            (
                1,
                "out/leaf-000000.smt2",
                "; rvklee leaf 1\n; kind finished\n; choices N.\n; path NT.\n; steps 9\n; end exit\n",
            ),
            (
                3,
                "out/leaf-000001.smt2",
                "; rvklee leaf 1\n; kind nodes\n; choices Y.\n; path T.\n; steps 5\n; end running\n",
            ),
            (4, "out/spent-000001.txt", "; spent nodes 3\n"),
        ],
    },
];

#[test]
fn full_trees_are_cut(rt: HostRuntime) -> Result<(), NoMemory> {
    check_rows(&rt, ROWS)
}
