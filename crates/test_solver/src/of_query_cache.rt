//! Entries that answer other queries, and a shard that is full.

use bv_dag::BinaryOp::Add;
use bv_dag::Comparison::{Eq, Ult};
use bv_dag::Node::{Binary, Compare, Concat, Input, Num};
use bv_dag::{Dag, Node, Query};
use byte_list::Bytes;
use query_cache::{Cache, Fingerprinted, Satisfiability, Solved};
use query_decide::{Decision, decide};
use std::alloc::{AllocError as NoMemory, Global};
use std::process::Abort;
use std::sync::Wait;
use std::test::Fail;

/// A query over two input bytes: its terms, and those that are asserted.
type Asking = (&'static [Node], &'static [usize]);

/// Numbers of eight bits.
const THREE: Node = Num { width: 8, value: 3 };

const FOUR: Node = Num { width: 8, value: 4 };

const TEN: Node = Num {
    width: 8,
    value: 10,
};

const TWENTY: Node = Num {
    width: 8,
    value: 20,
};

/// The first byte is below 10, and 20 is below it.
const REFUTED: Asking = (
    &[
        Input(0),
        TEN,
        Compare(Ult, 0, 1),
        TWENTY,
        Compare(Ult, 3, 0),
    ],
    &[2, 4],
);

/// The first byte is below 10, and the second is 3.
const MET: Asking = (
    &[
        Input(1),
        THREE,
        Compare(Eq, 0, 1),
        Input(0),
        TEN,
        Compare(Ult, 3, 4),
    ],
    &[5, 2],
);

/// The three assertions of both.
const ALL: Asking = (
    &[
        THREE,
        TEN,
        Input(1),
        Compare(Eq, 2, 0),
        Input(0),
        TWENTY,
        Compare(Ult, 5, 4),
        Compare(Ult, 4, 1),
    ],
    &[3, 6, 7],
);

/// The one that both have, with the byte and the number twice, and a sum on which nothing stands.
const SHARED: Asking = (
    &[
        TEN,
        Input(0),
        TEN,
        Input(0),
        Binary(Add, 0, 2),
        Compare(Ult, 3, 2),
        Compare(Ult, 1, 0),
    ],
    &[5, 6],
);

/// The first byte is below 10, and the second is 4.
const OTHER: Asking = (
    &[
        Input(1),
        FOUR,
        Compare(Eq, 0, 1),
        Input(0),
        TEN,
        Compare(Ult, 3, 4),
    ],
    &[5, 2],
);

/// The first of the two refuted assertions with its operands exchanged, and the second.
const EXCHANGED: Asking = (
    &[
        Input(0),
        TEN,
        Compare(Ult, 1, 0),
        TWENTY,
        Compare(Ult, 3, 0),
    ],
    &[2, 4],
);

/// What a cache has for a query.
#[derive(Clone, Copy, Debug, PartialEq, Eq)]
enum Known {
    Sat([u8; 2]),
    Unsat,
    Nothing,
}

/// Queries, and what is known of them by the entries on `REFUTED` and on `MET` with the bytes 5 and 3.
const ROWS: &[(Asking, Known)] = &[
    (REFUTED, Known::Unsat),
    (MET, Known::Sat([5, 3])),
    (ALL, Known::Unsat),
    (SHARED, Known::Sat([5, 3])),
    (OTHER, Known::Nothing),
    (EXCHANGED, Known::Nothing),
];

fn push_all(rt: &impl Abort, dag: &mut Dag, nodes: &[Node]) -> Result<(), NoMemory> {
    for node in nodes {
        assert!(rt; dag.fits(node));
        dag.push(*node)?;
    }
    Ok(())
}

fn assert_all(rt: &impl Abort, query: &mut Query, ids: &[usize]) -> Result<(), NoMemory> {
    for id in ids {
        assert!(rt; *id < query.dag().len() && query.dag().width_of(*id) == 1);
        query.assert(*id)?;
    }
    Ok(())
}

fn made(
    rt: &impl Abort,
    alloc: Global,
    nodes: &[Node],
    asserted: &[usize],
) -> Result<Fingerprinted, NoMemory> {
    let mut dag = Dag::new(alloc, 2);
    push_all(rt, &mut dag, nodes)?;
    let mut query = Query::new(dag, Vec::new(alloc));
    assert_all(rt, &mut query, asserted)?;
    Fingerprinted::new(alloc, query)
}

// The entry that these bytes meet a query.
fn met(
    rt: &impl Abort,
    alloc: Global,
    query: Fingerprinted,
    bytes: [u8; 2],
) -> Result<Solved, NoMemory> {
    let input = Bytes::from_slice(alloc, &bytes)?;
    let is_met = query.query().holds(alloc, input.as_slice())?;
    assert!(rt; is_met);
    Ok(Solved::new(query, Satisfiability::Sat(input)))
}

// The entry that no bytes meet a query.
fn refuted(rt: &impl Abort, alloc: Global, query: Fingerprinted) -> Result<Solved, NoMemory> {
    let is_unmet = matches!(decide(alloc, query.query(), &[0, 0], 100)?, Decision::Unsat);
    assert!(rt; is_unmet);
    Ok(Solved::new(query, Satisfiability::Unsat))
}

// What is known of a query.
fn found(
    rt: &(impl Abort + Wait),
    alloc: Global,
    cache: &Cache,
    asked: &Fingerprinted,
) -> Result<Known, NoMemory> {
    match cache.get(rt, alloc, asked)? {
        Some(Satisfiability::Sat(input)) => {
            let bytes = input.as_slice();
            assert!(rt; bytes.len() == 2);
            Ok(Known::Sat([bytes[0], bytes[1]]))
        }
        Some(Satisfiability::Unsat) => Ok(Known::Unsat),
        None => Ok(Known::Nothing),
    }
}

// A cache with an entry of either kind.
fn with_both(rt: &(impl Abort + Wait), alloc: Global) -> Result<Cache, NoMemory> {
    let cache = Cache::new(alloc)?;
    let unmet = made(rt, alloc, REFUTED.0, REFUTED.1)?;
    cache.put(rt, refuted(rt, alloc, unmet)?)?;
    let query = made(rt, alloc, MET.0, MET.1)?;
    cache.put(rt, met(rt, alloc, query, [5, 3])?)?;
    Ok(cache)
}

// What workers share is `Send` and `Sync`.
fn takes_shared<T: Send + Sync>(_value: &T) {}

#[test]
fn entries_answer_other_queries(rt: HostRuntime) -> Result<(), Fail> {
    let cache = with_both(&rt, rt.alloc())?;
    takes_shared(&cache);
    for (at, ((nodes, asserted), want)) in ROWS.iter().enumerate() {
        let asked = made(&rt, rt.alloc(), nodes, asserted)?;
        assert_eq!(rt; found(&rt, rt.alloc(), &cache, &asked)?, *want, "row {at}");
    }
    Ok(())
}

// The query whether both bytes, as one number, are this one.
fn about(rt: &impl Abort, alloc: Global, value: u16) -> Result<Fingerprinted, NoMemory> {
    let number = Num {
        width: 16,
        value: u64::from(value),
    };
    let nodes = [
        Input(0),
        Input(1),
        Concat { high: 0, low: 1 },
        number,
        Compare(Eq, 2, 3),
    ];
    made(rt, alloc, &nodes, &[4])
}

// Puts the entry on each number up to 256, all into one shard.
fn fill(rt: &(impl Abort + Wait), alloc: Global, cache: &Cache) -> Result<(), NoMemory> {
    for value in 0..257u16 {
        let query = about(rt, alloc, value)?;
        cache.put(rt, met(rt, alloc, query, value.to_be_bytes())?)?;
    }
    Ok(())
}

/// What is known of the first, the second and the last of them, of which a shard keeps 256.
const KEPT: &[(u16, Known)] = &[
    (0, Known::Nothing),
    (1, Known::Sat([0, 1])),
    (256, Known::Sat([1, 0])),
];

#[test]
fn the_entry_that_was_used_least_recently_goes(rt: HostRuntime) -> Result<(), Fail> {
    let cache = Cache::new(rt.alloc())?;
    fill(&rt, rt.alloc(), &cache)?;
    for (value, want) in KEPT {
        let asked = about(&rt, rt.alloc(), *value)?;
        assert_eq!(rt;
            found(&rt, rt.alloc(), &cache, &asked)?,
            *want,
            "number {value}"
        );
    }
    Ok(())
}
