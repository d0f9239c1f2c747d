//! Questions whose answers are known, decided: what is found is tried.

use bv_dag::BinaryOp::{Add, Mul, Sub};
use bv_dag::Comparison::Eq;
use bv_dag::Node::{Binary, Compare, Input, Num};
use bv_dag::{Dag, Node, Query};
use query_decide::{Decision, decide};
use std::alloc::{AllocError as NoMemory, Global};
use std::process::Abort;
use std::test::Fail;

/// What is known of a question within its budget.
#[derive(Clone, Copy, Debug, PartialEq, Eq)]
enum Known {
    Sat,
    Unsat,
    Spent,
}

/// A question over two input bytes: its terms, those that are to be 1, the budget, and the answer.
struct Row {
    terms: &'static [Node],
    asserted: &'static [usize],
    budget: u32,
    known: Known,
}

// Two bytes have one sum.
const TWO_SUMS: Row = Row {
    terms: &[
        Input(0),
        Input(1),
        Binary(Add, 0, 1),
        Num { width: 8, value: 5 },
        Compare(Eq, 2, 3),
        Num { width: 8, value: 6 },
        Compare(Eq, 2, 5),
    ],
    asserted: &[4, 6],
    budget: 2000,
    known: Known::Unsat,
};

// No square is 2 modulo 256. It rests on one byte, though its table names another, so it spends no budget.
const SQUARE: Row = Row {
    terms: &[
        Input(0),
        Input(1),
        Binary(Add, 0, 1),
        Binary(Mul, 0, 0),
        Num { width: 8, value: 2 },
        Compare(Eq, 3, 4),
    ],
    asserted: &[5],
    budget: 1,
    known: Known::Unsat,
};

// A sum and a difference are both even or both odd. Unit propagation alone doesn't show it, nor does one clause.
const PARITIES: Row = Row {
    terms: &[
        Input(0),
        Input(1),
        Binary(Add, 0, 1),
        Num { width: 8, value: 5 },
        Compare(Eq, 2, 3),
        Binary(Sub, 0, 1),
        Num { width: 8, value: 2 },
        Compare(Eq, 5, 6),
    ],
    asserted: &[4, 7],
    budget: 1,
    known: Known::Spent,
};

// 9 and 251 have the sum 4 modulo 256, and the difference 14.
const DIFFERENCE: Row = Row {
    terms: &[
        Input(0),
        Input(1),
        Binary(Add, 0, 1),
        Num { width: 8, value: 4 },
        Compare(Eq, 2, 3),
        Binary(Sub, 0, 1),
        Num {
            width: 8,
            value: 14,
        },
        Compare(Eq, 5, 6),
    ],
    asserted: &[4, 7],
    budget: 2000,
    known: Known::Sat,
};

const ROWS: &[Row] = &[TWO_SUMS, SQUARE, PARITIES, DIFFERENCE];

// Puts these terms behind the others.
fn push_all(rt: &impl Abort, dag: &mut Dag, nodes: &[Node]) -> Result<(), NoMemory> {
    for node in nodes {
        assert!(rt; dag.fits(node));
        dag.push(*node)?;
    }
    Ok(())
}

// Asks for these terms to be 1.
fn ask_all(rt: &impl Abort, query: &mut Query, places: &[usize]) -> Result<(), NoMemory> {
    for place in places {
        assert!(rt; *place < query.dag().len() && query.dag().width_of(*place) == 1);
        query.assert(*place)?;
    }
    Ok(())
}

fn question(rt: &impl Abort, alloc: Global, row: &Row) -> Result<Query, NoMemory> {
    let mut dag = Dag::new(alloc, 2);
    push_all(rt, &mut dag, row.terms)?;
    let mut query = Query::new(dag, Vec::new(alloc));
    ask_all(rt, &mut query, row.asserted)?;
    Ok(query)
}

// What a decision says, where it shows it. What is found is tried.
fn shown(
    alloc: Global,
    query: &Query,
    budget: u32,
    decision: &Decision,
) -> Result<Option<Known>, NoMemory> {
    let (shows, known) = match decision {
        Decision::Sat(input) => (query.holds(alloc, input.as_slice())?, Known::Sat),
        Decision::Unsat => (true, Known::Unsat),
        Decision::Spent(log) => (log.steps().len() == budget as usize, Known::Spent),
    };
    Ok(if shows { Some(known) } else { None })
}

// What is decided of a row's question.
fn answered(rt: &impl Abort, alloc: Global, row: &Row) -> Result<Option<Known>, NoMemory> {
    let query = question(rt, alloc, row)?;
    let decision = decide(alloc, &query, &[0x80], row.budget)?;
    shown(alloc, &query, row.budget, &decision)
}

#[test]
fn questions_have_the_known_answers(rt: HostRuntime) -> Result<(), Fail> {
    for row in ROWS {
        assert_eq!(rt; answered(&rt, rt.alloc(), row)?, Some(row.known));
    }
    Ok(())
}
