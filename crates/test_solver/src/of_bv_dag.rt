//! Values from outside: worked examples of terms of 8 bits.

ghost use Rattle.std.specs.Prelude.{◌≡◌, ◌<◌, IfOk, OnOk, length};

use bv_dag::{BinaryOp, Comparison, Dag, Node, Query};
use std::alloc::{AllocError as NoMemory, Global};
use std::process::Abort;
use std::test::Fail;

fn push(rt: &impl Abort, dag: &mut Dag, node: Node) -> Result<usize, NoMemory>
    ensures place { IfOk result (λ id. id < length dag.new.nodes) }
    ensures inputs { OnOk result (dag.new.inputs ≡ dag.old.inputs) }
{
    assert!(rt; dag.fits(&node));
    dag.push(node)
}

// What workers share is `Send` and `Sync`.
fn takes_shared<T: Send + Sync>(_value: &T) {}

fn byte(value: u64) -> Node {
    Node::Num { width: 8, value }
}

/// Two bytes, a term over these in the places 0 and 1, and what it is worth.
const ROWS: &[(u64, u64, Node, u64)] = &[
    (5, 0, Node::Binary(BinaryOp::Udiv, 0, 1), 255),
    (5, 0, Node::Binary(BinaryOp::Urem, 0, 1), 5),
    (1, 8, Node::Binary(BinaryOp::Shl, 0, 1), 0),
    (128, 200, Node::Binary(BinaryOp::Ashr, 0, 1), 255),
    (3, 5, Node::Binary(BinaryOp::Sub, 0, 1), 254),
    (128, 0, Node::Neg(0), 128),
    (
        254,
        0,
        Node::Extract {
            high: 0,
            low: 0,
            operand: 0,
        },
        0,
    ),
    (
        128,
        0,
        Node::Extend {
            by: 8,
            signed: true,
            operand: 0,
        },
        65408,
    ),
];

// What a term of two bytes, in the places 0 and 1, is worth.
fn of_bytes(
    rt: &impl Abort,
    alloc: Global,
    dag: &mut Dag,
    left: u64,
    right: u64,
    term: Node,
) -> Result<u64, NoMemory>
    requires { dag.old.inputs ≡ 0 }
{
    push(rt, dag, byte(left))?;
    push(rt, dag, byte(right))?;
    let id = push(rt, dag, term)?;
    dag.eval(alloc, id, &[])
}

#[test]
fn operations_are_the_standards(rt: HostRuntime) -> Result<(), Fail> {
    for (left, right, term, want) in ROWS {
        let mut dag = Dag::new(rt.alloc(), 0);
        let worth = of_bytes(&rt, rt.alloc(), &mut dag, *left, *right, *term)?;
        assert_eq!(rt; worth, *want, "{term:?} of {left} and {right}");
    }
    Ok(())
}

// The term that the input byte is a letter.
fn is_a(rt: &impl Abort, dag: &mut Dag) -> Result<usize, NoMemory>
    ensures place { IfOk result (λ id. id < length dag.new.nodes) }
    ensures inputs { OnOk result (dag.new.inputs ≡ dag.old.inputs) }
{
    let input = push(rt, dag, Node::Input(0))?;
    let letter = push(rt, dag, byte(65))?;
    push(rt, dag, Node::Compare(Comparison::Eq, input, letter))
}

// The question whether it is.
fn asks_a(rt: &impl Abort, alloc: Global) -> Result<Query, NoMemory> {
    let mut dag = Dag::new(alloc, 1);
    let same = is_a(rt, &mut dag)?;
    assert!(rt; dag.width_of(same) == 1);
    let mut query = Query::new(dag, Vec::new(alloc));
    query.assert(same)?;
    Ok(query)
}

// Whether a question holds on the letter alone.
fn holds_on_a(alloc: Global, query: &Query) -> Result<bool, NoMemory> {
    Ok(query.holds(alloc, &[65])? && !query.holds(alloc, &[66])? && !query.holds(alloc, &[])?)
}

#[test]
fn a_query_holds_where_its_terms_are_1(rt: HostRuntime) -> Result<(), Fail> {
    let query = asks_a(&rt, rt.alloc())?;
    assert!(rt; holds_on_a(rt.alloc(), &query)?);
    let copy = query.clone()?;
    takes_shared(&copy);
    assert!(rt; copy == query);
    Ok(())
}

/// Terms that don't stand behind the input byte alone.
const UNFIT: &[Node] = &[
    Node::Num { width: 0, value: 0 },
    Node::Num {
        width: 65,
        value: 0,
    },
    Node::Num {
        width: 8,
        value: 256,
    },
    Node::Input(1),
    Node::Not(1),
    Node::Extract {
        high: 8,
        low: 0,
        operand: 0,
    },
    Node::Extend {
        by: 0,
        signed: false,
        operand: 0,
    },
    Node::Extend {
        by: 57,
        signed: false,
        operand: 0,
    },
];

// None of these fits a graph.
fn check_unfit(rt: &impl Abort, dag: &Dag) {
    for node in UNFIT {
        assert!(rt; !dag.fits(node), "{node:?}");
    }
}

#[test]
fn nodes_that_do_not_fit(rt: HostRuntime) -> Result<(), Fail> {
    let mut dag = Dag::new(rt.alloc(), 1);
    push(&rt, &mut dag, Node::Input(0))?;
    check_unfit(&rt, &dag);
    Ok(())
}

// An input byte of 1, doubled 200 times.
fn doubled(rt: &impl Abort, alloc: Global, dag: &mut Dag) -> Result<u64, NoMemory> {
    let mut id = push(rt, dag, Node::Input(0))?;
    for _ in 0..200 {
        id = push(rt, dag, Node::Binary(BinaryOp::Add, id, id))?;
    }
    assert!(rt; id < dag.len());
    assert!(rt; dag.inputs() == 1);
    dag.eval(alloc, id, &[1])
}

#[test]
fn a_deep_graph_takes_no_exponential_time(rt: HostRuntime) -> Result<(), Fail> {
    let mut dag = Dag::new(rt.alloc(), 1);
    assert_eq!(rt; doubled(&rt, rt.alloc(), &mut dag)?, 0);
    Ok(())
}
