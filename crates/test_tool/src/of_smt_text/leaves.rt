//! Texts, byte for byte, of a leaf that is finished and of one that is cut.

use bv_dag::{BinaryOp, Comparison, Dag, Node, Query};
use byte_list::Bytes;
use fork_spec::LeafEnd;
use rv_decode::PathStep;
use smt_text::{LeafText, print_leaf};
use std::alloc::{AllocError as NoMemory, Global};
use std::process::Abort;
use std::test::Fail;
use tree_core::{Cause, Choice};

/// The text of a leaf that is finished.
pub static FINISHED: &str = "; rvklee leaf 1
; kind finished
; choices Y.
; path T.
; steps 7
; end exit
; inputs 1
; nodes 4
; outputs 0
(set-logic QF_ABV)
(declare-fun b0 () (_ BitVec 8))
(declare-fun base () (Array (_ BitVec 8) (_ BitVec 8)))
(define-fun n0 () (_ BitVec 8) b0)
(define-fun n1 () (_ BitVec 8) (_ bv65 8))
(define-fun n2 () (_ BitVec 1) (ite (= n0 n1) (_ bv1 1) (_ bv0 1)))
(define-fun n3 () (_ BitVec 8) (_ bv1 8))
(define-fun status () (_ BitVec 8) n3)
(assert (= n2 (_ bv1 1)))
(check-sat)
(exit)
";

/// The text of a leaf that was cut.
pub static CUT: &str = "; rvklee leaf 1
; kind targets
; choices N=00010028YR.
; path TN@0001002c.
; steps 12
; end running
; inputs 2
; nodes 23
; outputs 2
(set-logic QF_ABV)
(declare-fun b0 () (_ BitVec 8))
(declare-fun b1 () (_ BitVec 8))
(declare-fun base () (Array (_ BitVec 8) (_ BitVec 8)))
(define-fun n0 () (_ BitVec 8) b1)
(define-fun n1 () (_ BitVec 8) (_ bv200 8))
(define-fun n2 () (_ BitVec 8) (bvnot n0))
(define-fun n3 () (_ BitVec 8) (bvneg n1))
(define-fun n4 () (_ BitVec 8) (bvadd n0 n1))
(define-fun n5 () (_ BitVec 8) (bvsub n1 n0))
(define-fun n6 () (_ BitVec 8) (bvmul n0 n3))
(define-fun n7 () (_ BitVec 8) (bvudiv n0 n2))
(define-fun n8 () (_ BitVec 8) (bvurem n1 n0))
(define-fun n9 () (_ BitVec 8) (bvand n0 n1))
(define-fun n10 () (_ BitVec 8) (bvor n0 n1))
(define-fun n11 () (_ BitVec 8) (bvxor n0 n1))
(define-fun n12 () (_ BitVec 8) (bvshl n0 n1))
(define-fun n13 () (_ BitVec 8) (bvlshr n0 n1))
(define-fun n14 () (_ BitVec 8) (bvashr n0 n1))
(define-fun n15 () (_ BitVec 1) (ite (bvult n0 n1) (_ bv1 1) (_ bv0 1)))
(define-fun n16 () (_ BitVec 1) (ite (bvslt n1 n0) (_ bv1 1) (_ bv0 1)))
(define-fun n17 () (_ BitVec 1) (ite (= n2 n3) (_ bv1 1) (_ bv0 1)))
(define-fun n18 () (_ BitVec 8) (ite (= n15 (_ bv1 1)) n4 n5))
(define-fun n19 () (_ BitVec 5) ((_ extract 6 2) n6))
(define-fun n20 () (_ BitVec 32) ((_ zero_extend 24) n7))
(define-fun n21 () (_ BitVec 16) ((_ sign_extend 8) n8))
(define-fun n22 () (_ BitVec 13) (concat n9 n19))
(define-fun out0 () (_ BitVec 8) n18)
(define-fun out1 () (_ BitVec 8) n0)
(assert (= n16 (_ bv1 1)))
(assert (= n17 (_ bv1 1)))
(check-sat)
(exit)
";

/// Puts these nodes behind the others.
fn add_nodes(rt: &impl Abort, dag: &mut Dag, nodes: &[Node]) -> Result<(), NoMemory> {
    for node in nodes {
        assert!(rt; dag.fits(node));
        dag.push(*node)?;
    }
    Ok(())
}

/// Asserts these terms.
fn assert_terms(rt: &impl Abort, condition: &mut Query, ids: &[usize]) -> Result<(), NoMemory> {
    for id in ids {
        let terms = condition.dag();
        assert!(rt; *id < terms.len());
        assert_eq!(rt; terms.width_of(*id), 1);
        condition.assert(*id)?;
    }
    Ok(())
}

/// The condition that these terms of these nodes are 1.
pub fn make_condition(
    rt: &impl Abort,
    alloc: Global,
    inputs: usize,
    nodes: &[Node],
    asserted: &[usize],
) -> Result<Query, NoMemory> {
    let mut dag = Dag::new(alloc, inputs);
    add_nodes(rt, &mut dag, nodes)?;
    let mut condition = Query::new(dag, Vec::new(alloc));
    assert_terms(rt, &mut condition, asserted)?;
    Ok(condition)
}

/// What a leaf says.
struct Said {
    choices: &'static [Choice],
    path: &'static [PathStep],
    steps: u32,
    end: LeafEnd,
    inputs: usize,
    nodes: &'static [Node],
    asserted: &'static [usize],
    outputs: &'static [usize],
}

static FINISHED_LEAF: Said = Said {
    choices: &[Choice::Yes],
    path: &[PathStep::Taken],
    steps: 7,
    end: LeafEnd::Exits { status: 3 },
    inputs: 1,
    nodes: &[
        Node::Input(0),
        Node::Num {
            width: 8,
            value: 65,
        },
        Node::Compare(Comparison::Eq, 0, 1),
        Node::Num { width: 8, value: 1 },
    ],
    asserted: &[2],
    outputs: &[],
};

static CUT_LEAF: Said = Said {
    choices: &[
        Choice::No,
        Choice::Value(0x0001_0028),
        Choice::Yes,
        Choice::Rest,
    ],
    path: &[
        PathStep::Taken,
        PathStep::NotTaken,
        PathStep::Target(0x0001_002c),
    ],
    steps: 12,
    end: LeafEnd::Cut(Cause::Targets),
    inputs: 2,
    // Each kind of node.
    nodes: &[
        Node::Input(1),
        Node::Num {
            width: 8,
            value: 200,
        },
        Node::Not(0),
        Node::Neg(1),
        Node::Binary(BinaryOp::Add, 0, 1),
        Node::Binary(BinaryOp::Sub, 1, 0),
        Node::Binary(BinaryOp::Mul, 0, 3),
        Node::Binary(BinaryOp::Udiv, 0, 2),
        Node::Binary(BinaryOp::Urem, 1, 0),
        Node::Binary(BinaryOp::And, 0, 1),
        Node::Binary(BinaryOp::Or, 0, 1),
        Node::Binary(BinaryOp::Xor, 0, 1),
        Node::Binary(BinaryOp::Shl, 0, 1),
        Node::Binary(BinaryOp::Lshr, 0, 1),
        Node::Binary(BinaryOp::Ashr, 0, 1),
        Node::Compare(Comparison::Ult, 0, 1),
        Node::Compare(Comparison::Slt, 1, 0),
        Node::Compare(Comparison::Eq, 2, 3),
        Node::Ite {
            condition: 15,
            yes: 4,
            no: 5,
        },
        Node::Extract {
            high: 6,
            low: 2,
            operand: 6,
        },
        Node::Extend {
            by: 24,
            signed: false,
            operand: 7,
        },
        Node::Extend {
            by: 8,
            signed: true,
            operand: 8,
        },
        Node::Concat { high: 9, low: 19 },
    ],
    asserted: &[16, 17],
    outputs: &[18, 0],
};

/// The leaf that says so.
fn make_leaf(rt: &impl Abort, alloc: Global, said: &Said) -> Result<LeafText, NoMemory> {
    let choices = Vec::from_slice(alloc, said.choices)?;
    let path = Vec::from_slice(alloc, said.path)?;
    let outputs = Vec::from_slice(alloc, said.outputs)?;
    let condition = make_condition(rt, alloc, said.inputs, said.nodes, said.asserted)?;
    Ok(LeafText {
        choices,
        path,
        steps: said.steps,
        end: said.end,
        condition,
        outputs,
    })
}

/// Its text.
fn printed(rt: &impl Abort, alloc: Global, said: &Said) -> Result<Bytes, NoMemory> {
    let leaf = make_leaf(rt, alloc, said)?;
    print_leaf(alloc, &leaf)
}

#[test]
fn a_finished_leaf_is_printed(rt: HostRuntime) -> Result<(), Fail> {
    let text = printed(&rt, rt.alloc(), &FINISHED_LEAF)?;
    assert_eq!(rt; text.as_slice(), FINISHED.as_bytes());
    Ok(())
}

#[test]
fn a_cut_leaf_is_printed(rt: HostRuntime) -> Result<(), Fail> {
    let text = printed(&rt, rt.alloc(), &CUT_LEAF)?;
    assert_eq!(rt; text.as_slice(), CUT.as_bytes());
    Ok(())
}
