//! The fingerprints of trees, made in one walk over the graph that they stand in.

ghost use Rattle.std.specs.Prelude.{◌≡◌, ◌+◌, ◌*◌, ◌<◌, ◌%◌, ◌^◌, All, IfOk, length, map, slice_index};
ghost use Rattle.bv_dag.specs.Graphs.{IsDag};
ghost use Rattle.query_cache.specs.Fingerprints.{
  binary_label,
  bit_of,
  bits_of,
  comparison_label,
  digest_of,
  node_print,
  operation_print,
  prints_of,
  sign_label,
  stirred,
  stirred_in,
  tree_print,
};
ghost use Rattle.query_pick.specs.Operands.{operands};
ghost use Rattle.term_trees.specs.Trees.{trees};

use bv_dag::{BinaryOp, Comparison, Dag, Node, Query};
use std::alloc::{AllocError as NoMemory, Global};

/// What sets the kinds of operations far apart: 2^64 by the golden ratio, made odd.
pub const SPREAD: u64 = 0x9E37_79B9_7F4A_7C15;

// x (2x + 1).
#[tactic(auto, unfolding(crate::specs::Fingerprints::stirred))]
fn stirred(x: u64) -> u64
    ensures { result ≡ stirred x }
{
    x.wrapping_mul(x.wrapping_mul(2).wrapping_add(1))
}

// A fingerprint with one more number in it.
#[tactic(auto, unfolding(crate::specs::Fingerprints::stirred_in))]
fn stirred_in(print: u64, x: u64) -> u64
    ensures { result ≡ stirred_in print x }
{
    stirred(print.wrapping_add(x))
}

// The fingerprint of an operation of this kind on three numbers.
#[tactic(auto, unfolding(crate::specs::Fingerprints::operation_print))]
fn operation_print(kind: u64, first: u64, second: u64, third: u64) -> u64
    ensures { result ≡ operation_print kind first second third }
{
    let start = stirred(kind.wrapping_mul(SPREAD));
    stirred_in(stirred_in(stirred_in(start, first), second), third)
}

fn binary_label(op: BinaryOp) -> u64
    ensures { result ≡ binary_label op }
{
    match op {
        BinaryOp::Add => 1,
        BinaryOp::Sub => 2,
        BinaryOp::Mul => 3,
        BinaryOp::Udiv => 4,
        BinaryOp::Urem => 5,
        BinaryOp::And => 6,
        BinaryOp::Or => 7,
        BinaryOp::Xor => 8,
        BinaryOp::Shl => 9,
        BinaryOp::Lshr => 10,
        BinaryOp::Ashr => 11,
    }
}

fn comparison_label(op: Comparison) -> u64
    ensures { result ≡ comparison_label op }
{
    match op {
        Comparison::Ult => 1,
        Comparison::Slt => 2,
        Comparison::Eq => 3,
    }
}

fn sign_label(signed: bool) -> u64
    ensures { result ≡ sign_label signed }
{
    if signed { 1 } else { 0 }
}

// The fingerprint of a node's tree, from those of the terms before it.
fn node_print(prints: &[u64], node: Node) -> u64
    requires { All (λ a. a < length prints.now) (operands node) }
    ensures { result ≡ node_print (λ a. slice_index prints.now a) node }
{
    match node {
        Node::Num { width, value } => operation_print(1, u64::from(width), value, 0),
        Node::Input(index) => operation_print(2, index as u64, 0, 0),
        Node::Not(a) => operation_print(3, prints[a], 0, 0),
        Node::Neg(a) => operation_print(4, prints[a], 0, 0),
        Node::Binary(op, a, b) => operation_print(5, binary_label(op), prints[a], prints[b]),
        Node::Compare(op, a, b) => operation_print(6, comparison_label(op), prints[a], prints[b]),
        Node::Ite { condition, yes, no } => {
            operation_print(7, prints[condition], prints[yes], prints[no])
        }
        Node::Extract { high, low, operand } => {
            operation_print(8, u64::from(high), u64::from(low), prints[operand])
        }
        Node::Extend {
            by,
            signed,
            operand,
        } => operation_print(9, u64::from(by), sign_label(signed), prints[operand]),
        Node::Concat { high, low } => operation_print(10, prints[high], prints[low], 0),
    }
}

// The fingerprints of all terms of a graph.
fn all_prints(alloc: Global, dag: &Dag) -> Result<Vec<u64>, NoMemory>
    ensures { IfOk result (λ prints. prints.items ≡ map tree_print (trees dag.now.nodes)) }
{
    let nodes = dag.nodes();
    let mut prints = Vec::with_capacity(alloc, nodes.len())?;
    for node in nodes {
        prints.push(node_print(&prints, *node))?;
    }
    Ok(prints)
}

/// The fingerprints of what a query asserts.
pub(crate) fn prints_of(alloc: Global, query: &Query) -> Result<Vec<u64>, NoMemory>
    ensures { IfOk result (λ prints. prints.items ≡ prints_of query.now) }
{
    let all = all_prints(alloc, query.dag())?;
    let mut prints = Vec::with_capacity(alloc, query.asserted().len())?;
    for id in query.asserted() {
        prints.push(all[*id])?;
    }
    Ok(prints)
}

/// The bit of a fingerprint, by its highest six bits.
pub(crate) fn bit_of(print: u64) -> u64
    ensures { result ≡ bit_of print }
{
    1 << (print >> 58)
}

/// The bits of all these: no other fingerprint than one with one of them is among these.
pub(crate) fn bits_of(prints: &[u64]) -> u64
    ensures { result ≡ bits_of prints.now }
{
    let mut bits = 0;
    for print in prints {
        bits |= bit_of(*print);
    }
    bits
}

/// All these in one.
pub(crate) fn digest_of(prints: &[u64]) -> u64
    ensures { result ≡ digest_of prints.now }
{
    let mut digest = 0;
    for print in prints {
        digest = stirred_in(digest, *print);
    }
    digest
}
