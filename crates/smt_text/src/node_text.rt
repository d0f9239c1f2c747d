//! Appending the text of a term. After an error a part of it may stand there.

ghost use Rattle.std.specs.Prelude.{◌≡◌, ◌++◌, OnOk, string_bytes};
ghost use Rattle.smt_text.specs.NodeText.{binary_name, comparison_name, extension_name, node_text};

use bv_dag::{BinaryOp, Comparison, Node};
use std::alloc::AllocError as NoMemory;
use text_parts::{push_closed, push_numbered};

/// The name of an operation.
fn name_of_binary(op: BinaryOp) -> &'static str
    ensures { result.now ≡ binary_name op }
{
    match op {
        BinaryOp::Add => "bvadd",
        BinaryOp::Sub => "bvsub",
        BinaryOp::Mul => "bvmul",
        BinaryOp::Udiv => "bvudiv",
        BinaryOp::Urem => "bvurem",
        BinaryOp::And => "bvand",
        BinaryOp::Or => "bvor",
        BinaryOp::Xor => "bvxor",
        BinaryOp::Shl => "bvshl",
        BinaryOp::Lshr => "bvlshr",
        BinaryOp::Ashr => "bvashr",
    }
}

/// The name of a test.
fn name_of_comparison(op: Comparison) -> &'static str
    ensures { result.now ≡ comparison_name op }
{
    match op {
        Comparison::Ult => "bvult",
        Comparison::Slt => "bvslt",
        Comparison::Eq => "=",
    }
}

/// The name of an extension.
fn name_of_extension(signed: bool) -> &'static str
    ensures { result.now ≡ extension_name signed }
{
    if signed { "sign_extend" } else { "zero_extend" }
}

/// Appends the term of a node, whose operands are named by their places.
pub(crate) fn write_node(text: &mut String, node: Node) -> Result<(), NoMemory>
    ensures ok { OnOk result (string_bytes text.new ≡ string_bytes text.old ++ node_text node) }
{
    match node {
        Node::Num { width, value } => {
            push_numbered(text, "(_ bv", value)?;
            push_closed(text, " ", width)
        }
        Node::Input(index) => push_numbered(text, "b", index),
        Node::Not(a) => push_closed(text, "(bvnot n", a),
        Node::Neg(a) => push_closed(text, "(bvneg n", a),
        Node::Binary(op, a, b) => {
            text.push_str("(")?;
            text.push_str(name_of_binary(op))?;
            push_numbered(text, " n", a)?;
            push_closed(text, " n", b)
        }
        Node::Compare(op, a, b) => {
            text.push_str("(ite (")?;
            text.push_str(name_of_comparison(op))?;
            push_numbered(text, " n", a)?;
            push_numbered(text, " n", b)?;
            text.push_str(") (_ bv1 1) (_ bv0 1))")
        }
        Node::Ite { condition, yes, no } => {
            push_numbered(text, "(ite (= n", condition)?;
            push_numbered(text, " (_ bv1 1)) n", yes)?;
            push_closed(text, " n", no)
        }
        Node::Extract { high, low, operand } => {
            push_numbered(text, "((_ extract ", high)?;
            push_numbered(text, " ", low)?;
            push_closed(text, ") n", operand)
        }
        Node::Extend {
            by,
            signed,
            operand,
        } => {
            text.push_str("((_ ")?;
            text.push_str(name_of_extension(signed))?;
            push_numbered(text, " ", by)?;
            push_closed(text, ") n", operand)
        }
        Node::Concat { high, low } => {
            push_numbered(text, "(concat n", high)?;
            push_closed(text, " n", low)
        }
    }
}
