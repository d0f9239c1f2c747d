//! Reading the text of a term.

ghost use Rattle.std.specs.Prelude.{◌≡◌, option_map};
ghost use Rattle.smt_text.specs.LineReading as spec;
ghost use Rattle.smt_text.specs.declared.head.Head.TheVariants as head;

use crate::cursor::{named, number, one, three, two};
use bv_dag::{BinaryOp, Comparison, Node};
use smt_text::Head;

/// What a test answers: the bits 1 and 0.
const ANSWERS: &str = ") (_ bv1 1) (_ bv0 1))";

const HEADS: [(&str, Head); 22] = [
    ("(_ bv", Head::Num),
    ("b", Head::Input),
    ("(bvnot n", Head::Not),
    ("(bvneg n", Head::Neg),
    ("(bvadd n", Head::Binary(BinaryOp::Add)),
    ("(bvsub n", Head::Binary(BinaryOp::Sub)),
    ("(bvmul n", Head::Binary(BinaryOp::Mul)),
    ("(bvudiv n", Head::Binary(BinaryOp::Udiv)),
    ("(bvurem n", Head::Binary(BinaryOp::Urem)),
    ("(bvand n", Head::Binary(BinaryOp::And)),
    ("(bvor n", Head::Binary(BinaryOp::Or)),
    ("(bvxor n", Head::Binary(BinaryOp::Xor)),
    ("(bvshl n", Head::Binary(BinaryOp::Shl)),
    ("(bvlshr n", Head::Binary(BinaryOp::Lshr)),
    ("(bvashr n", Head::Binary(BinaryOp::Ashr)),
    ("(ite (bvult n", Head::Test(Comparison::Ult)),
    ("(ite (bvslt n", Head::Test(Comparison::Slt)),
    ("(ite (= n", Head::Equal),
    ("((_ extract ", Head::Extract),
    ("((_ sign_extend ", Head::Extend(true)),
    ("((_ zero_extend ", Head::Extend(false)),
    ("(concat n", Head::Concat),
];

/// What the text of a term begins with.
fn take_head(text: &[u8]) -> Option<(Head, &[u8])>
    ensures { option_map (λ found. (found.0, found.1.now)) result ≡ spec.term_head text.now }
{
    named(text, &HEADS)
}

/// The value and the width of a number.
#[tactic(auto, unfolding(smt_text::specs::LineReading::read_operands))]
fn take_num(text: &[u8]) -> Option<(Node, &[u8])>
    ensures { option_map (λ found. (found.0, found.1.now)) result
        ≡ spec.read_operands head.Num text.now }
{
    let ((value, width), rest) = two(text, " ", ")")?;
    let width = u32::try_from(width).ok()?;
    Some((Node::Num { width, value }, rest))
}

/// Two terms, of which it is asked whether they are equal.
fn take_equal(text: &[u8]) -> Option<(Node, &[u8])>
    ensures { option_map (λ found. (found.0, found.1.now)) result ≡ spec.equal_operands text.now }
{
    let ((a, b), rest) = two(text, " n", ANSWERS)?;
    Some((Node::Compare(Comparison::Eq, a as usize, b as usize), rest))
}

/// The condition and the two sides of a choice.
fn take_ite(text: &[u8]) -> Option<(Node, &[u8])>
    ensures { option_map (λ found. (found.0, found.1.now)) result ≡ spec.ite_operands text.now }
{
    let ((condition, yes, no), rest) = three(text, " (_ bv1 1)) n", " n", ")")?;
    let node = Node::Ite {
        condition: condition as usize,
        yes: yes as usize,
        no: no as usize,
    };
    Some((node, rest))
}

/// What follows the test of whether two terms are equal.
#[tactic(auto, unfolding(smt_text::specs::LineReading::read_operands))]
fn take_equal_or_ite(text: &[u8]) -> Option<(Node, &[u8])>
    ensures { option_map (λ found. (found.0, found.1.now)) result
        ≡ spec.read_operands head.Equal text.now }
{
    match take_equal(text) {
        Some(found) => Some(found),
        None => take_ite(text),
    }
}

/// The bounds and the operand of a part.
#[tactic(auto, unfolding(smt_text::specs::LineReading::read_operands))]
fn take_extract(text: &[u8]) -> Option<(Node, &[u8])>
    ensures { option_map (λ found. (found.0, found.1.now)) result
        ≡ spec.read_operands head.Extract text.now }
{
    let ((high, low, operand), rest) = three(text, " ", ") n", ")")?;
    let node = Node::Extract {
        high: u32::try_from(high).ok()?,
        low: u32::try_from(low).ok()?,
        operand: operand as usize,
    };
    Some((node, rest))
}

/// By how many bits a term is extended, and which.
#[tactic(auto, unfolding(smt_text::specs::LineReading::read_operands))]
fn take_extend(signed: bool, text: &[u8]) -> Option<(Node, &[u8])>
    ensures { option_map (λ found. (found.0, found.1.now)) result
        ≡ spec.read_operands (head.Extend signed) text.now }
{
    let ((by, operand), rest) = two(text, ") n", ")")?;
    let node = Node::Extend {
        by: u32::try_from(by).ok()?,
        signed,
        operand: operand as usize,
    };
    Some((node, rest))
}

/// What stands behind the head of a term.
#[tactic(auto, unfolding(smt_text::specs::LineReading::read_operands))]
fn take_operands(head: Head, text: &[u8]) -> Option<(Node, &[u8])>
    ensures { option_map (λ found. (found.0, found.1.now)) result
        ≡ spec.read_operands head text.now }
{
    match head {
        Head::Num => take_num(text),
        Head::Input => number(text).map(|(index, rest)| (Node::Input(index as usize), rest)),
        Head::Not => one(text, ")").map(|(a, rest)| (Node::Not(a as usize), rest)),
        Head::Neg => one(text, ")").map(|(a, rest)| (Node::Neg(a as usize), rest)),
        Head::Binary(op) => two(text, " n", ")").map(|((a, b), rest)| (
            Node::Binary(op, a as usize, b as usize),
            rest,
        )),
        Head::Test(op) => two(text, " n", ANSWERS).map(|((a, b), rest)| (
            Node::Compare(op, a as usize, b as usize),
            rest,
        )),
        Head::Equal => take_equal_or_ite(text),
        Head::Extract => take_extract(text),
        Head::Extend(signed) => take_extend(signed, text),
        Head::Concat => two(text, " n", ")").map(|((high, low), rest)| {
            let node = Node::Concat {
                high: high as usize,
                low: low as usize,
            };
            (node, rest)
        }),
    }
}

/// The term that the text begins with.
#[tactic(auto, unfolding(smt_text::specs::LineReading::term))]
pub fn take_term(text: &[u8]) -> Option<(Node, &[u8])>
    ensures { option_map (λ found. (found.0, found.1.now)) result ≡ spec.term text.now }
{
    let (head, rest) = take_head(text)?;
    take_operands(head, rest)
}
