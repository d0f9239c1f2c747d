//! Reading a line of the walk.

ghost use Rattle.std.specs.Prelude.{◌≡◌, IfOk, option_map};
ghost use Rattle.cert_text.specs.LineReading as spec;
ghost use Rattle.cert_text.specs.declared.kind.LineKind.TheVariants as kind;

use crate::kind::LineKind;
use crate::lists::take_all;
use byte_list::Bytes;
use cert_form::{CertLine, DefinedNode, LearntClause, NodeLine, Sides};
use cnf_form::{Clause, Lit, LogStep};
use fork_spec::Found;
use leaf_reader::{assertion_said, behind, eight, named, node_said, one, take_choice, take_count};
use std::alloc::{AllocError as NoMemory, Global};

const WORDS: [(&str, LineKind); 17] = [
    ("(define-fun n", LineKind::Node),
    ("c ", LineKind::Clause),
    ("v ", LineKind::Value),
    ("one ", LineKind::One),
    ("split", LineKind::Split),
    ("tried\n", LineKind::Tried),
    ("end ", LineKind::End),
    ("w ", LineKind::Witness),
    ("cut steps ", LineKind::CutSteps),
    ("cut nodes\n", LineKind::CutNodes),
    ("(assert (= n", LineKind::Assert),
    ("(declare-fun b", LineKind::Declare),
    ("; inputs ", LineKind::Inputs),
    ("; nodes ", LineKind::Nodes),
    ("(set-logic QF_ABV)\n", LineKind::Logic),
    ("(check-sat)\n", LineKind::Check),
    ("(exit)\n", LineKind::Exit),
];

/// What kind of line the text begins with.
fn kind_at(text: &[u8]) -> Option<LineKind>
    ensures { result ≡ spec.kind_at text.now }
{
    let (kind, _) = named(text, &WORDS)?;
    Some(kind)
}

/// The bytes of an assignment up to the end of the line.
fn take_input(alloc: Global, text: &[u8]) -> Result<Option<(Bytes, &[u8])>, NoMemory>
    ensures { IfOk result (λ found. option_map (λ found. (found.0, found.1.now)) found
        ≡ spec.input_to_end text.now) }
{
    match take_all(alloc, text, "\n")? {
        Some((bytes, rest)) => Ok(Some((Bytes::from_vec(bytes), rest))),
        None => Ok(None),
    }
}

/// The hints behind the literals of a clause, which is one if its variables are from 1 on and increase.
fn take_hints(
    alloc: Global,
    literals: Vec<Lit>,
    text: &[u8],
) -> Result<Option<(LearntClause, &[u8])>, NoMemory>
    ensures { IfOk result (λ found. option_map (λ found. (found.0, found.1.now)) found
        ≡ spec.hints_read literals.items text.now) }
{
    let Some(clause) = Clause::from_ordered(literals) else {
        return Ok(None);
    };
    match take_all(alloc, text, " 0\n")? {
        Some((hints, rest)) => {
            let step = LogStep::new(clause, hints);
            Ok(Some((LearntClause::new(alloc, step)?, rest)))
        }
        None => Ok(None),
    }
}

/// A clause.
fn take_clause(alloc: Global, text: &[u8]) -> Result<Option<(LearntClause, &[u8])>, NoMemory>
    ensures { IfOk result (λ found. option_map (λ found. (found.0, found.1.now)) found
        ≡ spec.clause_read text.now) }
{
    match take_all(alloc, text, " 0")? {
        Some((literals, rest)) => take_hints(alloc, literals, rest),
        None => Ok(None),
    }
}

/// A line of a choice with which alone the run goes on.
#[tactic(auto, unfolding(crate::specs::LineReading::line_of))]
fn take_one(text: &[u8]) -> Option<(CertLine, &[u8])>
    ensures { option_map (λ found. (found.0, found.1.now)) result
        ≡ spec.line_of kind.One text.now }
{
    let (choice, rest) = take_choice(behind(text, "one ")?)?;
    let rest = behind(rest, "\n")?;
    Some((CertLine::One(choice), rest))
}

/// A line of a split.
#[tactic(auto, unfolding(crate::specs::LineReading::line_of))]
fn take_split(alloc: Global, text: &[u8]) -> Result<Option<(CertLine, &[u8])>, NoMemory>
    ensures { IfOk result (λ found. option_map (λ found. (found.0, found.1.now)) found
        ≡ spec.line_of kind.Split text.now) }
{
    let Some(rest) = behind(text, "split") else {
        return Ok(None);
    };
    match take_all(alloc, rest, "\n")? {
        Some((sides, rest)) => Ok(Some((CertLine::Split(Sides::from_vec(sides)), rest))),
        None => Ok(None),
    }
}

/// How many inputs a question has.
#[tactic(auto, unfolding(crate::specs::LineReading::line_of))]
fn take_inputs(text: &[u8]) -> Option<(CertLine, &[u8])>
    ensures { option_map (λ found. (found.0, found.1.now)) result
        ≡ spec.line_of kind.Inputs text.now }
{
    let (inputs, rest) = take_count(behind(text, "; inputs ")?)?;
    Some((CertLine::Inputs(inputs), rest))
}

/// How many nodes a question has.
#[tactic(auto, unfolding(crate::specs::LineReading::line_of))]
fn take_nodes(text: &[u8]) -> Option<(CertLine, &[u8])>
    ensures { option_map (λ found. (found.0, found.1.now)) result
        ≡ spec.line_of kind.Nodes text.now }
{
    let (nodes, rest) = one(behind(text, "; nodes ")?, "\n")?;
    Some((CertLine::Nodes(nodes), rest))
}

/// An input of a question.
fn take_input_line(text: &[u8]) -> Option<(CertLine, &[u8])>
    ensures { option_map (λ found. (found.0, found.1.now)) result ≡ spec.input_line text.now }
{
    let (i, rest) = one(behind(text, "(declare-fun b")?, " () (_ BitVec 8))\n")?;
    Some((CertLine::Input(i), rest))
}

/// An input, or the function that the inputs are of.
#[tactic(auto, unfolding(crate::specs::LineReading::line_of))]
fn take_declared(text: &[u8]) -> Option<(CertLine, &[u8])>
    ensures { option_map (λ found. (found.0, found.1.now)) result
        ≡ spec.line_of kind.Declare text.now }
{
    if let Some(found) = take_input_line(text) {
        return Some(found);
    }
    let rest = behind(
        text,
        "(declare-fun base () (Array (_ BitVec 8) (_ BitVec 8)))\n",
    )?;
    Some((CertLine::Base, rest))
}

/// A node, whatever its number and its width.
fn take_defined(text: &[u8]) -> Option<(DefinedNode, &[u8])>
    ensures { option_map (λ found. (found.0, found.1.now)) result ≡ spec.node_read text.now }
{
    let (said, rest) = node_said(text)?;
    let defined = DefinedNode {
        id: said.id,
        width: said.width,
        node: said.node,
    };
    Some((defined, rest))
}

/// A node of a question.
#[tactic(auto, unfolding(crate::specs::LineReading::line_of))]
fn take_node(alloc: Global, text: &[u8]) -> Result<Option<(CertLine, &[u8])>, NoMemory>
    ensures { IfOk result (λ found. option_map (λ found. (found.0, found.1.now)) found
        ≡ spec.line_of kind.Node text.now) }
{
    match take_defined(text) {
        Some((defined, rest)) => Ok(Some((CertLine::Node(NodeLine::new(alloc, defined)?), rest))),
        None => Ok(None),
    }
}

/// A node that is to be 1.
#[tactic(auto, unfolding(crate::specs::LineReading::line_of))]
fn take_assert(text: &[u8]) -> Option<(CertLine, &[u8])>
    ensures { option_map (λ found. (found.0, found.1.now)) result
        ≡ spec.line_of kind.Assert text.now }
{
    let (id, rest) = assertion_said(text)?;
    Some((CertLine::Assert(id), rest))
}

/// The line of a clause that was learnt.
#[tactic(auto, unfolding(crate::specs::LineReading::line_of))]
fn take_clause_line(alloc: Global, text: &[u8]) -> Result<Option<(CertLine, &[u8])>, NoMemory>
    ensures { IfOk result (λ found. option_map (λ found. (found.0, found.1.now)) found
        ≡ spec.line_of kind.Clause text.now) }
{
    let Some(rest) = behind(text, "c") else {
        return Ok(None);
    };
    match take_clause(alloc, rest)? {
        Some((clause, rest)) => Ok(Some((CertLine::Clause(clause), rest))),
        None => Ok(None),
    }
}

/// The assignment behind a value.
fn take_found_from(
    alloc: Global,
    value: u32,
    text: &[u8],
) -> Result<Option<(Found, &[u8])>, NoMemory>
    ensures { IfOk result (λ found. option_map (λ found. (found.0, found.1.now)) found
        ≡ spec.found_from value text.now) }
{
    match take_input(alloc, text)? {
        Some((input, rest)) => Ok(Some((Found { value, input }, rest))),
        None => Ok(None),
    }
}

/// A value, and what stands behind it up to its assignment.
fn take_value(text: &[u8]) -> Option<(u32, &[u8])>
    ensures { option_map (λ found. (found.0, found.1.now)) result ≡ spec.value_read text.now }
{
    let (value, rest) = eight(behind(text, "v ")?)?;
    Some((value, behind(rest, " ")?))
}

/// A line of a value and its assignment.
#[tactic(auto, unfolding(crate::specs::LineReading::line_of))]
fn take_value_line(alloc: Global, text: &[u8]) -> Result<Option<(CertLine, &[u8])>, NoMemory>
    ensures { IfOk result (λ found. option_map (λ found. (found.0, found.1.now)) found
        ≡ spec.line_of kind.Value text.now) }
{
    let Some((value, rest)) = take_value(text) else {
        return Ok(None);
    };
    match take_found_from(alloc, value, rest)? {
        Some((found, rest)) => Ok(Some((CertLine::Value(found), rest))),
        None => Ok(None),
    }
}

/// The assignment behind a word.
fn take_worded<'a>(
    alloc: Global,
    word: &str,
    text: &'a [u8],
) -> Result<Option<(Bytes, &'a [u8])>, NoMemory>
    ensures { IfOk result (λ found. option_map (λ found. (found.0, found.1.now)) found
        ≡ spec.worded_input word.now text.now) }
{
    match behind(text, word) {
        Some(rest) => take_input(alloc, rest),
        None => Ok(None),
    }
}

/// An assignment that a side covers which is a leaf at once.
#[tactic(auto, unfolding(crate::specs::LineReading::line_of))]
fn take_witness(alloc: Global, text: &[u8]) -> Result<Option<(CertLine, &[u8])>, NoMemory>
    ensures { IfOk result (λ found. option_map (λ found. (found.0, found.1.now)) found
        ≡ spec.line_of kind.Witness text.now) }
{
    match take_worded(alloc, "w ", text)? {
        Some((input, rest)) => Ok(Some((CertLine::Witness(input), rest))),
        None => Ok(None),
    }
}

/// A leaf whose runs end.
#[tactic(auto, unfolding(crate::specs::LineReading::line_of))]
fn take_end(alloc: Global, text: &[u8]) -> Result<Option<(CertLine, &[u8])>, NoMemory>
    ensures { IfOk result (λ found. option_map (λ found. (found.0, found.1.now)) found
        ≡ spec.line_of kind.End text.now) }
{
    match take_worded(alloc, "end ", text)? {
        Some((input, rest)) => Ok(Some((CertLine::End(input), rest))),
        None => Ok(None),
    }
}

/// A leaf that is cut by steps.
#[tactic(auto, unfolding(crate::specs::LineReading::line_of))]
fn take_cut_steps(alloc: Global, text: &[u8]) -> Result<Option<(CertLine, &[u8])>, NoMemory>
    ensures { IfOk result (λ found. option_map (λ found. (found.0, found.1.now)) found
        ≡ spec.line_of kind.CutSteps text.now) }
{
    match take_worded(alloc, "cut steps ", text)? {
        Some((input, rest)) => Ok(Some((CertLine::CutSteps(input), rest))),
        None => Ok(None),
    }
}

/// The line of this kind that the text begins with.
#[tactic(auto, unfolding(crate::specs::LineReading::line_of))]
fn take_line_of(
    alloc: Global,
    kind: LineKind,
    text: &[u8],
) -> Result<Option<(CertLine, &[u8])>, NoMemory>
    ensures { IfOk result (λ found. option_map (λ found. (found.0, found.1.now)) found
        ≡ spec.line_of kind text.now) }
{
    match kind {
        LineKind::One => Ok(take_one(text)),
        LineKind::Split => take_split(alloc, text),
        LineKind::Tried => Ok(behind(text, "tried\n").map(|rest| (CertLine::Tried, rest))),
        LineKind::Inputs => Ok(take_inputs(text)),
        LineKind::Nodes => Ok(take_nodes(text)),
        LineKind::Logic => {
            Ok(behind(text, "(set-logic QF_ABV)\n").map(|rest| (CertLine::Logic, rest)))
        }
        LineKind::Declare => Ok(take_declared(text)),
        LineKind::Node => take_node(alloc, text),
        LineKind::Assert => Ok(take_assert(text)),
        LineKind::Check => Ok(behind(text, "(check-sat)\n").map(|rest| (CertLine::Check, rest))),
        LineKind::Exit => Ok(behind(text, "(exit)\n").map(|rest| (CertLine::Exit, rest))),
        LineKind::Clause => take_clause_line(alloc, text),
        LineKind::Value => take_value_line(alloc, text),
        LineKind::Witness => take_witness(alloc, text),
        LineKind::End => take_end(alloc, text),
        LineKind::CutSteps => take_cut_steps(alloc, text),
        LineKind::CutNodes => {
            Ok(behind(text, "cut nodes\n").map(|rest| (CertLine::CutNodes, rest)))
        }
    }
}

/// The line of the walk that the text begins with.
#[tactic(auto, unfolding(crate::specs::LineReading::walk_line))]
pub(crate) fn take_line(alloc: Global, text: &[u8]) -> Result<Option<(CertLine, &[u8])>, NoMemory>
    ensures { IfOk result (λ found. option_map (λ found. (found.0, found.1.now)) found
        ≡ spec.walk_line text.now) }
{
    match kind_at(text) {
        Some(kind) => take_line_of(alloc, kind, text),
        None => Ok(None),
    }
}
