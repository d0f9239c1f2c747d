//! Appending the lines of a leaf's text of each kind. After an error a part of them may stand there.

ghost use Rattle.std.specs.Prelude.{◌≡◌, ◌++◌, OnOk, map, string_bytes};
ghost use Rattle.smt_text.specs.LeafLines as spec;
ghost use Rattle.smt_text.specs.Lines.{AssertLine, InputLine, NodeLine, OutputLine, line_text, lines_text};

use crate::node_text::write_node;
use bv_dag::{Dag, Node};
use fork_spec::LeafEnd;
use std::alloc::AllocError as NoMemory;
use text_parts::push_numbered;

/// The room that is made for the line of a term, which most lines fit in.
const BYTES_A_TERM: usize = 64;

/// Appends the line of an input.
pub fn write_input_line(text: &mut String, i: usize) -> Result<(), NoMemory>
    ensures ok { OnOk result (string_bytes text.new
        ≡ string_bytes text.old ++ line_text (InputLine i)) }
{
    push_numbered(text, "(declare-fun b", i)?;
    text.push_str(" () (_ BitVec 8))\n")
}

/// Appends a line for each input.
pub(crate) fn write_input_lines(text: &mut String, inputs: usize) -> Result<(), NoMemory>
    ensures ok { OnOk result (string_bytes text.new
        ≡ string_bytes text.old ++ lines_text (spec.input_lines 0 inputs)) }
{
    for i in 0..inputs {
        write_input_line(text, i)?;
    }
    Ok(())
}

/// Appends the line of a term, by its place and width.
pub fn write_node_line(text: &mut String, id: usize, width: u64, node: Node) -> Result<(), NoMemory>
    ensures ok { OnOk result (string_bytes text.new
        ≡ string_bytes text.old ++ line_text (NodeLine id width node)) }
{
    push_numbered(text, "(define-fun n", id)?;
    push_numbered(text, " () (_ BitVec ", width)?;
    text.push_str(") ")?;
    write_node(text, node)?;
    text.push_str(")\n")
}

/// Appends a line for each term.
pub(crate) fn write_node_lines(text: &mut String, dag: &Dag) -> Result<(), NoMemory>
    ensures ok { OnOk result (string_bytes text.new
        ≡ string_bytes text.old ++ lines_text (spec.node_lines dag.now)) }
{
    text.reserve(dag.len().saturating_mul(BYTES_A_TERM))?;
    for (id, node) in dag.nodes().iter().enumerate() {
        write_node_line(text, id, u64::from(dag.width_of(id)), *node)?;
    }
    Ok(())
}

/// Appends the line of the status, if the runs exit.
pub(crate) fn write_status_lines(text: &mut String, end: LeafEnd) -> Result<(), NoMemory>
    ensures ok { OnOk result (string_bytes text.new
        ≡ string_bytes text.old ++ lines_text (spec.status_lines end)) }
{
    match end {
        LeafEnd::Exits { status } => {
            push_numbered(text, "(define-fun status () (_ BitVec 8) n", status)?;
            text.push_str(")\n")
        }
        LeafEnd::Traps(_) | LeafEnd::Cut(_) => Ok(()),
    }
}

/// Appends the line of a byte of the output.
fn write_output_line(text: &mut String, i: usize, id: usize) -> Result<(), NoMemory>
    ensures ok { OnOk result (string_bytes text.new
        ≡ string_bytes text.old ++ line_text (OutputLine i id)) }
{
    push_numbered(text, "(define-fun out", i)?;
    push_numbered(text, " () (_ BitVec 8) n", id)?;
    text.push_str(")\n")
}

/// Appends a line for each byte of the output.
pub(crate) fn write_output_lines(text: &mut String, outputs: &[usize]) -> Result<(), NoMemory>
    ensures ok { OnOk result (string_bytes text.new
        ≡ string_bytes text.old ++ lines_text (spec.output_lines outputs.now)) }
{
    for (i, id) in outputs.iter().enumerate() {
        write_output_line(text, i, *id)?;
    }
    Ok(())
}

/// Appends the line of an asserted term.
pub fn write_assert_line(text: &mut String, id: usize) -> Result<(), NoMemory>
    ensures ok { OnOk result (string_bytes text.new
        ≡ string_bytes text.old ++ line_text (AssertLine id)) }
{
    push_numbered(text, "(assert (= n", id)?;
    text.push_str(" (_ bv1 1)))\n")
}

/// Appends a line for each asserted term.
pub(crate) fn write_assert_lines(text: &mut String, asserted: &[usize]) -> Result<(), NoMemory>
    ensures ok { OnOk result (string_bytes text.new
        ≡ string_bytes text.old ++ lines_text (map AssertLine asserted.now)) }
{
    for id in asserted {
        write_assert_line(text, *id)?;
    }
    Ok(())
}
