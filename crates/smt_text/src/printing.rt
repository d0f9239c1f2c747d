//! The text of a leaf, and that of a condition alone.

ghost use Rattle.std.specs.Prelude.{◌≡◌, ◌++◌, IfOk, OnOk, string_bytes};
ghost use Rattle.smt_text.specs.LeafLines as spec;
ghost use Rattle.smt_text.specs.Lines.{lines_text};

use crate::ends::{end_name, kind_name};
use crate::leaf::LeafText;
use crate::lines::{
    write_assert_lines, write_input_lines, write_node_lines, write_output_lines, write_status_lines,
};
use bv_dag::{Dag, Query};
use byte_list::Bytes;
use fork_spec::LeafEnd;
use rv_decode::PathStep;
use std::alloc::{AllocError as NoMemory, Global};
use text_parts::{push_numbered, write_choices, write_path};
use tree_core::Choice;

/// Appends what runs a leaf is about: its kind, choices, path, steps and end.
fn write_runs_heading(
    alloc: Global,
    text: &mut String,
    choices: &[Choice],
    path: &[PathStep],
    steps: u32,
    end: LeafEnd,
) -> Result<(), NoMemory>
    ensures ok { OnOk result (string_bytes text.new
        ≡ string_bytes text.old ++ lines_text (spec.runs_heading choices.now path.now steps end)) }
{
    text.push_str("; rvklee leaf 1\n; kind ")?;
    text.push_str(kind_name(end))?;
    text.push_str("\n; choices ")?;
    write_choices(alloc, text, choices)?;
    text.push_str(".\n; path ")?;
    write_path(alloc, text, path)?;
    push_numbered(text, ".\n; steps ", steps)?;
    text.push_str("\n; end ")?;
    text.push_str(end_name(end))?;
    text.push_str("\n")
}

/// Appends how many inputs, terms and bytes of the output follow.
fn write_counts_heading(
    text: &mut String,
    inputs: usize,
    nodes: usize,
    outputs: usize,
) -> Result<(), NoMemory>
    ensures ok { OnOk result (string_bytes text.new
        ≡ string_bytes text.old ++ lines_text (spec.counts_heading inputs nodes outputs)) }
{
    push_numbered(text, "; inputs ", inputs)?;
    push_numbered(text, "\n; nodes ", nodes)?;
    push_numbered(text, "\n; outputs ", outputs)?;
    text.push_str("\n")
}

/// Appends the inputs, and the terms over them.
fn write_terms(text: &mut String, dag: &Dag) -> Result<(), NoMemory>
    ensures ok { OnOk result (string_bytes text.new
        ≡ string_bytes text.old ++ lines_text (spec.term_lines dag.now)) }
{
    text.push_str("(set-logic QF_ABV)\n")?;
    write_input_lines(text, dag.inputs())?;
    text.push_str("(declare-fun base () (Array (_ BitVec 8) (_ BitVec 8)))\n")?;
    write_node_lines(text, dag)
}

/// Appends the terms, and those of them that the status and the bytes of the output are.
fn write_definitions(
    text: &mut String,
    dag: &Dag,
    end: LeafEnd,
    outputs: &[usize],
) -> Result<(), NoMemory>
    ensures ok { OnOk result (string_bytes text.new
        ≡ string_bytes text.old ++ lines_text (spec.definitions dag.now end outputs.now)) }
{
    write_terms(text, dag)?;
    write_status_lines(text, end)?;
    write_output_lines(text, outputs)
}

// Appends a condition alone: its terms, and those that it asserts.
fn write_query(text: &mut String, condition: &Query) -> Result<(), NoMemory>
    ensures ok { OnOk result (string_bytes text.new
        ≡ string_bytes text.old ++ spec.query_text condition.now) }
{
    write_terms(text, condition.dag())?;
    write_assert_lines(text, condition.asserted())?;
    text.push_str("(check-sat)\n(exit)\n")
}

/// The text of a condition alone.
pub fn print_query(alloc: Global, condition: &Query) -> Result<String, NoMemory>
    ensures { IfOk result (λ text. string_bytes text ≡ spec.query_text condition.now) }
{
    let mut text = String::new(alloc);
    write_query(&mut text, condition)?;
    Ok(text)
}

// About how many bytes the text of a leaf has, so that it seldom grows as it is written.
fn expected_len(dag: &Dag, outputs: &[usize]) -> usize {
    let inputs = dag.inputs().saturating_mul(34);
    let nodes = dag.len().saturating_mul(56);
    let outputs = outputs.len().saturating_mul(34);
    inputs
        .saturating_add(nodes)
        .saturating_add(outputs)
        .saturating_add(512)
}

/// The text of a leaf, from its parts.
pub fn print_parts(
    alloc: Global,
    choices: &[Choice],
    path: &[PathStep],
    steps: u32,
    end: LeafEnd,
    condition: &Query,
    outputs: &[usize],
) -> Result<Bytes, NoMemory>
    ensures { IfOk result (λ text. text ≡ spec.leaf_text (record {
      choices = choices.now;
      path = path.now;
      steps = steps;
      end = end;
      condition = condition.now;
      outputs = outputs.now;
    })) }
{
    let dag = condition.dag();
    let mut text = String::with_capacity(alloc, expected_len(dag, outputs))?;
    write_runs_heading(alloc, &mut text, choices, path, steps, end)?;
    write_counts_heading(&mut text, dag.inputs(), dag.len(), outputs.len())?;
    write_definitions(&mut text, dag, end, outputs)?;
    write_assert_lines(&mut text, condition.asserted())?;
    text.push_str("(check-sat)\n(exit)\n")?;
    Ok(Bytes::from_vec(text.into_bytes()))
}

/// The text of a leaf.
pub fn print_leaf(alloc: Global, leaf: &LeafText) -> Result<Bytes, NoMemory>
    ensures { IfOk result (λ text. text ≡ spec.leaf_text leaf.now) }
{
    print_parts(
        alloc,
        &leaf.choices,
        &leaf.path,
        leaf.steps,
        leaf.end,
        &leaf.condition,
        &leaf.outputs,
    )
}
