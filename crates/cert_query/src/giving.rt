//! The lines that give a question.

ghost use Rattle.std.specs.Prelude.{◌≡◌, ◌++◌, ◌<◌, ◌^◌, IfOk, OnOk, length};
ghost use Rattle.cert_query.specs.QuestionLines.{assertion_lines, heading_lines, input_lines, node_line, node_lines, question_lines};

use bv_dag::{Dag, Node, Query};
use cert_form::{CertLine, DefinedNode, NodeLine};
use std::alloc::{AllocError as NoMemory, Global};

// Appends the lines of so many inputs.
fn push_inputs(lines: &mut Vec<CertLine>, count: u32) -> Result<(), NoMemory>
    ensures { OnOk result (lines.new.items ≡ lines.old.items ++ input_lines 0 count) }
{
    for number in 0..count {
        lines.push(CertLine::Input(u64::from(number)))?;
    }
    Ok(())
}

// Appends how many inputs and nodes there are, and the inputs.
fn push_heading(lines: &mut Vec<CertLine>, inputs: u32, nodes: usize) -> Result<(), NoMemory>
    ensures { OnOk result (lines.new.items ≡ lines.old.items ++ heading_lines inputs nodes) }
{
    lines.push(CertLine::Inputs(inputs))?;
    lines.push(CertLine::Nodes(nodes as u64))?;
    lines.push(CertLine::Logic)?;
    push_inputs(lines, inputs)?;
    lines.push(CertLine::Base)?;
    Ok(())
}

// The line of the node at a place.
fn node_line(alloc: Global, dag: &Dag, id: usize, node: Node) -> Result<CertLine, NoMemory>
    requires { id < length dag.now.nodes }
    ensures { IfOk result (λ line. line ≡ node_line dag.now (id, node)) }
{
    let defined = DefinedNode {
        id: id as u64,
        width: u64::from(dag.width_of(id)),
        node,
    };
    Ok(CertLine::Node(NodeLine::new(alloc, defined)?))
}

// Appends the nodes.
fn push_nodes(alloc: Global, lines: &mut Vec<CertLine>, dag: &Dag) -> Result<(), NoMemory>
    ensures { OnOk result (lines.new.items ≡ lines.old.items ++ node_lines dag.now) }
{
    let nodes = dag.nodes();
    for id in 0..nodes.len() {
        lines.push(node_line(alloc, dag, id, nodes[id])?)?;
    }
    Ok(())
}

// Appends the nodes that are to be 1, and the end.
fn push_asserted(lines: &mut Vec<CertLine>, asserted: &[usize]) -> Result<(), NoMemory>
    ensures { OnOk result (lines.new.items ≡ lines.old.items ++ assertion_lines asserted.now) }
{
    for id in asserted {
        lines.push(CertLine::Assert(*id as u64))?;
    }
    lines.push(CertLine::Check)?;
    lines.push(CertLine::Exit)?;
    Ok(())
}

/// Appends the lines that give a question.
pub fn push_question(
    alloc: Global,
    lines: &mut Vec<CertLine>,
    query: &Query,
) -> Result<(), NoMemory>
    requires few_inputs { query.now.graph.inputs < 2 ^ 32 }
    ensures { OnOk result (lines.new.items ≡ lines.old.items ++ question_lines query.now) }
{
    let dag = query.dag();
    push_heading(lines, dag.inputs() as u32, dag.len())?;
    push_nodes(alloc, lines, dag)?;
    push_asserted(lines, query.asserted())
}
