//! The answer to a slice, merged into a sample.

ghost use Rattle.std.specs.Prelude.{◌≡◌, ◌<◌, ◌++◌, ℕ, List, All, IfOk, Some, length, slice_get};
ghost use Rattle.bv_dag.specs.Graphs.{AllFit};
ghost use Rattle.bv_dag.specs.Inputs.{asserted_inputs};
ghost use Rattle.bv_dag.specs.declared.nodes.Node.TheVariants.{Input};
ghost use Rattle.query_slice.specs.Merging.{merged, own_input, own_inputs};

use bv_dag::{Node, Query};
use byte_list::Bytes;
use query_pick::cone;
use std::alloc::{AllocError as NoMemory, Global};

// The node at a place.
fn node_at(nodes: &[Node], id: usize) -> Node
    requires { id < length nodes.now }
    ensures { slice_get nodes.now id ≡ Some result }
{
    nodes[id]
}

// Takes the answer's byte where a node is an input byte.
fn take_byte(bytes: &mut Vec<u8>, answer: &[u8], node: Node)
    requires as_long { length bytes.old.items ≡ length answer.now }
    requires there { (place : ℕ) → node ≡ Input place → place < length answer.now }
    ensures { (places sample : List ℕ) → length sample ≡ length answer.now
        → bytes.old.items ≡ merged places sample answer.now
        → bytes.new.items ≡ merged (places ++ own_input (Some node)) sample answer.now }
{
    if let Node::Input(place) = node {
        bytes[place] = answer[place];
    }
}

// The sample, with the answer's byte where a term at one of these places is an input byte.
fn merged_over(
    alloc: Global,
    sample: &[u8],
    answer: &[u8],
    nodes: &[Node],
    places: &[usize],
) -> Result<Vec<u8>, NoMemory>
    requires as_long { length answer.now ≡ length sample.now }
    requires all_fit { AllFit (length sample.now) nodes.now }
    requires there { All (λ id. id < length nodes.now) places.now }
    ensures { IfOk result (λ bytes. bytes.items
        ≡ merged (own_inputs nodes.now places.now) sample.now answer.now) }
{
    let mut bytes = Vec::from_slice(alloc, sample)?;
    for id in places {
        take_byte(&mut bytes, answer, node_at(nodes, *id));
    }
    Ok(bytes)
}

/// The sample, with the answer's byte at each place that the question rests on.
pub fn merge(
    alloc: Global,
    sample: &Bytes,
    answer: &Bytes,
    query: &Query,
) -> Result<Bytes, NoMemory>
    requires sample { length sample.now ≡ query.now.graph.inputs }
    requires answer { length answer.now ≡ query.now.graph.inputs }
    ensures { IfOk result (λ bytes. bytes
        ≡ merged (asserted_inputs query.now) sample.now answer.now) }
{
    let nodes = query.dag().nodes();
    let places = cone(alloc, query.dag(), query.asserted())?;
    let bytes = merged_over(alloc, sample.as_slice(), answer.as_slice(), nodes, &places)?;
    Ok(Bytes::from_vec(bytes))
}
