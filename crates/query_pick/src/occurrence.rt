//! Which input bytes a condition rests on, from one walk over its table: what is known of a term's operands says what
//! is known of the term.

ghost use Rattle.std.specs.Prelude.{◌≡◌, ℕ, ◌++◌, List, IfOk};
ghost use Rattle.std.specs.List.{flat_map};
ghost use Rattle.bv_dag.specs.Inputs.{node_inputs, inputs_at, inputs_of};
ghost use Rattle.query_pick.specs.Occurring.{IsOccurrence, AreOccurrences};

use bv_dag::Node;
use std::alloc::{AllocError as NoMemory, Global};

/// The input bytes under a term, as far as it matters how many they are.
#[derive(Clone, Copy, Debug)]
pub enum Occurrence {
    /// None.
    NoInput,
    /// This one.
    OneInput(usize),
    /// Two at least.
    MoreInputs,
}

// The input bytes under either of two terms.
fn joined(first: Occurrence, second: Occurrence) -> Occurrence
    ensures { (one two : List ℕ) → IsOccurrence one first → IsOccurrence two second
        → IsOccurrence (one ++ two) result }
{
    match (first, second) {
        (Occurrence::NoInput, _) => second,
        (_, Occurrence::NoInput) => first,
        (Occurrence::OneInput(one), Occurrence::OneInput(two)) if one == two => first,
        _ => Occurrence::MoreInputs,
    }
}

// Those under the term at a place.
fn at(found: &[Occurrence], place: usize) -> Occurrence
    ensures { (under : List (List ℕ)) → AreOccurrences under found.now
        → IsOccurrence (inputs_at under place) result }
{
    match found.get(place) {
        Some(occurrence) => *occurrence,
        None => Occurrence::NoInput,
    }
}

// Those under a term, from those under the terms before it.
fn of_node(found: &[Occurrence], node: &Node) -> Occurrence
    ensures { (under : List (List ℕ)) → AreOccurrences under found.now
        → IsOccurrence (node_inputs (inputs_at under) node.now) result }
{
    match node {
        Node::Num { .. } => Occurrence::NoInput,
        Node::Input(place) => Occurrence::OneInput(*place),
        Node::Not(a) | Node::Neg(a) => at(found, *a),
        Node::Extract { operand, .. } | Node::Extend { operand, .. } => at(found, *operand),
        Node::Binary(_, a, b) => joined(at(found, *a), at(found, *b)),
        Node::Compare(_, a, b) => joined(at(found, *a), at(found, *b)),
        Node::Concat { high, low } => joined(at(found, *high), at(found, *low)),
        Node::Ite { condition, yes, no } => {
            let sides = joined(at(found, *condition), at(found, *yes));
            joined(sides, at(found, *no))
        }
    }
}

// Those under each term of a table.
fn of_nodes(alloc: Global, nodes: &[Node]) -> Result<Vec<Occurrence>, NoMemory>
    ensures { IfOk result (λ found. AreOccurrences (inputs_of nodes.now) found.items) }
{
    let mut found = Vec::with_capacity(alloc, nodes.len())?;
    for node in nodes {
        found.push(of_node(&found, node))?;
    }
    Ok(found)
}

/// The input bytes under the terms of a table at these places. The only error is want of memory.
pub fn occurring(alloc: Global, nodes: &[Node], asserted: &[usize]) -> Result<Occurrence, NoMemory>
    ensures { IfOk result (IsOccurrence (flat_map (inputs_at (inputs_of nodes.now)) asserted.now)) }
{
    let found = of_nodes(alloc, nodes)?;
    let mut all = Occurrence::NoInput;
    for id in asserted {
        all = joined(all, at(&found, *id));
    }
    Ok(all)
}
