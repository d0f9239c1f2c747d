//! The operands of a term.

ghost use Rattle.std.specs.Prelude.{◌≡◌, ◌<◌, ◌∷◌, [], All, Contains, IsTrue, OnOk, length, slice_get, slice_index};
ghost use Rattle.std.specs.List.Sorted.{IsStrictlyIncreasing};
ghost use Rattle.query_pick.specs.Operands.{operands, renamed, Adds};

use bv_dag::Node;
use std::alloc::AllocError as NoMemory;

// Whether a place is above all of these, which increase.
fn is_above(places: &[usize], id: usize) -> bool
    requires { IsStrictlyIncreasing places.now }
    ensures { IsTrue result → All (λ k. k < id) places.now }
{
    match places.last() {
        Some(last) => *last < id,
        None => true,
    }
}

/// Adds a place to others that increase, unless it is one of them. Operands mostly stand right before their node, so it mostly comes
/// behind all others, or near their end.
pub(crate) fn add(places: &mut Vec<usize>, id: usize) -> Result<(), NoMemory>
    requires { IsStrictlyIncreasing places.old.items }
    ensures adds { OnOk result (Adds places.old.items places.new.items (id ∷ [])) }
    ensures increasing { OnOk result (IsStrictlyIncreasing places.new.items) }
{
    if is_above(places, id) {
        places.push(id)?;
    } else if let Err(place) = places.binary_search(&id) {
        places.insert(place, id)?;
    }
    Ok(())
}

// Adds two places.
fn add_both(places: &mut Vec<usize>, first: usize, second: usize) -> Result<(), NoMemory>
    requires { IsStrictlyIncreasing places.old.items }
    ensures adds { OnOk result (Adds
        places.old.items places.new.items (first ∷ second ∷ [])) }
    ensures increasing { OnOk result (IsStrictlyIncreasing places.new.items) }
{
    add(places, first)?;
    add(places, second)
}

/// Adds the operands of a node to places that increase.
pub(crate) fn add_operands(places: &mut Vec<usize>, node: Node) -> Result<(), NoMemory>
    requires { IsStrictlyIncreasing places.old.items }
    ensures adds { OnOk result (Adds places.old.items places.new.items (operands node)) }
    ensures increasing { OnOk result (IsStrictlyIncreasing places.new.items) }
{
    match node {
        Node::Num { .. } => Ok(()),
        Node::Input(_) => Ok(()),
        Node::Not(a) => add(places, a),
        Node::Neg(a) => add(places, a),
        Node::Binary(_, a, b) => add_both(places, a, b),
        Node::Compare(_, a, b) => add_both(places, a, b),
        Node::Ite { condition, yes, no } => {
            add(places, condition)?;
            add_both(places, yes, no)
        }
        Node::Extract { operand, .. } => add(places, operand),
        Node::Extend { operand, .. } => add(places, operand),
        Node::Concat { high, low } => add_both(places, high, low),
    }
}

/// The number that a place has among these, which increase.
pub fn number_of(places: &[usize], id: usize) -> usize
    requires increasing { IsStrictlyIncreasing places.now }
    requires there { Contains places.now id }
    ensures { slice_get places.now result ≡ Some id }
{
    match places.binary_search(&id) {
        Ok(number) => number,
        Err(_) => unreachable!(),
    }
}

/// The node with the numbers of its operands among these places in their stead.
pub(crate) fn renumbered(places: &[usize], node: Node) -> Node
    requires increasing { IsStrictlyIncreasing places.now }
    requires there { All (Contains places.now) (operands node) }
    ensures same { renamed (λ k. slice_index places.now k) result ≡ node }
    ensures there { All (λ k. k < length places.now) (operands result) }
{
    match node {
        Node::Num { .. } | Node::Input(_) => node,
        Node::Not(a) => Node::Not(number_of(places, a)),
        Node::Neg(a) => Node::Neg(number_of(places, a)),
        Node::Binary(op, a, b) => Node::Binary(op, number_of(places, a), number_of(places, b)),
        Node::Compare(op, a, b) => Node::Compare(op, number_of(places, a), number_of(places, b)),
        Node::Ite { condition, yes, no } => Node::Ite {
            condition: number_of(places, condition),
            yes: number_of(places, yes),
            no: number_of(places, no),
        },
        Node::Extract { high, low, operand } => Node::Extract {
            high,
            low,
            operand: number_of(places, operand),
        },
        Node::Extend {
            by,
            signed,
            operand,
        } => Node::Extend {
            by,
            signed,
            operand: number_of(places, operand),
        },
        Node::Concat { high, low } => Node::Concat {
            high: number_of(places, high),
            low: number_of(places, low),
        },
    }
}
