//! The classes of the input bytes that some terms of a table rest on. One walk over what these terms stand on finds the first input
//! byte under each, which is that of an operand, and joins it with those of the other operands: so the bytes under one term come to
//! be of one class.

ghost use Rattle.std.specs.Prelude.{◌≡◌, ◌<◌, ◌++◌, ℕ, List, All, Contains, IfOk, length, map, slice_get, take, Some};
ghost use Rattle.std.specs.List.Sorted.{IsStrictlyIncreasing};
ghost use Rattle.bv_dag.specs.Graphs.{Graph, IsDag};
ghost use Rattle.bv_dag.specs.declared.nodes.Node.{Node as Term};
ghost use Rattle.query_pick.specs.Cones.{HasOperands, IsCone};
ghost use Rattle.query_pick.specs.Operands.{operands};
ghost use Rattle.query_slice.specs.Classes.{AreLinks, are_same, first_of, first_under, joined, joined_all, label_of};

use crate::classes::Classes;
use bv_dag::{Node, Table};
use query_pick::{cone, number_of};
use std::alloc::{AllocError as NoMemory, Global};

/// The places of all terms under some terms, the first input byte under each, and the classes of these bytes.
#[derive(Drop)]
pub(crate) struct Links {
    places: Vec<usize>,
    firsts: Vec<Option<usize>>,
    classes: Classes,
}

// The first input byte under the term at a place, of those that have been found, which are the first ones in order.
fn first_at(places: &[usize], firsts: &[Option<usize>], id: usize) -> Option<usize>
    requires increasing { IsStrictlyIncreasing places.now }
    requires there { Contains (take (length firsts.now) places.now) id }
    ensures { (graph : Graph)
        → firsts.now ≡ map (first_under graph) (take (length firsts.now) places.now)
        → result ≡ first_under graph id }
{
    firsts[number_of(places, id)]
}

// The first input byte under either of two terms.
fn either(first: Option<usize>, second: Option<usize>) -> Option<usize>
    ensures { (one two : List ℕ) → first ≡ first_of one → second ≡ first_of two
        → result ≡ first_of (one ++ two) }
{
    match first {
        Some(_) => first,
        None => second,
    }
}

// Joins the bytes under two operands. It gives the first one under both.
fn join_two(
    classes: &mut Classes,
    one: Option<usize>,
    other: Option<usize>,
) -> Result<Option<usize>, NoMemory>
    ensures first { IfOk result (λ first. (under above : List ℕ)
        → one ≡ first_of under → other ≡ first_of above → first ≡ first_of (under ++ above)) }
    ensures classes { IfOk result (λ first. classes.new
        ≡ joined (joined classes.old first one) first other) }
{
    let first = either(one, other);
    classes.join(first, one)?;
    classes.join(first, other)?;
    Ok(first)
}

// Joins the bytes under the operands of the next term. It gives the first one under the term.
fn join_operands<T: Table>(
    terms: &T,
    places: &[usize],
    firsts: &[Option<usize>],
    classes: &mut Classes,
    id: usize,
) -> Result<Option<usize>, NoMemory>
    requires there { id < length (T.graph terms.now).nodes }
    requires increasing { IsStrictlyIncreasing places.now }
    requires next { slice_get places.now (length firsts.now) ≡ Some id }
    requires operands { HasOperands (T.graph terms.now) places.now id }
    requires firsts { firsts.now
        ≡ map (first_under (T.graph terms.now)) (take (length firsts.now) places.now) }
    ensures fit { IsDag (T.graph terms.now) }
    ensures first { IfOk result (λ first. first ≡ first_under (T.graph terms.now) id) }
    ensures classes { IfOk result (λ first. (n : Term)
        → slice_get (T.graph terms.now).nodes id ≡ Some n
        → classes.new ≡ joined_all (T.graph terms.now) first classes.old (operands n)) }
{
    match terms.node(id) {
        Node::Num { .. } => Ok(None),
        Node::Input(place) => Ok(Some(place)),
        Node::Not(a) | Node::Neg(a) => Ok(first_at(places, firsts, a)),
        Node::Extract { operand, .. } | Node::Extend { operand, .. } => {
            Ok(first_at(places, firsts, operand))
        }
        Node::Binary(_, a, b) | Node::Compare(_, a, b) => {
            let one = first_at(places, firsts, a);
            join_two(classes, one, first_at(places, firsts, b))
        }
        Node::Concat { high, low } => {
            let one = first_at(places, firsts, high);
            join_two(classes, one, first_at(places, firsts, low))
        }
        Node::Ite { condition, yes, no } => {
            let one = first_at(places, firsts, condition);
            let two = first_at(places, firsts, yes);
            let three = first_at(places, firsts, no);
            let first = either(either(one, two), three);
            classes.join(first, one)?;
            classes.join(first, two)?;
            classes.join(first, three)?;
            Ok(first)
        }
    }
}

// The links of the terms whose cone has these places.
fn walked<T: Table>(alloc: Global, terms: &T, places: Vec<usize>) -> Result<Links, NoMemory>
    requires { (tops : List ℕ) × IsCone (T.graph terms.now) tops places.items }
    ensures { (tops : List ℕ) → IsCone (T.graph terms.now) tops places.items
        → IfOk result (λ l. AreLinks
        (T.graph terms.now) tops l.places.items l.firsts.items l.classes) }
{
    let mut classes = Classes::new(alloc, terms.inputs());
    let mut firsts = Vec::with_capacity(alloc, places.len())?;
    for id in &places {
        let first = join_operands(terms, &places, &firsts, &mut classes, *id)?;
        firsts.push(first)?;
    }
    Ok(Links {
        places,
        firsts,
        classes,
    })
}

/// The links of the bytes under some terms of a table. It looks at what these stand on, and at each term once.
pub(crate) fn links_of<T: Table>(
    alloc: Global,
    terms: &T,
    tops: &[usize],
) -> Result<Links, NoMemory>
    requires { All (λ id. id < length (T.graph terms.now).nodes) tops.now }
    ensures { IfOk result (λ l. AreLinks
        (T.graph terms.now) tops.now l.places.items l.firsts.items l.classes) }
{
    let places = cone(alloc, terms, tops)?;
    walked(alloc, terms, places)
}

impl Links {
    /// Whether the first bytes under two of the terms are there and of one class.
    pub(crate) fn are_one(&self, id: usize, other: usize) -> bool
        requires increasing { IsStrictlyIncreasing self.now.places.items }
        requires each { length self.now.firsts.items ≡ length self.now.places.items }
        requires there { Contains self.now.places.items id }
        requires other { Contains self.now.places.items other }
        ensures { (graph : Graph)
            → self.now.firsts.items ≡ map (first_under graph) self.now.places.items
            → result ≡ are_same (label_of self.now.classes (first_under graph id))
            (label_of self.now.classes (first_under graph other)) }
    {
        let first = first_at(&self.places, &self.firsts, id);
        let second = first_at(&self.places, &self.firsts, other);
        self.classes.are_one(first, second)
    }
}
