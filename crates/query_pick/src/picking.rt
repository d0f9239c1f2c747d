//! Terms picked from a table, and the question that some of them ask.

ghost use Rattle.std.specs.Prelude.{◌≡◌, ◌<◌, ℕ, List, All, Contains, IfOk, length, map, slice_index};
ghost use Rattle.std.specs.List.Sorted.{IsStrictlyIncreasing};
ghost use Rattle.bv_dag.specs.Graphs.{IsDag, val, width_of};
ghost use Rattle.bv_dag.specs.Queries.{AreBits, holds};
ghost use Rattle.term_trees.specs.Trees.{trees, tree_of};
ghost use Rattle.query_pick.specs.Cones.{IsCone};
ghost use Rattle.query_pick.specs.Picks.{IsFromCone};

use crate::finding::cone;
use crate::operands::{number_of, renumbered};
use bv_dag::{Dag, Query, Table};
use std::alloc::{AllocError as NoMemory, Global};

/// Some terms of a table in a graph of their own, over only what they stand on.
#[derive(Debug, Drop)]
pub struct Picked {
    pub graph: Dag,
    /// Where the terms stand in it, in the order in which they were asked for.
    pub ids: Vec<usize>,
}

// The terms at these places, in a graph of their own.
fn copied<T: Table>(alloc: Global, terms: &T, places: &[usize]) -> Result<Dag, NoMemory>
    requires { (tops : List ℕ) × IsCone (T.graph terms.now) tops places.now }
    ensures inputs { IfOk result (λ dag. dag.inputs ≡ (T.graph terms.now).inputs) }
    ensures dag { IfOk result (λ dag. IsDag dag) }
    ensures same { IfOk result (λ dag. trees dag.nodes
        ≡ map (tree_of (T.graph terms.now)) places.now) }
{
    let mut dag = Dag::with_capacity(alloc, terms.inputs(), places.len())?;
    for id in places {
        dag.push(renumbered(places, terms.node(*id)))?;
    }
    Ok(dag)
}

// The numbers that some places have among these.
fn numbers_of(alloc: Global, places: &[usize], some: &[usize]) -> Result<Vec<usize>, NoMemory>
    requires increasing { IsStrictlyIncreasing places.now }
    requires there { All (Contains places.now) some.now }
    ensures same { IfOk result (λ numbers. map (λ k. slice_index places.now k) numbers.items
        ≡ some.now) }
    ensures there { IfOk result (λ numbers. All (λ k. k < length places.now) numbers.items) }
{
    let mut numbers = Vec::with_capacity(alloc, some.len())?;
    for id in some {
        numbers.push(number_of(places, *id))?;
    }
    Ok(numbers)
}

/// Some terms of a table in a graph of their own, over only what they stand on, renumbered.
/// It costs in proportion to these, and not to the table.
pub fn pick_terms<T: Table>(alloc: Global, terms: &T, ids: &[usize]) -> Result<Picked, NoMemory>
    requires { All (λ id. id < length (T.graph terms.now).nodes) ids.now }
    ensures inputs { IfOk result (λ p. p.graph.inputs ≡ (T.graph terms.now).inputs) }
    ensures dag { IfOk result (λ p. IsDag p.graph) }
    ensures there { IfOk result (λ p. All (λ id. id < length p.graph.nodes) p.ids.items) }
    ensures same_trees { IfOk result (λ p.
        map (tree_of p.graph) p.ids.items ≡ map (tree_of (T.graph terms.now)) ids.now) }
    ensures same_widths { IfOk result (λ p.
        map (width_of p.graph) p.ids.items ≡ map (width_of (T.graph terms.now)) ids.now) }
    ensures same_values { IfOk result (λ p. (input : List ℕ) →
        map (λ id. val p.graph id input) p.ids.items
        ≡ map (λ id. val (T.graph terms.now) id input) ids.now) }
    ensures only_cone { IfOk result (λ p. IsFromCone (T.graph terms.now) ids.now p.graph) }
{
    let places = cone(alloc, terms, ids)?;
    let graph = copied(alloc, terms, &places)?;
    let numbers = numbers_of(alloc, &places, ids)?;
    Ok(Picked {
        graph,
        ids: numbers,
    })
}

/// The question whether terms of one bit can all be 1, over only the terms that they stand on, renumbered.
/// It costs in proportion to these, and not to the table.
pub fn pick<T: Table>(alloc: Global, terms: &T, conditions: &[usize]) -> Result<Query, NoMemory>
    requires { AreBits (T.graph terms.now) conditions.now }
    ensures inputs { IfOk result (λ query. query.graph.inputs ≡ (T.graph terms.now).inputs) }
    ensures same_trees { IfOk result (λ query. map (tree_of query.graph) query.asserted
        ≡ map (tree_of (T.graph terms.now)) conditions.now) }
    ensures same_meaning { IfOk result (λ query. (input : List ℕ) →
        holds query input ≡ holds
        (record { graph = (T.graph terms.now); asserted = conditions.now }) input) }
    ensures only_cone { IfOk result (λ query. IsFromCone
        (T.graph terms.now) conditions.now query.graph) }
{
    let picked = pick_terms(alloc, terms, conditions)?;
    Ok(Query::new(picked.graph, picked.ids))
}
