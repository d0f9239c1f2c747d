//! Terms in a row.

ghost use Rattle.std.specs.Prelude.{◌≡◌, ◌↔◌, ◌<◌, ◌≤◌, [], IsTrue, IfOk, OnOk, OnErr, Some, length, take, slice_get};
ghost use Rattle.bv_dag.specs.Nodes.{Fits, values, widths_of};
ghost use Rattle.bv_dag.specs.Graphs.{AllFit};

use crate::nodes::Node;
use crate::words::Word;
use std::alloc::{AllocError as NoMemory, Global};
use std::cmp::Ordering;
use std::hash::{Hash, Hasher};
use std::marker::Model;

/// What the nodes are worth, each in its place.
fn words_of(alloc: Global, nodes: &[Node], input: &[u8]) -> Result<Vec<Word>, NoMemory>
    requires { AllFit (length input.now) nodes.now }
    ensures { IfOk result (λ words. words.items ≡ values input.now nodes.now) }
{
    let mut words = Vec::with_capacity(alloc, nodes.len())?;
    for node in nodes {
        words.push(node.value(&words, input))?;
    }
    Ok(words)
}

/// Terms over bit-vectors, each built of earlier ones.
#[derive(Clone, Debug)]
pub struct Dag {
    inputs: usize,
    nodes: Vec<Node>,
    widths: Vec<u32>,
}

impl Drop for Dag {
    fn drop(self) {
        let Self {
            inputs: _inputs,
            nodes: _nodes,
            widths: _widths,
        } = self;
    }
}

impl Model for Dag {
    ghost use Rattle.std.specs.Prelude.{◌≡◌};
    ghost use Rattle.bv_dag.specs.Nodes.{widths_of};
    ghost use Rattle.bv_dag.specs.Graphs.{Graph, IsDag};

    ghost Value = { Graph };

    ghost view = { λ d. record { inputs = d.inputs; nodes = d.nodes.items } };

    ghost invariant = { λ d. IsDag (record { inputs = d.inputs; nodes = d.nodes.items }) × (d.widths.items ≡ widths_of d.nodes.items) };
}

impl Dag {
    ghost use Rattle.bv_dag.specs.Graphs.{IsDag, with_node, number_of, width_of};

    /// No terms yet, over so many input bytes.
    pub fn new(alloc: Global, inputs: usize) -> Dag
        ensures { result ≡ record { inputs = inputs; nodes = [] } }
    {
        Dag {
            inputs,
            nodes: Vec::new(alloc),
            widths: Vec::new(alloc),
        }
    }

    /// No terms yet, with room for so many.
    pub fn with_capacity(alloc: Global, inputs: usize, count: usize) -> Result<Dag, NoMemory>
        ensures { IfOk result (λ dag. dag ≡ record { inputs = inputs; nodes = [] }) }
    {
        Ok(Dag {
            inputs,
            nodes: Vec::with_capacity(alloc, count)?,
            widths: Vec::with_capacity(alloc, count)?,
        })
    }

    pub fn inputs(&self) -> usize
        ensures { result ≡ self.now.inputs }
    {
        self.inputs
    }

    pub fn len(&self) -> usize
        ensures { result ≡ length self.now.nodes }
    {
        self.nodes.len()
    }

    pub fn is_empty(&self) -> bool
        ensures { IsTrue result ↔ (length self.now.nodes ≡ 0) }
    {
        self.nodes.is_empty()
    }

    pub fn nodes(&self) -> &[Node]
        ensures value { result.now ≡ self.now.nodes }
        ensures fit { IsDag self.now }
    {
        self.nodes.as_slice()
    }

    /// Whether the node may be pushed.
    pub fn fits(&self, node: &Node) -> bool
        ensures { IsTrue result ↔ Fits self.now.inputs (widths_of self.now.nodes) node.now }
    {
        node.fits(self.inputs, &self.widths)
    }

    /// Puts the node behind the others, and answers its place.
    pub fn push(&mut self, node: Node) -> Result<usize, NoMemory>
        requires { Fits self.old.inputs (widths_of self.old.nodes) node }
        ensures place { IfOk result (λ id. id ≡ length self.old.nodes) }
        ensures ok { OnOk result (self.new ≡ with_node self.old node) }
        ensures err { OnErr result (self.new ≡ self.old) }
    {
        let width = node.width(&self.widths);
        let id = self.nodes.len();
        self.widths.reserve(1)?;
        self.nodes.push(node)?;
        self.widths.push(width).unwrap();
        Ok(id)
    }

    /// Keeps the first `len` terms, or all where there are no more.
    pub fn truncate(&mut self, len: usize)
        ensures { self.new ≡ record { inputs = self.old.inputs; nodes = take len self.old.nodes } }
    {
        self.nodes.truncate(len);
        self.widths.truncate(len);
    }

    #[tactic(auto, using(crate::proofs::DagRules::widths))]
    pub fn width_of(&self, id: usize) -> u32
        requires { id < length self.now.nodes }
        ensures value { result ≡ width_of self.now id }
        ensures not_empty { 0 < result }
        ensures at_most_64 { result ≤ 64 }
    {
        self.widths[id]
    }

    /// What all terms are worth, each in its place.
    pub fn words(&self, alloc: Global, input: &[u8]) -> Result<Vec<Word>, NoMemory>
        requires { length input.now ≡ self.now.inputs }
        ensures { IfOk result (λ words. words.items ≡ values input.now self.now.nodes) }
    {
        words_of(alloc, &self.nodes, input)
    }

    /// What the term at a place is worth, given one byte for each input.
    pub fn eval(&self, alloc: Global, id: usize, input: &[u8]) -> Result<u64, NoMemory>
        requires there { id < length self.now.nodes }
        requires each_input { length input.now ≡ self.now.inputs }
        ensures { IfOk result (λ number. number ≡ number_of self.now id input.now) }
    {
        let words = words_of(alloc, &self.nodes[..id + 1], input)?;
        Ok(words[id].number())
    }
}

impl PartialEq for Dag {
    ghost use Rattle.std.proofs.Common.{rules};
    ghost use Rattle.std.specs.Cmp.Rules.{comparing};
    ghost use Rattle.bv_dag.specs.Comparing.{graph_eq};
    ghost use Rattle.bv_dag.specs.contracts.nodes.NodeEq.TheImpl.Laws.{laws-law as equivalence};

    ghost eq = { graph_eq };

    ghost laws = { Prim.search (comparing, rules, equivalence) };

    fn eq(&self, other: &Dag) -> bool {
        self.inputs == other.inputs && self.nodes == other.nodes
    }
}

impl Eq for Dag {
    ghost use Rattle.std.proofs.Common.{rules};
    ghost use Rattle.std.specs.Cmp.Rules.{comparing};
    ghost use Rattle.bv_dag.specs.contracts.nodes.NodeEq.TheImpl.Laws.{laws-law as equivalence};

    ghost laws = { Prim.search (comparing, rules, equivalence) };
}

impl Ord for Dag {
    ghost use Rattle.std.proofs.Common.{rules};
    ghost use Rattle.std.specs.Cmp.Rules.{comparing};
    ghost use Rattle.bv_dag.specs.Comparing.{graph_cmp, graph_ties};
    ghost use Rattle.bv_dag.specs.contracts.nodes.NodeOrd.TheImpl.Laws.{total-law as total_order};

    ghost cmp = { graph_cmp };

    ghost total = { Prim.search (comparing, rules, total_order) };

    ghost matches_partial_cmp = { Prim.search (comparing, rules) };

    ghost matches_eq = { graph_ties };

    fn cmp(&self, other: &Dag) -> Ordering {
        let sizes = self
            .inputs
            .cmp(&other.inputs)
            .then(self.nodes.len().cmp(&other.nodes.len()));
        match sizes {
            Ordering::Equal => self.nodes.cmp(&other.nodes),
            unequal => unequal,
        }
    }
}

impl PartialOrd for Dag {
    ghost use Rattle.std.proofs.Common.{rules};
    ghost use Rattle.std.specs.Cmp.{partial_order_from_own_ties};
    ghost use Rattle.std.specs.Cmp.Rules.{comparing};
    ghost use Rattle.std.specs.Ordering.{as_partial_cmp};
    ghost use Rattle.bv_dag.specs.Comparing.{graph_cmp, graph_ties};
    ghost use Rattle.bv_dag.specs.contracts.nodes.NodeOrd.TheImpl.Laws.{total-law as total_order};

    ghost partial_cmp = { as_partial_cmp graph_cmp };

    ghost laws = { partial_order_from_own_ties (Prim.search (comparing, rules, total_order)) graph_ties };

    fn partial_cmp(&self, other: &Dag) -> Option<Ordering> {
        Some(self.cmp(other))
    }
}

impl Hash for Dag {
    ghost use Rattle.bv_dag.specs.Comparing.{graph_hash, graph_alike};

    ghost hash_input = { graph_hash };

    ghost respects_eq = { λ x y e. graph_alike.fed x y e };

    fn hash<H: Hasher>(&self, state: &mut H) {
        self.inputs.hash(state);
        self.nodes.hash(state);
    }
}
