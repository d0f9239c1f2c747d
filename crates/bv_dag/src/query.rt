//! A condition on input bytes.

ghost use Rattle.std.specs.Prelude.{◌≡◌, ◌<◌, ◌^◌, ◌++◌, ◌∷◌, [], IfOk, OnOk, OnErr, length};

use crate::evaluation::are_met;
use crate::graph::Dag;
use std::alloc::{AllocError as NoMemory, Global};
use std::cmp::Ordering;
use std::hash::{Hash, Hasher};
use std::marker::Model;

/// Terms of one bit, each of which is to be worth 1.
#[derive(Clone, Debug)]
pub struct Query {
    dag: Dag,
    asserted: Vec<usize>,
}

impl Drop for Query {
    fn drop(self) {
        let Self {
            dag: _dag,
            asserted: _asserted,
        } = self;
    }
}

impl Model for Query {
    ghost use Rattle.bv_dag.specs.Queries.{Condition, AreBits};

    ghost Value = { Condition };

    ghost view = { λ q. record { graph = q.dag; asserted = q.asserted.items } };

    ghost invariant = { λ q. AreBits q.dag q.asserted.items };
}

impl Query {
    ghost use Rattle.bv_dag.specs.Graphs.{width_of};
    ghost use Rattle.bv_dag.specs.Queries.{Condition, holds, AreBits};

    pub fn new(dag: Dag, asserted: Vec<usize>) -> Query
        requires { AreBits dag asserted.items }
        ensures { result ≡ record { graph = dag; asserted = asserted.items } }
    {
        Query { dag, asserted }
    }

    /// Asserts one more term.
    pub fn assert(&mut self, id: usize) -> Result<(), NoMemory>
        requires { width_of self.old.graph id ≡ 1 }
        ensures ok { OnOk result (self.new
            ≡ record { graph = self.old.graph; asserted = self.old.asserted ++ id ∷ [] }) }
        ensures err { OnErr result (self.new ≡ self.old) }
    {
        self.asserted.push(id)?;
        Ok(())
    }

    /// It has fewer than 2^64 terms, as any list in memory.
    pub fn is_whole(&self)
        ensures { length self.now.graph.nodes < 2 ^ 64 }
    {
        let _ = self.dag.len();
    }

    pub fn dag(&self) -> &Dag
        ensures { result.now ≡ self.now.graph }
    {
        &self.dag
    }

    pub fn asserted(&self) -> &[usize]
        ensures value { result.now ≡ self.now.asserted }
        ensures bits { AreBits self.now.graph self.now.asserted }
    {
        self.asserted.as_slice()
    }

    pub fn inputs(&self) -> usize
        ensures { result ≡ self.now.graph.inputs }
    {
        self.dag.inputs()
    }

    /// Whether these input bytes meet the condition. It is left at the first term that isn't 1.
    pub fn holds(&self, alloc: Global, input: &[u8]) -> Result<bool, NoMemory>
        ensures { IfOk result (λ yes. yes ≡ holds self.now input.now) }
    {
        if input.len() != self.dag.inputs() {
            return Ok(false);
        }
        let mut words = Vec::with_capacity(alloc, self.dag.len())?;
        are_met(&mut words, &self.dag, &self.asserted, input)
    }
}

impl PartialEq for Query {
    ghost use Rattle.std.proofs.Common.{rules};
    ghost use Rattle.std.specs.Cmp.Rules.{comparing};
    ghost use Rattle.bv_dag.specs.Comparing.{condition_eq};
    ghost use Rattle.bv_dag.specs.contracts.graph.DagEq.TheImpl.Laws.{laws-law as equivalence};

    ghost eq = { condition_eq };

    ghost laws = { Prim.search (comparing, rules, equivalence) };

    fn eq(&self, other: &Query) -> bool {
        self.dag == other.dag && self.asserted == other.asserted
    }
}

impl Eq for Query {
    ghost use Rattle.std.proofs.Common.{rules};
    ghost use Rattle.std.specs.Cmp.Rules.{comparing};
    ghost use Rattle.bv_dag.specs.contracts.graph.DagEq.TheImpl.Laws.{laws-law as equivalence};

    ghost laws = { Prim.search (comparing, rules, equivalence) };
}

impl Ord for Query {
    ghost use Rattle.std.proofs.Common.{rules};
    ghost use Rattle.std.specs.Cmp.Rules.{comparing};
    ghost use Rattle.bv_dag.specs.Comparing.{condition_cmp, condition_ties};
    ghost use Rattle.bv_dag.specs.contracts.graph.DagOrd.TheImpl.Laws.{total-law as total_order};

    ghost cmp = { condition_cmp };

    ghost total = { Prim.search (comparing, rules, total_order) };

    ghost matches_partial_cmp = { Prim.search (comparing, rules) };

    ghost matches_eq = { condition_ties };

    fn cmp(&self, other: &Query) -> Ordering {
        self.dag
            .cmp(&other.dag)
            .then(self.asserted.cmp(&other.asserted))
    }
}

impl PartialOrd for Query {
    ghost use Rattle.std.proofs.Common.{rules};
    ghost use Rattle.std.specs.Cmp.{partial_order_from_own_ties};
    ghost use Rattle.std.specs.Cmp.Rules.{comparing};
    ghost use Rattle.std.specs.Ordering.{as_partial_cmp};
    ghost use Rattle.bv_dag.specs.Comparing.{condition_cmp, condition_ties};
    ghost use Rattle.bv_dag.specs.contracts.graph.DagOrd.TheImpl.Laws.{total-law as total_order};

    ghost partial_cmp = { as_partial_cmp condition_cmp };

    ghost laws = { partial_order_from_own_ties (Prim.search (comparing, rules, total_order)) condition_ties };

    fn partial_cmp(&self, other: &Query) -> Option<Ordering> {
        Some(self.cmp(other))
    }
}

impl Hash for Query {
    ghost use Rattle.bv_dag.specs.Comparing.{condition_hash, condition_alike};

    ghost hash_input = { condition_hash };

    ghost respects_eq = { λ x y e. condition_alike.fed x y e };

    fn hash<H: Hasher>(&self, state: &mut H) {
        self.dag.hash(state);
        self.asserted.hash(state);
    }
}
