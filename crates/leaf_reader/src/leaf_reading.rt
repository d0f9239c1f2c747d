//! What was read of a leaf's text so far.

ghost use Rattle.std.specs.Prelude.{◌≡◌, ◌<◌, ℕ};
ghost use Rattle.smt_text.specs.Grammar as spec;
ghost use Rattle.smt_text.specs.Phases.{IsSoundReading};
ghost use Rattle.leaf_reader.specs.ReadingState.{reading_of};

use bv_dag::{Dag, Query};
use fork_spec::LeafEnd;
use rv_decode::PathStep;
use smt_text::{LeafText, Spot};
use std::alloc::Global;
use tree_core::{Cause, Choice};

/// What the lines so far say.
#[derive(Debug)]
pub struct LeafReading {
    pub place: Spot,
    /// The budget that was spent, where the runs were cut.
    pub kind: Option<Cause>,
    pub choices: Vec<Choice>,
    pub path: Vec<PathStep>,
    pub steps: u32,
    /// The status is 0 until its line.
    pub end: LeafEnd,
    /// How many nodes and outputs are announced.
    pub node_count: usize,
    pub output_count: usize,
    /// How many inputs were declared.
    pub declared: usize,
    /// The nodes so far, over as many inputs as are announced.
    pub dag: Dag,
    pub outputs: Vec<usize>,
    pub asserted: Vec<usize>,
}

impl Drop for LeafReading {
    fn drop(self) {
        let Self {
            place: _place,
            kind: _kind,
            choices: _choices,
            path: _path,
            steps: _steps,
            end: _end,
            node_count: _node_count,
            output_count: _output_count,
            declared: _declared,
            dag: _dag,
            outputs: _outputs,
            asserted: _asserted,
        } = self;
    }
}

impl LeafReading {
    /// Before the first line.
    pub fn new(alloc: Global) -> LeafReading
        ensures { reading_of result ≡ spec.start }
    {
        LeafReading {
            place: Spot::AtFormat,
            kind: None,
            choices: Vec::new(alloc),
            path: Vec::new(alloc),
            steps: 0,
            end: LeafEnd::Exits { status: 0 },
            node_count: 0,
            output_count: 0,
            declared: 0,
            dag: Dag::new(alloc, 0),
            outputs: Vec::new(alloc),
            asserted: Vec::new(alloc),
        }
    }

    /// What is to come behind the inputs so far.
    pub(crate) fn behind_inputs(&self) -> Spot
        ensures { result ≡ spec.behind_inputs (reading_of self.now) }
    {
        if self.declared == self.dag.inputs() {
            Spot::AtBase
        } else {
            Spot::AmongInputs
        }
    }

    /// What is to come behind the outputs so far.
    pub(crate) fn behind_outputs(&self) -> Spot
        ensures { result ≡ spec.behind_outputs (reading_of self.now) }
    {
        if self.outputs.len() == self.output_count {
            Spot::AmongAssertions
        } else {
            Spot::AmongOutputs
        }
    }

    /// What is to come behind the nodes so far.
    pub(crate) fn behind_nodes(&self) -> Spot
        ensures { result ≡ spec.behind_nodes (reading_of self.now) }
    {
        if self.dag.len() != self.node_count {
            return Spot::AmongNodes;
        }
        match self.end {
            LeafEnd::Exits { .. } => Spot::AtStatus,
            LeafEnd::Traps(_) | LeafEnd::Cut(_) => self.behind_outputs(),
        }
    }

    /// Whether the term is that wide.
    pub fn is_wide(&self, id: usize, width: u32) -> bool
        requires { 0 < width }
        ensures { result ≡ spec.is_wide (reading_of self.now) id width }
    {
        id < self.dag.len() && self.dag.width_of(id) == width
    }

    /// The leaf that was read.
    pub(crate) fn into_leaf(self) -> LeafText
        requires { IsSoundReading (reading_of self) }
        ensures { result ≡ spec.leaf_of (reading_of self) }
    {
        let Self {
            place: _place,
            kind: _kind,
            choices,
            path,
            steps,
            end,
            node_count: _node_count,
            output_count: _output_count,
            declared: _declared,
            dag,
            outputs,
            asserted,
        } = self;
        LeafText {
            choices,
            path,
            steps,
            end,
            condition: Query::new(dag, asserted),
            outputs,
        }
    }
}
