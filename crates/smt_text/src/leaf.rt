//! A leaf of the fork tree.

use bv_dag::Query;
use fork_spec::LeafEnd;
use rv_decode::PathStep;
use std::marker::Model;
use tree_core::Choice;

/// All runs that make the same decisions, and the condition under which a run is one of them.
#[derive(Debug)]
pub struct LeafText {
    /// The sides taken at the forks above it, from the root on.
    pub choices: Vec<Choice>,
    /// What each conditional branch and each JALR of its runs does.
    pub path: Vec<PathStep>,
    /// The steps of its runs, the ending one included.
    pub steps: u32,
    pub end: LeafEnd,
    /// The terms, and those of them that are to be 1.
    pub condition: Query,
    /// The terms of what its runs write, a byte each; so far, where they are cut.
    pub outputs: Vec<usize>,
}

impl Drop for LeafText {
    fn drop(self) {
        let Self {
            choices: _choices,
            path: _path,
            steps: _steps,
            end: _end,
            condition: _condition,
            outputs: _outputs,
        } = self;
    }
}

impl Model for LeafText {
    ghost use Rattle.fork_spec.specs.Leaves.{Leaf};

    ghost Value = { Leaf };

    ghost view = { λ l. record {
      choices = l.choices.items;
      path = l.path.items;
      steps = l.steps;
      end = l.end;
      condition = l.condition;
      outputs = l.outputs.items;
    } };
}
