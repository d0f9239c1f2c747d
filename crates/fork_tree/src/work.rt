//! Who works a node, and what comes of it.

ghost use Rattle.std.specs.Prelude.{◌≤◌, IfOk, Some};
ghost use Rattle.tree_core.specs.declared.cause.Cause.TheVariants.{Nodes};
ghost use Rattle.fork_tree.specs.Works.{EndsAs, IsWorked, Rules};

use crate::content::Content;
use fork_spec::Placed;
use std::alloc::{AllocError as NoMemory, Global};
use std::sync::Wait;
use tree_core::Kid;
use work_gate::Gate;

/// What comes of a state: a leaf whose runs have all ended, one that has spent its steps, or kids that share out what it stands for.
#[derive(Drop)]
pub enum Parts<S: Drop, L: Drop> {
    Finished(L),
    CutSteps(L),
    /// By the order of their choices, with the run that parts into them.
    Kids(Vec<Kid<Content<S, L>>>, S),
}

/// A worker of states. Which states are well and which leaves are right may depend on it, as on a program and its budgets.
pub trait Work: Drop {
    type State: Placed;

    type Leaf: Placed;

    // What is asked of its states and leaves.
    ghost rules: { Self → Rules Self.State Self.Leaf };

    /// Works a state, up to the next fork or the end of all its runs. Once its parts are made, this worker reaches `Working` at the
    /// gate; what the gate answers there isn't heeded.
    fn work(
        &self,
        rt: &impl Wait,
        alloc: Global,
        gate: &impl Gate,
        by: u32,
        state: &Self::State,
    ) -> Result<Parts<Self::State, Self::Leaf>, NoMemory>
        requires well { (rules self.now).IsWell state.now }
        ensures { IfOk result (IsWorked
            (rules self.now) Self.State.place Self.Leaf.place state.now) };

    /// The leaf of a run that may not part, since there are so many nodes.
    fn cut_nodes(&self, alloc: Global, run: Self::State, nodes: u32) -> Result<Self::Leaf, NoMemory>
        requires well { (rules self.now).IsWell run }
        requires full { (rules self.now).nodes ≤ nodes }
        ensures { IfOk result (EndsAs
            (rules self.now) Self.State.place Self.Leaf.place (Some Nodes) (Some nodes) run) };
}
