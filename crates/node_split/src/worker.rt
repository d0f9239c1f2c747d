//! Work on one symbolic run.

ghost use Rattle.std.specs.Prelude.{◌≡◌, ◌≤◌, IfOk};
ghost use Rattle.fork_spec.specs.Leaves.{IsSmall};
ghost use Rattle.fork_tree.specs.Works.{IsWorked};
ghost use Rattle.sym_state.specs.Places.{run_place};
ghost use Rattle.rv_spec.specs.Memory.{count_of};
ghost use Rattle.sym_state.specs.Symbolic.{KnowsTruth, most_steps};
ghost use Rattle.sym_state.specs.Runs.{IsSampled};
ghost use Rattle.sym_machine.specs.Advancing.{Advances, StoppedBy};
ghost use Rattle.node_split.specs.Rules.{leaf_place, rules_of};

use crate::branch::at_branch;
use crate::forked::Forked;
use crate::pin::at_pin;
use fork_tree::{Parts, Work};
use leaf_part::LeafPart;
use query_front::{Counts, Shared};
use run_leaves::{cut_nodes, cut_steps, finish};
use run_sides::Pin;
use std::alloc::{AllocError as NoMemory, Global};
use std::marker::Model;
use std::sync::Wait;
use sym_machine::{Advanced, Stop, advance};
use sym_state::{Program, State};
use tree_core::Budgets;
use work_gate::{Gate, Point};

/// Works the runs of a program, within budgets, and keeps the answers to the questions that it asks. A run may make 1,000,000
/// steps at most, and one value of a term at least becomes a side of its own. Whether there are as many nodes as there may be is
/// for the tree to tell: a run that parts is handed out with its sides, so that it can be cut in their place.
pub struct Worker {
    program: Program,
    budgets: Budgets,
    shared: Shared,
}

impl Drop for Worker {
    fn drop(self) {
        let Self {
            program: _program,
            budgets: _budgets,
            shared: _shared,
        } = self;
    }
}

impl Model for Worker {
    ghost use Rattle.std.specs.Prelude.{◌≡◌, ◌≤◌};
    ghost use Rattle.fork_spec.specs.Leaves.{IsSmall};
    ghost use Rattle.rv_spec.specs.Memory.{count_of};
    ghost use Rattle.sym_state.specs.Symbolic.{most_steps};
    ghost use Rattle.node_split.specs.Rules as spec;

    ghost Value = { spec.Worker };

    ghost coded = { spec.worker_code };

    ghost view = { λ w. record { program = w.program; budgets = w.budgets } };

    ghost invariant = { λ w. IsSmall (count_of w.program.regions) × (w.budgets.steps ≤ most_steps) × (1 ≤ w.budgets.targets) };
}

impl Worker {
    /// The worker of a program within these budgets, with no answers yet.
    pub fn new(alloc: Global, program: Program, budgets: Budgets) -> Result<Worker, NoMemory>
        requires few_inputs { IsSmall (count_of program.regions) }
        requires steps { budgets.steps ≤ most_steps }
        requires targets { 1 ≤ budgets.targets }
        ensures { IfOk result (λ worker. worker ≡ record { program = program; budgets = budgets }) }
    {
        Ok(Worker {
            program,
            budgets,
            shared: Shared::new(alloc)?,
        })
    }

    /// What it runs.
    pub fn program(&self) -> &Program
        ensures value { result.now ≡ self.now.program }
        ensures few_inputs { IsSmall (count_of self.now.program.regions) }
    {
        &self.program
    }

    /// How far its work may go.
    pub fn budgets(&self) -> Budgets
        ensures value { result ≡ self.now.budgets }
        ensures steps { result.steps ≤ most_steps }
        ensures targets { 1 ≤ result.targets }
    {
        self.budgets
    }

    /// How many questions it has asked so far, by what each was answered.
    pub fn counts(&self) -> Counts {
        self.shared.counts()
    }

    // Advances a run, and puts in its place what came of it.
    fn resume(&self, run: &mut State) -> Result<Stop, NoMemory>
        requires knows { KnowsTruth run.old }
        requires within { run.old.steps ≤ self.now.budgets.steps }
        ensures { IfOk result (Advances self.now.budgets.steps run.old run.new) }
    {
        let further = advance(run, self.budgets.steps)?;
        *run = further.run;
        Ok(further.stop)
    }

    // Goes on with a run that stopped, until it forks, all its runs have ended, or its budget of steps is spent.
    fn follow(
        &self,
        rt: &impl Wait,
        alloc: Global,
        mut run: State,
        mut stop: Stop,
    ) -> Result<Parts<State, LeafPart>, NoMemory>
        requires stopped { StoppedBy self.now.program self.now.budgets.steps run stop }
        requires sampled { IsSampled run }
        ensures { IfOk result (IsWorked
            (rules_of self.now.program self.now.budgets) run_place leaf_place run) }
    {
        loop {
            let forked = match stop {
                Stop::Steps => return Ok(Parts::CutSteps(cut_steps(alloc, &mut run)?)),
                Stop::Ended(end) => return Ok(Parts::Finished(finish(alloc, &mut run, end)?)),
                Stop::Branch { term } => {
                    at_branch(rt, alloc, &self.shared, &run, term, &self.budgets)?
                }
                Stop::Pin { place, term } => {
                    let pin = Pin { place, term };
                    at_pin(rt, alloc, &self.shared, &run, &pin, &self.budgets)?
                }
            };
            match forked {
                Forked::One { place, decided } => {
                    run.know(place, decided);
                    stop = self.resume(&mut run)?;
                }
                Forked::Split(kids) => return Ok(Parts::Kids(kids, run)),
            }
        }
    }
}

impl Work for Worker {
    type State = State;

    type Leaf = LeafPart;

    ghost use Rattle.node_split.specs.Rules.{rules_of};

    ghost rules = { λ worker. rules_of worker.program worker.budgets };

    fn work(
        &self,
        rt: &impl Wait,
        alloc: Global,
        gate: &impl Gate,
        by: u32,
        state: &State,
    ) -> Result<Parts<State, LeafPart>, NoMemory> {
        let Advanced { run, stop } = advance(state, self.budgets.steps)?;
        let parts = self.follow(rt, alloc, run, stop);
        // Whoever may leave is asked again before the parts are entered.
        let _ = gate.reached(by, Point::Working);
        parts
    }

    fn cut_nodes(&self, alloc: Global, mut run: State, nodes: u32) -> Result<LeafPart, NoMemory> {
        // What is known of the budgets tells that the leaf's texts have room.
        let _ = &self.budgets;
        cut_nodes(alloc, &mut run, nodes)
    }
}
