//! What lines make of each part of a fork tree that the walk comes to.

ghost use Rattle.std.specs.Prelude.{◌≡◌, IfOk, IfErr};
ghost use Rattle.cert_audit.specs.Steps.{IsStopMet, IsVisited, as_fork, as_leaf};
ghost use Rattle.cert_audit.specs.Todos.{HasStopped, IsOfTree};
ghost use Rattle.cert_audit.specs.VisitFaults.{IsNodeFault, IsStopFault, IsVisitFault};
ghost use Rattle.cert_audit.specs.declared.todo.Todo.TheVariants.{Node};

use crate::branch::at_branch;
use crate::conflicts::take_conflicts;
use crate::nodes::{behind_cut_nodes, take_cut_nodes, take_cut_steps, take_end};
use crate::pin::at_pin;
use crate::taken::{Taken, Visited, Went};
use crate::targets::take_targets;
use crate::todo::Todo;
use cert_form::CertLine;
use cert_query::Fault;
use run_sides::Pin;
use std::alloc::{AllocError as NoMemory, Global};
use sym_machine::{Advanced, Stop, advance};
use sym_state::State;
use tree_core::Budgets;

// A leaf, where no line is at fault.
fn as_leaf(taken: Result<Taken<'_>, Fault>) -> Result<Visited<'_>, Fault>
    ensures { result ≡ as_leaf taken.entry }
{
    match taken {
        Ok(taken) => Ok(Visited::Leaf(taken)),
        Err(fault) => Err(fault),
    }
}

// What has come in the place of a node, where no line is at fault.
fn as_fork(went: Result<Went<'_>, Fault>) -> Result<Visited<'_>, Fault>
    ensures { result ≡ as_fork went.entry }
{
    match went {
        Ok(went) => Ok(Visited::Fork(went)),
        Err(fault) => Err(fault),
    }
}

// What lines make of a run that stopped so.
fn at_stop<'a>(
    alloc: Global,
    budgets: &Budgets,
    run: &mut State,
    stop: Stop,
    lines: &'a [CertLine],
) -> Result<Result<Visited<'a>, Fault>, NoMemory>
    requires { HasStopped budgets.now run.old stop }
    ensures met { IfOk result (λ visited. IfOk visited
        (IsStopMet budgets.now run.old stop lines.now)) }
    ensures cause { IfOk result (λ visited. IfErr visited
        (IsStopFault budgets.now run.old stop lines.now)) }
{
    match stop {
        Stop::Ended(end) => Ok(as_leaf(take_end(alloc, run, end, lines)?)),
        Stop::Steps => Ok(as_leaf(take_cut_steps(alloc, run, lines)?)),
        Stop::Branch { term } => {
            if let Some(rest) = behind_cut_nodes(lines) {
                let taken = take_cut_nodes(alloc, run, budgets.nodes, rest)?;
                return Ok(Ok(Visited::Leaf(taken)));
            }
            Ok(as_fork(at_branch(alloc, run, term, lines)?))
        }
        Stop::Pin { place, term } => {
            if let Some(rest) = behind_cut_nodes(lines) {
                let taken = take_cut_nodes(alloc, run, budgets.nodes, rest)?;
                return Ok(Ok(Visited::Leaf(taken)));
            }
            let pin = Pin { place, term };
            Ok(as_fork(at_pin(alloc, run, &pin, budgets.targets, lines)?))
        }
    }
}

/// What lines make of a node: its run goes on until it ends, has spent its steps, or comes to a fork.
fn visit_node<'a>(
    alloc: Global,
    budgets: &Budgets,
    run: &State,
    lines: &'a [CertLine],
) -> Result<Result<Visited<'a>, Fault>, NoMemory>
    requires { IsOfTree budgets.now (Node run.now) }
    ensures visited { IfOk result (λ visited. IfOk visited
        (IsVisited budgets.now (Node run.now) lines.now)) }
    ensures cause { IfOk result (λ visited. IfErr visited
        (IsNodeFault budgets.now run.now lines.now)) }
{
    let Advanced { mut run, stop } = advance(run, budgets.steps)?;
    at_stop(alloc, budgets, &mut run, stop, lines)
}

// What lines make of what the walk comes to, which is of no use after that.
fn visit_part<'a>(
    alloc: Global,
    budgets: &Budgets,
    todo: &mut Todo,
    lines: &'a [CertLine],
) -> Result<Result<Visited<'a>, Fault>, NoMemory>
    requires { IsOfTree budgets.now todo.old }
    ensures visited { IfOk result (λ visited. IfOk visited
        (IsVisited budgets.now todo.old lines.now)) }
    ensures cause { IfOk result (λ visited. IfErr visited
        (IsVisitFault budgets.now todo.old lines.now)) }
{
    match todo {
        Todo::Node(run) => visit_node(alloc, budgets, run, lines),
        Todo::Conflicts(asked) => {
            let taken = take_conflicts(alloc, asked, budgets.conflicts, lines)?;
            Ok(as_leaf(taken))
        }
        Todo::Targets(others) => {
            let taken = take_targets(alloc, others, budgets.targets, lines)?;
            Ok(as_leaf(taken))
        }
    }
}

/// What lines make of what the walk comes to.
pub fn visit<'a>(
    alloc: Global,
    budgets: &Budgets,
    mut todo: Todo,
    lines: &'a [CertLine],
) -> Result<Result<Visited<'a>, Fault>, NoMemory>
    requires { IsOfTree budgets.now todo }
    ensures visited { IfOk result (λ visited. IfOk visited
        (IsVisited budgets.now todo lines.now)) }
    ensures cause { IfOk result (λ visited. IfErr visited
        (IsVisitFault budgets.now todo lines.now)) }
{
    visit_part(alloc, budgets, &mut todo, lines)
}
