//! The walk through a program's fork tree along the lines of a certificate.

ghost use Rattle.std.specs.Prelude.{◌≡◌, ◌+◌, ◌^◌, ◌≤◌, ◌<◌, ◌++◌, [], OnOk, IfOk, IfErr, reverse};
ghost use Rattle.fork_spec.specs.Histories.{cause_of};
ghost use Rattle.fork_spec.specs.Leaves.{IsSmall};
ghost use Rattle.rv_spec.specs.Memory.{count_of};
ghost use Rattle.sym_state.specs.Symbolic.{most_steps};
ghost use Rattle.cert_audit.specs.WalkFaults.{IsWalkFault};
ghost use Rattle.cert_audit.specs.Walks.{IsWalked, counted, rest_behind, stack_behind, tally_behind};

use crate::taken::Visited;
use crate::todo::Todo;
use crate::visiting::visit;
use cert_form::CertLine;
use cert_query::{Fault, Reason};
use fork_spec::Placed;
use leaf_part::LeafPart;
use std::alloc::{AllocError as NoMemory, Global};
use sym_state::{Program, State};
use tree_core::{Budgets, Cause};

/// The leaves of a tree: how many are finished and how many are cut.
#[derive(Clone, Copy, Debug, PartialEq, Eq)]
pub struct Leaves {
    pub finished: usize,
    pub cut: usize,
}

/// The leaves that a walk has come to.
#[derive(Clone, Copy, Debug)]
pub(crate) struct Tally {
    pub leaves: Leaves,
    /// How many lines were left at the first leaf that was cut for want of nodes, if there is one.
    pub first_by_nodes: Option<usize>,
}

// Counts a leaf, at whose line so many were left.
fn count(tally: &mut Tally, leaf: &LeafPart, left: usize)
    requires finished { tally.old.leaves.finished + 1 < 2 ^ 64 }
    requires cut { tally.old.leaves.cut + 1 < 2 ^ 64 }
    ensures { tally.new ≡ counted tally.old (cause_of leaf.now.leaf.end) left }
{
    match leaf.cut() {
        None => tally.leaves.finished += 1,
        Some(cause) => {
            tally.leaves.cut += 1;
            if cause == Cause::Nodes && tally.first_by_nodes.is_none() {
                tally.first_by_nodes = Some(left);
            }
        }
    }
}

/// Puts what comes next on the stack, the first on top.
pub fn put_ahead(stack: &mut Vec<Todo>, mut kids: Vec<Todo>) -> Result<(), NoMemory>
    ensures { OnOk result (stack.new.items ≡ stack.old.items ++ reverse kids.items) }
{
    while let Some(kid) = kids.pop() {
        stack.push(kid)?;
    }
    Ok(())
}

// Goes on behind what lines made of what came next: the lines left.
fn go_on<'a>(
    stack: &mut Vec<Todo>,
    tally: &mut Tally,
    visited: Visited<'a>,
    left: usize,
) -> Result<&'a [CertLine], NoMemory>
    requires finished { tally.old.leaves.finished + 1 < 2 ^ 64 }
    requires cut { tally.old.leaves.cut + 1 < 2 ^ 64 }
    ensures stack { OnOk result (stack.new.items ≡ stack_behind stack.old.items visited.entry) }
    ensures rest { IfOk result (λ rest. rest.now ≡ rest_behind visited.entry) }
    ensures tally { OnOk result (tally.new ≡ tally_behind tally.old visited.entry left) }
{
    match visited {
        Visited::Leaf(taken) => {
            count(tally, &taken.leaf, left);
            Ok(taken.rest)
        }
        Visited::Fork(went) => {
            put_ahead(stack, went.kids)?;
            Ok(went.rest)
        }
    }
}

/// Walks the fork tree of a program along lines, within budgets, and counts its leaves.
pub(crate) fn walk(
    alloc: Global,
    program: &Program,
    budgets: &Budgets,
    lines: &[CertLine],
) -> Result<Result<Tally, Fault>, NoMemory>
    requires few_inputs { IsSmall (count_of program.now.regions) }
    requires few_steps { budgets.now.steps ≤ most_steps }
    ensures walked { IfOk result (λ walked. IfOk walked
        (IsWalked program.now budgets.now lines.now [] [])) }
    ensures cause { IfOk result (λ walked. IfErr walked
        (IsWalkFault program.now budgets.now lines.now)) }
{
    let mut stack = Vec::new(alloc);
    stack.push(Todo::Node(State::first(alloc, program)?))?;
    let mut rest = lines;
    let mut tally = Tally {
        leaves: Leaves {
            finished: 0,
            cut: 0,
        },
        first_by_nodes: None,
    };
    while let Some(todo) = stack.pop() {
        let left = rest.len();
        match visit(alloc, budgets, todo, rest)? {
            Ok(visited) => rest = go_on(&mut stack, &mut tally, visited, left)?,
            Err(fault) => return Ok(Err(fault)),
        }
    }
    if rest.len() > 0 {
        return Ok(Err(Fault::at(rest, Reason::Place)));
    }
    Ok(Ok(tally))
}
