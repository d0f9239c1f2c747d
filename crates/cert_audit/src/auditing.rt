//! The audit of a certificate.

ghost use Rattle.std.specs.Prelude.{◌≡◌, ◌↔◌, ◌≤◌, IfOk, IsTrue};
ghost use Rattle.cert_audit.specs.Audits.{IsAudited, IsSettled};
ghost use Rattle.cert_audit.specs.Causes.{HasCause, line_at};
ghost use Rattle.cert_audit.specs.Limits.{AreWithin, budgets_of};
ghost use Rattle.cert_audit.specs.Names.{nodes_in};

use crate::walking::{Leaves, Tally, walk};
use cert_form::{Cert, CertLine, Limits};
use cert_query::Reason;
use elf_load::{Image, fit};
use std::alloc::{AllocError as NoMemory, Global};
use sym_state::Program;
use tree_core::{Budgets, Order};

/// What an audit says.
#[derive(Clone, Copy, Debug, PartialEq, Eq)]
pub enum Verdict {
    /// The certificate shows what it says, of so many leaves.
    Yes(Leaves),
    /// The first line that may not stand where it does, from 1 on, and why.
    No { line: usize, reason: Reason },
}

/// The line of the regions.
const REGIONS: usize = 2;

/// The line of the budgets, before the walk's first.
const BUDGETS: usize = 3;

/// The most that each budget may be, as in the words of a job.
const MOST: Limits = Limits {
    steps: 1_000_000,
    targets: 64,
    conflicts: 100_000,
    nodes: 1_000_000,
};

/// Whether each budget is from 1 to its most.
pub fn are_within(limits: &Limits) -> bool
    ensures { IsTrue result ↔ AreWithin limits.now }
{
    limits.steps >= 1
        && limits.steps <= MOST.steps
        && limits.targets >= 1
        && limits.targets <= MOST.targets
        && limits.conflicts >= 1
        && limits.conflicts <= MOST.conflicts
        && limits.nodes >= 1
        && limits.nodes <= MOST.nodes
}

/// The budgets of a walk. The order of claims is of no matter to it.
pub fn budgets_of(limits: &Limits) -> Budgets
    ensures { result ≡ budgets_of limits.now }
{
    Budgets {
        steps: limits.steps,
        targets: limits.targets,
        conflicts: limits.conflicts,
        nodes: limits.nodes,
        order: Order::Deepest,
    }
}

// Whether the tree of which these are the walk's lines has so many nodes.
fn has_nodes(lines: &[CertLine], nodes: u32) -> bool
    ensures { IsTrue result ↔ nodes ≤ nodes_in lines.now }
{
    let mut missing = (nodes as usize).saturating_sub(1);
    for line in lines {
        if let CertLine::Split(sides) = line {
            missing = missing.saturating_sub(sides.as_slice().len());
        }
    }
    missing == 0
}

/// The number of the line of a certificate, of whose walk these are the lines, at which so many are left.
pub fn line_at(lines: &[CertLine], left: usize) -> usize
    ensures { result ≡ line_at lines.now left }
{
    lines.len().saturating_sub(left) + BUDGETS + 1
}

// What is said of a walk that came to its end.
fn said_of(tally: &Tally, lines: &[CertLine], nodes: u32) -> Verdict
    ensures { IsSettled tally.now lines.now nodes result }
{
    match tally.first_by_nodes {
        Some(left) if !has_nodes(lines, nodes) => Verdict::No {
            line: line_at(lines, left),
            reason: Reason::Budget,
        },
        _ => Verdict::Yes(tally.leaves),
    }
}

/// Audits a certificate of a program: walks its fork tree along the certificate's lines. A yes means that each assignment of the
/// input bytes is covered by just one of the leaves that the lines name, and that each of these leaves is right. A no names the
/// first line that may not stand where it does, and the reason is one that stands there.
pub fn audit(alloc: Global, image: Image, cert: &Cert) -> Result<Verdict, NoMemory>
    ensures audited { IfOk result (IsAudited image cert.now) }
    ensures has_cause { IfOk result (HasCause image cert.now) }
{
    if fit(&image, &cert.regions).is_err() {
        return Ok(Verdict::No {
            line: REGIONS,
            reason: Reason::Budget,
        });
    }
    if !are_within(&cert.budgets) {
        return Ok(Verdict::No {
            line: BUDGETS,
            reason: Reason::Budget,
        });
    }
    let lines = cert.lines.as_slice();
    let program = Program::new(image, cert.regions.try_clone(alloc)?);
    match walk(alloc, &program, &budgets_of(&cert.budgets), lines)? {
        Ok(tally) => Ok(said_of(&tally, lines, cert.budgets.nodes)),
        Err(fault) => Ok(Verdict::No {
            line: line_at(lines, fault.left),
            reason: fault.reason,
        }),
    }
}
