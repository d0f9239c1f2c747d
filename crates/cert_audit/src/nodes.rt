//! The leaves that are nodes: of runs that have ended, that have spent their steps, or that may not part.

ghost use Rattle.std.specs.Prelude.{◌≡◌, ◌∷◌, false, IfOk, IfErr, MatchOption};
ghost use Rattle.cert_form.specs.declared.line.CertLine.TheVariants.{CutNodes};
ghost use Rattle.run_leaves.specs.Leaving.{HasTextRoom};
ghost use Rattle.sym_machine.specs.declared.stepping.Stop.TheVariants.{Ended as EndedBy, Steps as StepsSpent};
ghost use Rattle.tree_core.specs.declared.budgets.Budgets.{Budgets};
ghost use Rattle.cert_audit.specs.ForkFaults.{begins_with_cut_nodes};
ghost use Rattle.cert_audit.specs.LeafFaults.{IsEndFault, IsStepsFault};
ghost use Rattle.cert_audit.specs.Steps.{IsNodeLeaf, IsUnparted};

use crate::sampling::take_sample;
use crate::taken::Taken;
use cert_form::CertLine;
use cert_query::{Fault, Reason};
use run_leaves::{cut_nodes, cut_steps, finish};
use std::alloc::{AllocError as NoMemory, Global};
use sym_state::{RunEnd, State};

/// The leaf of a run that has ended so: a line names one of its assignments.
pub(crate) fn take_end<'a>(
    alloc: Global,
    run: &mut State,
    end: RunEnd,
    lines: &'a [CertLine],
) -> Result<Result<Taken<'a>, Fault>, NoMemory>
    requires { HasTextRoom run.old }
    ensures leaf { IfOk result (λ taken. IfOk taken (λ t. (budgets : Budgets)
        → IsNodeLeaf budgets run.old (EndedBy end) lines.now t.leaf t.rest.now)) }
    ensures cause { IfOk result (λ taken. IfErr taken (IsEndFault run.old lines.now)) }
{
    let [CertLine::End(input), rest @ ..] = lines else {
        return Ok(Err(Fault::at(lines, Reason::Place)));
    };
    if !take_sample(alloc, run, input)? {
        return Ok(Err(Fault::at(lines, Reason::Sample)));
    }
    let leaf = finish(alloc, run, end)?;
    Ok(Ok(Taken { leaf, rest }))
}

/// The leaf of a run that has spent its steps: a line names one of its assignments.
pub(crate) fn take_cut_steps<'a>(
    alloc: Global,
    run: &mut State,
    lines: &'a [CertLine],
) -> Result<Result<Taken<'a>, Fault>, NoMemory>
    requires { HasTextRoom run.old }
    ensures leaf { IfOk result (λ taken. IfOk taken (λ t. (budgets : Budgets)
        → IsNodeLeaf budgets run.old StepsSpent lines.now t.leaf t.rest.now)) }
    ensures cause { IfOk result (λ taken. IfErr taken (IsStepsFault run.old lines.now)) }
{
    let [CertLine::CutSteps(input), rest @ ..] = lines else {
        return Ok(Err(Fault::at(lines, Reason::Place)));
    };
    if !take_sample(alloc, run, input)? {
        return Ok(Err(Fault::at(lines, Reason::Sample)));
    }
    let leaf = cut_steps(alloc, run)?;
    Ok(Ok(Taken { leaf, rest }))
}

/// The lines behind the first, if that says that a run may not part.
pub(crate) fn behind_cut_nodes(lines: &[CertLine]) -> Option<&[CertLine]>
    ensures { MatchOption result (begins_with_cut_nodes lines.now ≡ false)
        (λ rest. lines.now ≡ CutNodes ∷ rest.now) }
{
    match lines {
        [CertLine::CutNodes, rest @ ..] => Some(rest),
        _ => None,
    }
}

/// The leaf of a run that may not part, since there are as many nodes as there may be, behind the line that says so.
pub(crate) fn take_cut_nodes<'a>(
    alloc: Global,
    run: &mut State,
    nodes: u32,
    rest: &'a [CertLine],
) -> Result<Taken<'a>, NoMemory>
    requires { HasTextRoom run.old }
    ensures { IfOk result (λ t. (budgets : Budgets) → budgets.nodes ≡ nodes
        → IsUnparted budgets run.old (CutNodes ∷ rest.now) t.leaf t.rest.now) }
{
    let leaf = cut_nodes(alloc, run, nodes)?;
    Ok(Taken { leaf, rest })
}
