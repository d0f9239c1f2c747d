//! The runs that a fork's line leaves out.

ghost use Rattle.std.specs.Prelude.{◌≤◌, ◌<◌, Contains, IfOk, IfSome, length};
ghost use Rattle.cert_complete.specs.Stopping.{IsStoppedAt};
ghost use Rattle.sym_state.specs.Undecided.{IsBranch};
ghost use Rattle.sym_state.specs.Values.{IsUnknown};

use cert_audit::without_values;
use run_sides::{choice_of, with_test};
use std::alloc::AllocError as NoMemory;
use sym_machine::Stop;
use sym_state::State;
use tree_core::Choice;

/// The runs that a fork's line leaves out, and the term that is asserted last there.
pub(crate) struct LeftOut {
    pub run: State,
    pub last: usize,
}

impl Drop for LeftOut {
    fn drop(self) {
        let Self {
            run: _run,
            last: _last,
        } = self;
    }
}

/// The term that a run parts by, if it has stopped at a fork.
pub(crate) fn term_of(run: &State, stop: Stop) -> Option<usize>
    requires { IsStoppedAt run.now stop }
    ensures { IfSome result (λ term. term < length run.now.terms.nodes) }
{
    // That its terms fit is known where one of them is looked at.
    let _ = run.terms();
    match stop {
        Stop::Branch { term } => Some(term),
        Stop::Pin { term, .. } => Some(term),
        Stop::Ended(_) | Stop::Steps => None,
    }
}

/// The way on at a fork where its term is this number.
pub(crate) fn choice_by(stop: Stop, number: u64) -> Option<Choice> {
    match stop {
        Stop::Branch { .. } => Some(choice_of(number == 1)),
        Stop::Pin { .. } => Some(Choice::Value(u32::try_from(number).ok()?)),
        Stop::Ended(_) | Stop::Steps => None,
    }
}

// The other side of a branch.
fn other_side(run: &State, term: usize, side: bool) -> Result<LeftOut, NoMemory>
    requires { IsBranch run.now term }
    ensures { IfOk result (λ left. Contains left.run.condition left.last) }
{
    let (mut run, last) = with_test(run, term, !side)?.into_parts();
    run.assert(last)?;
    Ok(LeftOut { run, last })
}

/// Where a term has none of these values.
pub(crate) fn other_values(run: &State, term: usize, values: &[u32]) -> Result<LeftOut, NoMemory>
    requires unknown { IsUnknown run.now.terms 32 term }
    requires some { 1 ≤ length values.now }
    ensures { IfOk result (λ left. Contains left.run.condition left.last) }
{
    let (run, last) = without_values(run, term, values)?;
    Ok(LeftOut { run, last })
}

/// What is left out where a run goes on one way, if that is one at its fork.
pub(crate) fn left_out(run: &State, stop: Stop, choice: Choice) -> Result<Option<LeftOut>, NoMemory>
    requires { IsStoppedAt run.now stop }
    ensures { IfOk result (λ found. IfSome found (λ left. Contains left.run.condition left.last)) }
{
    match (stop, choice) {
        (Stop::Branch { term }, Choice::No) => Ok(Some(other_side(run, term, false)?)),
        (Stop::Branch { term }, Choice::Yes) => Ok(Some(other_side(run, term, true)?)),
        (Stop::Pin { term, .. }, Choice::Value(value)) => {
            Ok(Some(other_values(run, term, &[value])?))
        }
        _ => Ok(None),
    }
}
