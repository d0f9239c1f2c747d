//! Whether an assignment is one that a run stands for.

ghost use Rattle.std.specs.Prelude.{◌≡◌, ◌<◌, All, IfOk, true};
ghost use Rattle.sym_state.specs.Symbolic.{stands_for};
ghost use Rattle.cert_audit.specs.Steps.{IsSampledBy};

use byte_list::Bytes;
use query_pick::pick;
use std::alloc::{AllocError as NoMemory, Global};
use sym_state::{State, listed};

/// Each is below 256.
pub(crate) fn are_bytes(bytes: &[u8])
    ensures { All (λ b. b < 256) bytes.now }
{}

/// Whether an assignment meets a run's condition. One that hasn't a byte for each input doesn't.
pub fn is_met(alloc: Global, run: &State, input: &[u8]) -> Result<bool, NoMemory>
    ensures { IfOk result (λ yes. yes ≡ stands_for run.now input.now) }
{
    let condition = listed(alloc, run.condition())?;
    are_bytes(input);
    let asked = pick(alloc, run.terms(), &condition)?;
    asked.holds(alloc, input)
}

/// Takes an assignment as a run's sample, if the run stands for it.
pub(crate) fn take_sample(alloc: Global, run: &mut State, input: &Bytes) -> Result<bool, NoMemory>
    ensures sampled { IfOk result (λ yes. yes ≡ true → IsSampledBy run.old input.now run.new) }
    ensures answer { IfOk result (λ yes. yes ≡ stands_for run.old input.now) }
{
    if !is_met(alloc, run, input.as_slice())? {
        return Ok(false);
    }
    run.sample_by(Bytes::from_slice(alloc, input.as_slice())?);
    Ok(true)
}
