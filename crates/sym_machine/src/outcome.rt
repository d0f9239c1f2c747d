//! What an instruction leads to.

ghost use Rattle.std.specs.Prelude.{◌≡◌};

use rv_decode::Trap;
use sym_state::RunEnd;

/// What an instruction that was carried out leads to.
#[derive(Clone, Copy, Debug, PartialEq, Eq)]
pub enum Step {
    Running,
    Ended(RunEnd),
}

/// The end by a trap.
pub fn trapped(trap: Trap) -> Step
    ensures { result ≡ Step.Ended (RunEnd.Traps trap) }
{
    Step::Ended(RunEnd::Traps(trap))
}
