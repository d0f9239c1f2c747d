//! What an instruction leads to.

ghost use Rattle.std.specs.Prelude.{◌≡◌};
ghost use Rattle.rv_decode.specs.declared.ends.End.TheVariants.{Trapped};

use rv_decode::{End, Trap};

/// What an instruction leads a run to.
#[derive(Clone, Copy, Debug, PartialEq, Eq)]
pub enum Step {
    Running,
    Ended(End),
}

/// The run ends by a trap.
pub(crate) fn trapped(trap: Trap) -> Step
    ensures { result ≡ Step.Ended (Trapped trap) }
{
    Step::Ended(End::Trapped(trap))
}
