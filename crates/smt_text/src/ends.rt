//! Kinds and ends of leaves, as texts have them.

ghost use Rattle.std.specs.Prelude.{◌≡◌};
ghost use Rattle.smt_text.specs.Ends as spec;

use fork_spec::LeafEnd;
use text_parts::cause_name;

/// The kind of a leaf: `finished`, or the budget that was spent.
pub fn kind_name(end: LeafEnd) -> &'static str
    ensures { result.now ≡ spec.kind_name end }
{
    match end {
        LeafEnd::Exits { .. } | LeafEnd::Traps(_) => "finished",
        LeafEnd::Cut(cause) => cause_name(cause),
    }
}

/// How the runs of a leaf end: `exit`, a trap's name, or `running`.
pub fn end_name(end: LeafEnd) -> &'static str
    ensures { result.now ≡ spec.end_name end }
{
    match end {
        LeafEnd::Exits { .. } => "exit",
        LeafEnd::Traps(trap) => trap.name(),
        LeafEnd::Cut(_) => "running",
    }
}
