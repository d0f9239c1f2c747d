//! The places of a leaf's text.

/// Which line is to come. Each place has one kind of line, and the last but two has two.
#[derive(Clone, Copy, Debug, PartialEq, Eq)]
pub enum Spot {
    AtFormat,
    AtKind,
    AtChoices,
    AtPath,
    AtSteps,
    AtEnd,
    AtInputs,
    AtNodes,
    AtOutputs,
    AtLogic,
    AmongInputs,
    AtBase,
    AmongNodes,
    AtStatus,
    AmongOutputs,
    /// An assertion or the check.
    AmongAssertions,
    AtExit,
    /// All lines were read.
    Closed,
}
