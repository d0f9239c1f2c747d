//! What a line of the walk begins with.

/// What the first word of a line says of it.
#[derive(Clone, Copy, Debug, PartialEq, Eq)]
pub enum LineKind {
    One,
    Split,
    Tried,
    Inputs,
    Nodes,
    Logic,
    /// An input, or the function that the inputs are of.
    Declare,
    Node,
    Assert,
    Check,
    Exit,
    Clause,
    Value,
    Witness,
    End,
    CutSteps,
    CutNodes,
}
