//! Why a leaf was cut.

/// The budget that was spent where a leaf was cut: of steps, of targets (values of one term), of conflicts of one question, or of
/// nodes of the tree.
#[derive(Clone, Copy, Debug, PartialEq, Eq)]
pub enum Cause {
    Steps,
    Targets,
    Conflicts,
    Nodes,
}
