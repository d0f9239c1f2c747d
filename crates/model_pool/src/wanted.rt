//! Which answers of a pool are tried on a question.

use crate::patch::Patch;

/// The answers that may meet a question.
#[derive(Debug, Drop)]
pub(crate) enum Wanted {
    /// Those to the same question, as its digest tells.
    Same(u64),
    /// Those that share one of its input bytes: for each byte whether it is one.
    Sharing(Vec<bool>),
}

impl Wanted {
    /// Whether an answer is one of them.
    pub(crate) fn takes(&self, patch: &Patch) -> bool {
        match self {
            Wanted::Same(digest) => patch.answers(*digest),
            Wanted::Sharing(named) => patch.touches(named),
        }
    }
}
