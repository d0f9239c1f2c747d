//! A certificate as data: where the input bytes of a program stand, what may be spent, and the lines of a walk through its fork tree.
#![tactic(auto)]

mod cert;
mod learnt_clause;
mod line;
mod node_line;
mod sides;

pub use cert::{Cert, Limits};
pub use learnt_clause::LearntClause;
pub use line::CertLine;
pub use node_line::{DefinedNode, NodeLine};
pub use sides::{Side, Sides};
