//! The audit of a certificate: that its leaves share out all assignments of a program's input bytes, and that each of them is right.
//! Nothing is searched for: each run is made again, and each answer of a solver is checked.
//!
//! - `auditing`: what is said of a certificate
//! - `walking`: the walk through the fork tree
//! - `visiting`: what lines make of what the walk comes to
//! - `todo`, `taken`: what the walk comes to, and what lines make of it
//! - `nodes`: leaves that are nodes
//! - `branch`, `pin`, `going`: forks
//! - `proof`: that a side has no assignment
//! - `values`: the values of a fork's sides
//! - `conflicts`: leaves of sides that are cut by conflicts
//! - `targets`, `value_lines`, `valued`: those of sides that are cut by targets
//! - `sampling`: whether an assignment is one of a run's
#![tactic(auto)]

mod auditing;
mod branch;
mod conflicts;
mod going;
mod nodes;
mod pin;
mod proof;
mod sampling;
mod taken;
mod targets;
mod todo;
mod value_lines;
mod valued;
mod values;
mod visiting;
mod walking;

pub use auditing::{Verdict, are_within, audit, budgets_of, line_at};
pub use pin::without_values;
pub use proof::{is_excluded, part_of};
pub use sampling::is_met;
pub use taken::Visited;
pub use todo::{Others, Todo};
pub use values::take_values;
pub use visiting::visit;
pub use walking::{Leaves, put_ahead};
