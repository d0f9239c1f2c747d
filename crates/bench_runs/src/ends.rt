//! How the leaves of a tree end.

use fork_spec::LeafEnd;
use fork_tree::Tree;
use node_split::Worker;
use std::alloc::{AllocError as NoMemory, Global};
use tree_core::{Cause, Status};
use work_run::Lent;

/// How each leaf ends, or why it was cut.
pub fn ends_of(alloc: Global, tree: &Tree<Lent<'_, Worker>>) -> Result<Vec<LeafEnd>, NoMemory> {
    let mut ends = Vec::new(alloc);
    for node in 0..tree.len() {
        match tree.status(node) {
            Status::Leaf => ends.push(tree.leaf(node).end())?,
            Status::Free | Status::Held(_) | Status::Parted => {}
        }
    }
    Ok(ends)
}

/// How many leaves were cut by this cause.
pub fn count_cut(ends: &[LeafEnd], cause: Cause) -> usize {
    ends.iter()
        .filter(|end| **end == LeafEnd::Cut(cause))
        .count()
}
