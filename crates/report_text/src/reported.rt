//! Leaves of a report, as the JSON and the summary see them.

ghost use Rattle.std.specs.Prelude.{◌≡◌};
ghost use Rattle.fork_spec.specs.Histories.{LeafNode};

use fork_spec::LeafEnd;
use tree_core::Choice;

/// What stands for a leaf, and knows the number of its node.
pub trait Reported {
    /// The leaf and the number of its node in the events.
    ghost leaf_node: { Self → LeafNode };

    /// The sides taken at the forks above the leaf, from the root on.
    fn choices(&self) -> &[Choice]
        ensures { result.now ≡ (leaf_node self.now).leaf.choices };

    /// The steps of its runs, the ending one included.
    fn steps(&self) -> u32
        ensures { result ≡ (leaf_node self.now).leaf.steps };

    /// How its runs end, or why they were cut.
    fn end(&self) -> LeafEnd
        ensures { result ≡ (leaf_node self.now).leaf.end };

    /// The number of its node in the events.
    fn node(&self) -> usize
        ensures { result ≡ (leaf_node self.now).node };
}
