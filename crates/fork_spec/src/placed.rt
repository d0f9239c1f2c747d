//! What has a place in the fork tree.

ghost use Rattle.std.specs.Prelude.{◌≡◌};
ghost use Rattle.fork_spec.specs.Partings.{Place};

use tree_core::Cause;

/// What has a place in the fork tree: the sides that lead to it, the assignments that it stands for, and why it was cut, if it is a
/// leaf that was.
pub trait Placed: Drop {
    ghost place: { Self → Place };

    /// Why it was cut, if it is a leaf that was.
    fn cut(&self) -> Option<Cause>
        ensures { result ≡ (place self.now).cut };
}
