//! What the content of a node stands for.

ghost use Rattle.std.specs.Prelude.{◌≡◌, ℕ, List, Bool};

/// What a node can hold: it covers some assignments of the input, each a list of numbers. Which ones is known to proofs alone.
pub trait Cover: Drop {
    ghost covers: { Self → List ℕ → Bool };

    // It is a leaf that was cut for want of nodes.
    ghost by_nodes: { Self → Bool };

    /// Whether it is a leaf that was cut for want of nodes.
    fn is_by_nodes(&self) -> bool
        ensures { result ≡ by_nodes self.now };
}
