//! A value that a lock can hand out in turns.

ghost use Rattle.std.specs.Prelude.{◌≡◌, ℕ, List, length};

/// A value that stands for a list of nodes and a list of events, which only grow, and has a part that never changes. Each
/// event bears the number of the worker that made it. Of the three types no value need be made.
pub trait Growing: Drop {
    /// What stays as it is from turn to turn, e.g. the rules that a tree follows.
    type Fixed;

    /// What the list of nodes has, as clauses see it.
    type Node;

    /// What the list of events has, as clauses see it.
    type Event;

    ghost fixed: { Self → Self.Fixed };

    ghost nodes: { Self → List Self.Node };

    ghost events: { Self → List Self.Event };

    /// The number of the worker that made an event.
    ghost worker: { Self.Event → ℕ };

    /// How many events there are.
    fn event_count(&self) -> u64
        ensures { result ≡ length (events self.now) };
}
