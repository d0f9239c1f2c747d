//! What a worker asks at each point of its turn.

use crate::point::{Next, Point};

/// Tells a worker at each point whether it goes on.
pub trait Gate {
    ghost use Rattle.std.specs.Prelude.{◌≡◌, ℕ};
    ghost use Rattle.work_gate.specs.declared.point.Point.{Point};

    /// The rule: this worker may leave at this point.
    ghost may_leave: { Self → ℕ → Point → Type 0 };

    fn reached(&self, worker: u32, point: Point) -> Next
        ensures { result ≡ Next.Leave → may_leave self.now worker point };
}
