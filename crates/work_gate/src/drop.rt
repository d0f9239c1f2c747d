//! A gate that lets one worker leave.

ghost use Rattle.std.specs.Prelude.{◌≡◌};
ghost use Rattle.work_gate.specs.declared.point.Next.TheVariants.{Leave};

use crate::gate::Gate;
use crate::point::{Next, Point};

/// Lets this worker leave at this point, and nobody else anywhere.
#[derive(Clone, Copy, Debug)]
pub struct DropGate {
    pub worker: u32,
    pub point: Point,
}

impl Gate for DropGate {
    ghost may_leave = { λ gate worker point. (worker ≡ gate.worker) × (point ≡ gate.point) };

    fn reached(&self, worker: u32, point: Point) -> Next
        ensures stays { result ≡ Leave → (worker ≡ self.now.worker) × (point ≡ self.now.point) }
        ensures leaves { worker ≡ self.now.worker → point ≡ self.now.point → result ≡ Leave }
    {
        if worker == self.worker && point == self.point {
            Next::Leave
        } else {
            Next::Go
        }
    }
}
