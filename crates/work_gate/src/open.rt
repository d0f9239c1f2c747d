//! The gate that is always open.

use crate::gate::Gate;
use crate::point::{Next, Point};

/// Lets nobody leave.
#[derive(Clone, Copy, Debug)]
pub struct OpenGate;

impl Gate for OpenGate {
    ghost may_leave = { λ _ _ _. ⊥ };

    fn reached(&self, _worker: u32, _point: Point) -> Next {
        Next::Go
    }
}
