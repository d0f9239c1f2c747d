//! What has nodes by their places, wherever they are kept.

ghost use Rattle.std.specs.Prelude.{◌≡◌, ◌<◌, Some, length, slice_get};
ghost use Rattle.bv_dag.specs.Graphs.{Graph, IsDag};

use crate::graph::Dag;
use crate::nodes::Node;

/// Terms over input bytes, each built of earlier ones, which are read by their places.
pub trait Table {
    ghost graph: { Self → Graph };

    /// How many input bytes there are.
    fn inputs(&self) -> usize
        ensures { result ≡ (graph self.now).inputs };

    /// The node at a place.
    fn node(&self, id: usize) -> Node
        requires { id < length (graph self.now).nodes }
        ensures is { slice_get (graph self.now).nodes id ≡ Some result }
        ensures fit { IsDag (graph self.now) };
}

impl Table for Dag {
    ghost graph = { λ d. d };

    fn inputs(&self) -> usize {
        Dag::inputs(self)
    }

    fn node(&self, id: usize) -> Node {
        self.nodes()[id]
    }
}
