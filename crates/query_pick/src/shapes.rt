//! The numbers of shapes, by which terms of several graphs are compared as the trees that they unfold to.

ghost use Rattle.std.specs.Prelude.{◌≡◌, ◌<◌, ℕ, [], All, Contains, IfOk, OnOk, length, slice_index};
ghost use Rattle.query_pick.specs.Operands.{operands, renamed};

use bv_dag::{Dag, Node};
use indexmap::IndexSet;
use std::alloc::{AllocError as NoMemory, Global};
use std::marker::Model;

// The node with the numbers of its operands in their stead.
fn shape_of(numbers: &[usize], node: Node) -> Node
    requires { All (λ a. a < length numbers.now) (operands node) }
    ensures { result ≡ renamed (λ a. slice_index numbers.now a) node }
{
    match node {
        Node::Num { .. } | Node::Input(_) => node,
        Node::Not(a) => Node::Not(numbers[a]),
        Node::Neg(a) => Node::Neg(numbers[a]),
        Node::Binary(op, a, b) => Node::Binary(op, numbers[a], numbers[b]),
        Node::Compare(op, a, b) => Node::Compare(op, numbers[a], numbers[b]),
        Node::Ite { condition, yes, no } => Node::Ite {
            condition: numbers[condition],
            yes: numbers[yes],
            no: numbers[no],
        },
        Node::Extract { high, low, operand } => Node::Extract {
            high,
            low,
            operand: numbers[operand],
        },
        Node::Extend {
            by,
            signed,
            operand,
        } => Node::Extend {
            by,
            signed,
            operand: numbers[operand],
        },
        Node::Concat { high, low } => Node::Concat {
            high: numbers[high],
            low: numbers[low],
        },
    }
}

/// Shapes, numbered as they are met.
pub(crate) struct Shapes {
    nodes: IndexSet<Node>,
}

impl Drop for Shapes {
    fn drop(self) {
        let Self { nodes: _nodes } = self;
    }
}

impl Model for Shapes {
    ghost use Rattle.bv_dag.specs.Graphs.{Graph};
    ghost use Rattle.query_pick.specs.Shapes.{AreShapes};

    ghost Value = { Graph };

    ghost view = { λ s. record { inputs = 0; nodes = s.nodes.keys } };

    ghost invariant = { λ s. AreShapes (record { inputs = 0; nodes = s.nodes.keys }) };
}

impl Shapes {
    ghost use Rattle.query_pick.specs.Shapes.{AreNumbered, AreShapes, IsNumber};

    pub(crate) fn new(alloc: Global) -> Shapes
        ensures { result.nodes ≡ [] }
    {
        Shapes {
            nodes: IndexSet::new(alloc),
        }
    }

    // Each of them stands once, behind its operands.
    fn are_shapes(&self)
        ensures { AreShapes self.now }
    {
        let _ = self.nodes.len();
    }

    // The number of a shape, whose operands have theirs.
    fn number(&mut self, shape: Node) -> Result<usize, NoMemory>
        requires { (a : ℕ) → Contains (operands shape) a → a < length self.old.nodes }
        ensures number { IfOk result (IsNumber self.old self.new shape) }
        ensures shapes { OnOk result (AreShapes self.new) }
    {
        let (number, _) = self.nodes.insert_full(shape)?;
        Ok(number)
    }

    /// The numbers of the shapes of all terms of a graph.
    pub(crate) fn numbers(&mut self, alloc: Global, dag: &Dag) -> Result<Vec<usize>, NoMemory>
        ensures numbered { IfOk result (λ numbers. AreNumbered self.old self.new dag.now numbers.items) }
        ensures shapes { OnOk result (AreShapes self.new) }
    {
        let nodes = dag.nodes();
        let mut numbers = Vec::with_capacity(alloc, nodes.len())?;
        for node in nodes {
            let shape = shape_of(&numbers, *node);
            numbers.push(self.number(shape)?)?;
        }
        self.are_shapes();
        Ok(numbers)
    }
}
