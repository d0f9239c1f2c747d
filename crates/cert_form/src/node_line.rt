//! The lines that define the nodes of a question.

ghost use Rattle.std.specs.Prelude.{◌≡◌, IfOk};

use bv_dag::Node;
use std::alloc::{AllocError as NoMemory, Global};
use std::marker::Model;

/// A node as its line defines it. Nothing says that the number is the node's place in the question, nor that it is that wide.
#[derive(Clone, Copy, Debug, PartialEq, Eq)]
pub struct DefinedNode {
    /// Its number.
    pub id: u64,
    /// How many bits it is said to have.
    pub width: u64,
    pub node: Node,
}

/// The line of a node.
#[derive(Debug, Drop)]
pub struct NodeLine {
    defined: Box<DefinedNode>,
}

impl Model for NodeLine {
    ghost use Rattle.cert_form.specs.declared.node_line.DefinedNode as spec;

    ghost Value = { spec.DefinedNode };

    ghost view = { λ n. n.defined.value };
}

impl NodeLine {
    pub fn new(alloc: Global, defined: DefinedNode) -> Result<NodeLine, NoMemory>
        ensures { IfOk result (λ line. line ≡ defined) }
    {
        Ok(NodeLine {
            defined: Box::new(alloc, defined)?,
        })
    }

    /// The node, with its number and its width.
    pub fn defined(&self) -> DefinedNode
        ensures { result ≡ self.now }
    {
        *self.defined
    }
}
