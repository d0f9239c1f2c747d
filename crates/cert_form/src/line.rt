//! The lines of a certificate's walk. What is long stands on the heap, so that each line takes as little room as the others.

use crate::learnt_clause::LearntClause;
use crate::node_line::NodeLine;
use crate::sides::Sides;
use byte_list::Bytes;
use fork_spec::Found;
use tree_core::Choice;

/// A line of the walk.
#[derive(Debug, Drop)]
pub enum CertLine {
    /// The run goes on with this choice alone.
    One(Choice),
    Split(Sides),
    /// The values of one byte are tried.
    Tried,
    /// How many inputs a question has.
    Inputs(u32),
    /// How many nodes it has.
    Nodes(u64),
    Logic,
    /// An input of a question, by its number.
    Input(u64),
    /// The function that the inputs are of.
    Base,
    Node(NodeLine),
    /// A node that is to be 1.
    Assert(u64),
    Check,
    Exit,
    Clause(LearntClause),
    /// A value of a term, and an assignment on which the term has it.
    Value(Found),
    /// An assignment that a side covers which is a leaf at once.
    Witness(Bytes),
    /// A leaf whose runs end, by an assignment that it covers.
    End(Bytes),
    /// A leaf that is cut by steps, by an assignment that it covers.
    CutSteps(Bytes),
    /// A leaf that is cut for want of nodes.
    CutNodes,
}
