//! What holds of every leaf, every question and every node.

ghost use Rattle.std.specs.Prelude.{◌≡◌, ◌↔◌, ◌++◌, ℕ, List, IsTrue, length};
ghost use Rattle.bv_dag.specs.Nodes.{Fits};
ghost use Rattle.bv_dag.specs.Queries.{Condition};
ghost use Rattle.bv_dag.specs.declared.nodes.Node.{Node};
ghost use Rattle.smt_text.specs.Grammar.{IsTextOf};
ghost use Rattle.smt_text.specs.LeafLines.{leaf_text, query_text};
ghost use Rattle.fork_spec.specs.Evidence.{IsQuestion};
ghost use Rattle.fork_spec.specs.Leaves.{IsFull, Leaf};
ghost use Rattle.smt_text.specs.NodeFits.{fits};

/// The grammar's test of a node is the condition under which a node may be pushed.
pub fn a_node_line_stands_where_its_node_fits()
    ensures { (inputs : ℕ) (before : List ℕ) (node : Node) → IsTrue (fits inputs before node)
        ↔ Fits inputs before node }
{}

/// Each line of a leaf's text may stand after those before it, the last is `(exit)`, and they say this leaf.
pub fn a_text_reads_as_its_leaf()
    ensures { (leaf : Leaf) → IsFull leaf → IsTextOf (leaf_text leaf) leaf }
{}

/// A text has one reading: two full leaves with the same text are the same leaf.
pub fn a_text_is_read_in_one_way()
    ensures { (leaf other : Leaf) → IsFull leaf → IsFull other → leaf_text leaf ≡ leaf_text other
        → leaf ≡ other }
{}

/// The text of a question has one reading, whatever stands behind it: two questions in full, of as many inputs and of as many terms,
/// with one text are the same question.
pub fn a_question_is_read_in_one_way()
    ensures { (q r : Condition) (more rest : List ℕ) → IsQuestion q → IsQuestion r
        → q.graph.inputs ≡ r.graph.inputs
        → length q.graph.nodes ≡ length r.graph.nodes → query_text q ++ more ≡ query_text r ++ rest
        → (q ≡ r) × (more ≡ rest) }
{}
