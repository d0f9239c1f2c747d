//! What holds of every graph and its trees.

ghost use Rattle.std.specs.Prelude.{◌≡◌, ◌<◌, ℕ, List, Some, All, length, map, slice_get, true};
ghost use Rattle.bv_dag.specs.Graphs.{Graph, IsDag, val, width_of, with_node};
ghost use Rattle.bv_dag.specs.Inputs.{inputs_under};
ghost use Rattle.bv_dag.specs.Queries.{Condition, holds, IsUnsatisfiable};
ghost use Rattle.bv_dag.specs.declared.nodes.Node.{Node};
ghost use Rattle.term_trees.specs.Growth.{Continues};
ghost use Rattle.term_trees.specs.Subsets.{AsksNoMore};
ghost use Rattle.term_trees.specs.TreeInputs.{tree_inputs};
ghost use Rattle.term_trees.specs.Trees.{Tree, node_tree, tree_of, tree_width, tree_value, IsTerm, IsOfWidth};

/// The tree of each node is by its case, from the trees of its operands.
pub fn trees_are_by_cases()
    ensures { (graph : Graph) (id : ℕ) (node : Node) → IsDag graph
        → slice_get graph.nodes id ≡ Some node → tree_of graph id ≡ node_tree (tree_of graph) node }
{}

/// A node that is put behind the others changes no tree, and its own is by its case.
pub fn a_push_keeps_trees()
    ensures others { (graph : Graph) (node : Node) (id : ℕ) → id < length graph.nodes
        → tree_of (with_node graph node) id ≡ tree_of graph id }
    ensures own { (graph : Graph) (node : Node)
        → tree_of (with_node graph node) (length graph.nodes) ≡ node_tree (tree_of graph) node }
{}

/// What is added to a graph changes no tree, no value and no width of what was there.
pub fn growth_keeps_terms()
    ensures trees { (old new : Graph) (id : ℕ) → Continues old new → id < length old.nodes
        → tree_of new id ≡ tree_of old id }
    ensures values { (old new : Graph) (id : ℕ) (input : List ℕ) → Continues old new
        → id < length old.nodes → val new id input ≡ val old id input }
    ensures widths { (old new : Graph) (id : ℕ) → Continues old new → id < length old.nodes
        → width_of new id ≡ width_of old id }
{}

/// A term is worth what its tree is worth, and is as wide.
pub fn a_tree_is_worth_what_its_term_is()
    ensures value { (graph : Graph) (id : ℕ) (input : List ℕ)
        → tree_value input (tree_of graph id) ≡ val graph id input }
    ensures width { (graph : Graph) (id : ℕ) → tree_width (tree_of graph id) ≡ width_of graph id }
{}

/// Terms of one tree are worth the same, in one graph or in two.
pub fn equal_trees_are_worth_the_same()
    ensures { (graph other : Graph) (a b : ℕ) (input : List ℕ) → tree_of graph a ≡ tree_of other b
        → val graph a input ≡ val other b input }
{}

/// Where every node of a graph fits, each of its trees is well formed.
pub fn trees_of_a_dag_are_terms()
    ensures { (graph : Graph) (id : ℕ) → IsDag graph → id < length graph.nodes
        → IsTerm graph.inputs (tree_of graph id) }
{}

/// A well-formed tree is worth a bit-vector of its width, whatever the input bytes are.
pub fn values_are_of_their_width()
    ensures { (inputs : ℕ) (input : List ℕ) (tree : Tree) → All (λ b. b < 256) input
        → IsTerm inputs tree → IsOfWidth (tree_width tree) (tree_value input tree) }
{}

/// Conditions over as many input bytes whose asserted terms are the same trees hold on the same bytes.
pub fn conditions_of_the_same_trees_are_one()
    ensures { (c d : Condition) (input : List ℕ) → c.graph.inputs ≡ d.graph.inputs
        → map (tree_of c.graph) c.asserted ≡ map (tree_of d.graph) d.asserted
        → holds c input ≡ holds d input }
{}

/// What meets a condition meets one that asks no more; so where nothing meets this one, nothing meets the other.
pub fn what_asks_no_more_is_met_sooner()
    ensures met { (less more : Condition) (input : List ℕ) → AsksNoMore less more
        → holds more input ≡ true → holds less input ≡ true }
    ensures unmet { (less more : Condition) → AsksNoMore less more → IsUnsatisfiable less
        → IsUnsatisfiable more }
{}

/// A tree names just the input bytes that stand under its term, so terms of one tree rest on the same.
pub fn a_tree_names_the_inputs_under_its_term()
    ensures own { (graph : Graph) (id : ℕ)
        → tree_inputs (tree_of graph id) ≡ inputs_under graph id }
    ensures same { (graph other : Graph) (a b : ℕ) → tree_of graph a ≡ tree_of other b
        → inputs_under graph a ≡ inputs_under other b }
{}
