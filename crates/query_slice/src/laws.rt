//! What a slice shows of the question that it is cut from.

ghost use Rattle.std.specs.Prelude.{◌≡◌, ◌<◌, ℕ, List, All, Contains, false, true, length, map};
ghost use Rattle.bv_dag.specs.Graphs.{number_of};
ghost use Rattle.bv_dag.specs.Inputs.{asserted_inputs};
ghost use Rattle.bv_dag.specs.Queries.{Condition, holds};
ghost use Rattle.query_slice.specs.Merging.{merged};
ghost use Rattle.query_slice.specs.Reaching.{IsReached};
ghost use Rattle.query_slice.specs.Slices.{IsSlice};
ghost use Rattle.term_trees.specs.TreeSlices.{IsSliceOfTrees};
ghost use Rattle.term_trees.specs.Trees.{tree_of};

/// Where a sample meets every asserted term that isn't reached, and the answer meets the slice, the sample with the
/// answer's bytes meets the whole question.
pub fn merged_bytes_meet_the_question()
    ensures { (q : Condition) (new : ℕ) (s : Condition) (sample answer : List ℕ) → IsSlice q new s
        → length sample ≡ q.graph.inputs
        → ((id : ℕ) → Contains q.asserted id → (IsReached q new id → ⊥)
        → number_of q.graph id sample ≡ 1)
        → holds s answer ≡ true → holds q (merged (asserted_inputs s) sample answer) ≡ true }
{}

/// What meets a question meets its slice. So where no bytes meet the slice, none meet the question.
pub fn a_slice_asks_less()
    ensures holds { (q : Condition) (new : ℕ) (s : Condition) (input : List ℕ) → IsSlice q new s
        → holds q input ≡ true → holds s input ≡ true }
    ensures none { (q : Condition) (new : ℕ) (s : Condition) → IsSlice q new s
        → ((input : List ℕ) → All (λ b. b < 256) input → holds s input ≡ false) → (input : List ℕ)
        → All (λ b. b < 256) input → holds q input ≡ false }
{}

/// A slice rests on no other input bytes than the question.
pub fn a_slice_rests_on_no_more()
    ensures { (q : Condition) (new : ℕ) (s : Condition) → IsSlice q new s
        → All (Contains (asserted_inputs q)) (asserted_inputs s) }
{}

/// Unfolded, a slice asserts just what is reached from the new term.
pub fn a_slice_unfolds_to_what_is_reached()
    ensures { (q : Condition) (new : ℕ) (s : Condition) → Contains q.asserted new → IsSlice q new s
        → IsSliceOfTrees (map (tree_of q.graph) q.asserted) (tree_of q.graph new)
        (map (tree_of s.graph) s.asserted) }
{}
