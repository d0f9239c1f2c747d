//! What holds of every walk, and walks that can be followed by hand.

ghost use Rattle.std.specs.Prelude.{◌^◌, ◌≡◌, ◌≤◌, ◌+◌, ◌++◌, ℕ, List, [], ◌∷◌, Option, Some, None, IsFalse, IsTrue, false, length, map, option_and_then, option_map, true};
ghost use Rattle.tree_core.specs.declared.cause.Cause.{Cause};
ghost use Rattle.tree_core.specs.declared.cause.Cause.TheVariants.{Conflicts, Nodes, Targets};
ghost use Rattle.tree_core.specs.declared.event.Deed.TheVariants.{Claim, Cut, Finish};
ghost use Rattle.tree_core.specs.declared.node.Status.TheVariants.{Leaf};
ghost use Rattle.tree_core.specs.declared.order.Order.TheVariants.{Deepest, Oldest, Mixed};
ghost use Rattle.fork_spec.specs.Walks.{Bounds, Line, Standing, are_sides, are_small, is_increasing, is_quiet, is_rest_cut, rest_side, value_side, walk, walk_from};
ghost use Rattle.fork_spec.specs.WorkedWalks.{branch_lines, branch_nodes, branch_then_cut, claimed_and, four_by, line, one_node, parts, then_claims, two, value_lines, value_nodes};

/// A walk goes on from where its first events lead.
pub fn a_walk_goes_on_from_its_first_events()
    ensures { (bounds : Bounds) (events : ℕ) (nodes : List Standing) (first more : List Line)
        → walk_from bounds events nodes (first ++ more)
        ≡ option_and_then (λ reached. walk_from bounds (events + length first) reached more)
        (walk_from bounds events nodes first) }
{}

/// A node may part into the values of a term, two at least and no more than there may be, by increasing value.
pub fn a_node_may_part_into_values()
    ensures { (targets : ℕ) (values : List ℕ) → IsTrue (is_increasing values)
        → IsTrue (are_small values) → 2 ≤ length values → length values ≤ targets
        → IsTrue (are_sides targets (map value_side values)) }
{}

/// It may also part into one value or more and the rest, for each cause that may cut the rest.
pub fn a_node_may_part_into_values_and_the_rest()
    ensures { (targets : ℕ) (values : List ℕ) (cut : Option Cause) → IsTrue (is_increasing values)
        → IsTrue (are_small values) → 1 ≤ length values → length values ≤ targets
        → IsTrue (is_rest_cut targets (length values) cut)
        → IsTrue (are_sides targets (map value_side values ++ rest_side cut ∷ [])) }
{}

/// Walks, followed by hand: with two workers and budgets of two values and of two nodes, or of one.
#[tactic(auto, unfolding(tree_core::specs::Orders::drawn, tree_core::specs::Orders::is_named, crate::specs::Walks::walk_from, crate::specs::Walks::walk_step, crate::specs::Walks::are_values, crate::specs::Walks::values_first))]
pub fn worked_walks()
    ensures branch { walk two branch_lines ≡ Some branch_nodes }
    ensures branch_is_quiet { IsTrue (is_quiet branch_nodes) }
    ensures values { walk two value_lines ≡ Some value_nodes }
    ensures values_are_not_quiet { IsFalse (is_quiet value_nodes) }
    ensures root_cut { walk one_node (claimed_and 0 (Cut (Some Nodes)))
        ≡ Some (record { choices = []; status = Leaf; cut = Some Nodes } ∷ []) }
    ensures deepest { option_map is_quiet (walk (four_by Deepest) (then_claims 3)) ≡ Some false }
    ensures oldest { option_map is_quiet (walk (four_by Oldest) (then_claims 2)) ≡ Some false }
    ensures mixed { option_map is_quiet (walk (four_by Mixed) (then_claims 4)) ≡ Some false }
    ensures side_cut { option_map is_quiet (walk two (branch_then_cut Nodes)) ≡ Some true }
{}

/// Events that may not come, first of all or once worker 0 has claimed the root.
#[tactic(auto, unfolding(tree_core::specs::Orders::drawn, tree_core::specs::Orders::is_named, crate::specs::Walks::walk_from, crate::specs::Walks::walk_step, crate::specs::Walks::are_values, crate::specs::Walks::values_first))]
pub fn worked_refusals()
    ensures third_worker { walk two (line 2 0 Claim ∷ []) ≡ None }
    ensures no_such_node { walk two (line 0 1 Claim ∷ []) ≡ None }
    ensures not_claimed { walk two (line 0 0 (Finish None) ∷ []) ≡ None }
    ensures claimed_twice { walk two (claimed_and 1 Claim) ≡ None }
    ensures held_by_another { walk two (claimed_and 1 (Finish None)) ≡ None }
    ensures cut_by_targets { walk two (claimed_and 0 (Cut (Some Targets))) ≡ None }
    ensures cut_early { walk two (claimed_and 0 (Cut (Some Nodes))) ≡ None }
    ensures parted_late { walk one_node (claimed_and 0 (parts 1 (value_side 7 ∷ value_side 9 ∷ [])))
        ≡ None }
    ensures wrong_first_kid { walk two (claimed_and 0 (parts 2 (value_side 7 ∷ value_side 9 ∷ [])))
        ≡ None }
    ensures one_kid { walk two (claimed_and 0 (parts 1 (value_side 7 ∷ []))) ≡ None }
    ensures rest_alone { walk two (claimed_and 0 (parts 1 (rest_side (Some Conflicts) ∷ [])))
        ≡ None }
    ensures not_increasing { walk two (claimed_and 0 (parts 1 (value_side 9 ∷ value_side 7 ∷ [])))
        ≡ None }
    ensures too_large { walk two (claimed_and 0 (parts 1 (value_side 7 ∷ value_side (2 ^ 32) ∷ [])))
        ≡ None }
    ensures too_many { walk two
        (claimed_and 0 (parts 1 (value_side 7 ∷ value_side 8 ∷ value_side 9 ∷ []))) ≡ None }
    ensures too_few { walk two
        (claimed_and 0 (parts 1 (value_side 7 ∷ rest_side (Some Targets) ∷ []))) ≡ None }
    ensures not_deepest { walk (four_by Deepest) (then_claims 2) ≡ None }
    ensures not_oldest { walk (four_by Oldest) (then_claims 3) ≡ None }
    ensures not_drawn { walk (four_by Mixed) (then_claims 2) ≡ None }
    ensures open_rest { walk two (claimed_and 0 (parts 1 (value_side 7 ∷ rest_side None ∷ [])))
        ≡ None }
{}
