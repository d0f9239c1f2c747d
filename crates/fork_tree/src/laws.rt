//! What holds of every story of a tree, and of every tree that is quiet.

ghost use Rattle.std.specs.Prelude.{◌≡◌, ◌<◌, ◌++◌, ℕ, All, IsTrue, List, [], ◌∷◌, Option, Some, count_by, false, length, true};
ghost use Rattle.std.specs.Global.{Vec};
ghost use Rattle.fork_spec.specs.Decisions.{Decision};
ghost use Rattle.tree_core.specs.Covers.{count_below};
ghost use Rattle.tree_core.specs.Replays.{is_allowed, may_come, with_event, opening};
ghost use Rattle.tree_core.specs.Stories.{Story, content, status};
ghost use Rattle.tree_core.specs.declared.cause.Cause.{Cause};
ghost use Rattle.tree_core.specs.declared.choice.Choice.{Choice};
ghost use Rattle.tree_core.specs.declared.event.Event.{Event};
ghost use Rattle.tree_core.specs.declared.event.Kid.{Kid};
ghost use Rattle.tree_core.specs.declared.order.Order.{Order};
ghost use Rattle.fork_spec.specs.Histories.{IsHistory, LeafNode, is_leaf, is_leaf_status};
ghost use Rattle.fork_spec.specs.Leaves.{Leaf};
ghost use Rattle.fork_spec.specs.Partings.{Place};
ghost use Rattle.fork_spec.specs.Walks.{Standing, is_by_nodes, is_quiet, is_settled};
ghost use Rattle.fork_tree.specs.Calls.{IsQuiet};
ghost use Rattle.fork_tree.specs.Candidates.{IsInTurn};
ghost use Rattle.fork_tree.specs.Contents.{cut_in};
ghost use Rattle.fork_tree.specs.Drains.{IsDrained, IsLeafOf, Reads, leaf_nodes};
ghost use Rattle.fork_tree.specs.NodesApart.{AreNodesApart, KeepsApart};
ghost use Rattle.fork_tree.specs.Written.{AreNodesOf, IsInForm, IsWalked, lines_of, nodes_after, written_now};
ghost use Rattle.fork_tree.specs.declared.content.Content.{Content};

use crate::work::Work;

/// What is written of the story of a tree is a walk that leads to its nodes: of one free root, and where an event that may come is noted.
pub fn what_is_written_of_a_story_is_a_walk<R: Drop>()
    ensures opening { (choices : R → List Choice) (cut : R → Option Cause) (targets most : ℕ)
        (order : Order) (root : R) → choices root ≡ []
        → IsWalked choices cut targets most order (opening root false) }
    ensures noted { (choices : R → List Choice) (cut : R → Option Cause) (targets most : ℕ)
        (order : Order) (s : Story R) (e : Event R (Vec (Kid R))) (r : R)
        → All (λ (x : Event R ℕ). x.node < length s.nodes) s.events
        → e.node < length s.nodes → content s e.node ≡ Some r
        → IsTrue (may_come (λ leaf. is_by_nodes (cut leaf)) most s e)
        → IsInForm choices cut targets r e.deed
        → IsInTurn choices cut order s e.node e.deed
        → IsWalked choices cut targets most order s
        → IsWalked choices cut targets most order (with_event s e) }
    ensures lines { (cut : R → Option Cause) (s : Story R) (e : Event R (Vec (Kid R)))
        → nodes_after 1 s.events ≡ length s.nodes
        → lines_of cut (with_event s e)
        ≡ lines_of cut s ++ record {
          by = e.by;
          node = e.node;
          deed = written_now cut (length s.nodes) e.deed;
        } ∷ [] }
{}

/// Where no node is free or held, the walk leaves nothing to be done, and has as many leaves as the tree.
pub fn the_walk_of_a_quiet_story_is_quiet<R: Drop>()
    ensures quiet { (choices : R → List Choice) (cut : R → Option Cause) (s : Story R)
        (nodes : List Standing) → AreNodesOf choices cut s nodes
        → ((m : ℕ) → m < length s.nodes → is_settled (status s m) ≡ true) → is_quiet nodes ≡ true }
    ensures leaves { (choices : R → List Choice) (cut : R → Option Cause) (s : Story R)
        (nodes : List Standing) → AreNodesOf choices cut s nodes
        → count_by is_leaf nodes ≡ count_below (λ m. is_leaf_status (status s m)) (length s.nodes) }
{}

/// Nodes without kids are apart: of one free root, and where what an event makes of its node is under it and apart.
pub fn nodes_without_kids_stay_apart<R: Drop>()
    ensures opening { (place : R → Place) (decides : List ℕ → List Decision) (root : R)
        → AreNodesApart place decides (opening root false) }
    ensures noted { (place : R → Place) (decides : List ℕ → List Decision) (s : Story R)
        (e : Event R (Vec (Kid R))) (r : R)
        → All (λ (x : Event R ℕ). x.node < length s.nodes) s.events
        → e.node < length s.nodes → content s e.node ≡ Some r → IsTrue (is_allowed s e)
        → KeepsApart place decides r e.deed
        → AreNodesApart place decides s → AreNodesApart place decides (with_event s e) }
{}

/// Where no node of a tree is free or held, a walk that leads to its nodes leaves nothing to be done, and has as many leaves as the
/// tree.
pub fn the_walk_of_a_quiet_tree_is_quiet<R: Drop>()
    ensures quiet { (choices : R → List Choice) (cut : R → Option Cause) (s : Story R)
        (nodes : List Standing) → AreNodesOf choices cut s nodes
        → IsQuiet s → is_quiet nodes ≡ true }
    ensures leaves { (choices : R → List Choice) (cut : R → Option Cause) (s : Story R)
        (nodes : List Standing) → AreNodesOf choices cut s nodes
        → count_by is_leaf nodes ≡ leaf_nodes s }
{}

/// A drained tree is a history of its leaves, where all of them are listed, for any number of workers that all of its workers are
/// among.
pub fn a_drained_tree_is_a_history<W: Work>()
    ensures { (worker : W) (leaf_of : W.Leaf → Leaf) (s : Story (Content W.State W.Leaf))
        (workers : ℕ) (entries : List LeafNode)
        → IsDrained (W.rules worker) W.State.place W.Leaf.place s
        → All (λ (e : Event (Content W.State W.Leaf) ℕ). e.by < workers) s.events
        → Reads W.Leaf.place leaf_of → All (IsLeafOf leaf_of s) entries
        → length entries ≡ leaf_nodes s
        → IsHistory (record {
          workers = workers;
          targets = (W.rules worker).targets;
          nodes = (W.rules worker).nodes;
          order = (W.rules worker).order;
        }) (lines_of (cut_in W.State.place W.Leaf.place) s) entries }
{}
