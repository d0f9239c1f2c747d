//! What holds of the entries of every tree, of the order of choices, and of the texts of events and of what was spent.

ghost use Rattle.std.specs.Prelude.{◌≡◌, ◌≢◌, ◌⊎◌, ◌<◌, ℕ, List, All, Some, slice_get, true};
ghost use Rattle.elf_load.specs.Images.{Image};
ghost use Rattle.elf_load.specs.declared.region.Region.{Region};
ghost use Rattle.rv_spec.specs.Memory.{IsAssignment};
ghost use Rattle.tree_core.specs.Covers.{covered, root_content};
ghost use Rattle.tree_core.specs.Stories.{Story};
ghost use Rattle.tree_core.specs.declared.budgets.Budgets.{Budgets};
ghost use Rattle.tree_core.specs.declared.event.Event.{Event};
ghost use Rattle.fork_spec.specs.Evidence.{Learnt, Spent};
ghost use Rattle.fork_spec.specs.Histories.{ReleaseOnce};
ghost use Rattle.fork_spec.specs.Leaves.{IsSmall};
ghost use Rattle.fork_spec.specs.Walks.{Line};
ghost use Rattle.fork_tree.specs.Written.{lines_of};
ghost use Rattle.fork_tree.specs.Contents.{cut_in, place_in};
ghost use Rattle.fork_tree.specs.Drains.{IsDrained};
ghost use Rattle.fork_tree.specs.declared.content.Content.{Content};
ghost use Rattle.report_text.specs.Claims.{Entry, IsReport};
ghost use Rattle.report_text.specs.Events.{events_text};
ghost use Rattle.report_text.specs.Learnt.{conflicts_text};
ghost use Rattle.report_text.specs.Legible.{AreLegible, IsLegibleLearnt, IsLegibleSpent};
ghost use Rattle.report_text.specs.Spent.{nodes_text, targets_text};
ghost use Rattle.report_text.specs.Entries.{AreByRank, AreEntries, AskAsClaimed, IsReportable, entries_of};
ghost use Rattle.report_text.specs.declared.leaves.LeafAt.{LeafAt};
ghost use Rattle.tree_core.specs.Choices.{is_before, precedes};
ghost use Rattle.tree_core.specs.declared.choice.Choice.{Choice};
ghost use Rattle.fork_spec.specs.Partings.{FirstDiffer};

use crate::leaves::HasPart;
use fork_tree::Work;

/// Lists of choices that first differ in two choices stand in the order of these, and of two different choices one is before the other.
pub fn choices_are_ordered_where_they_differ()
    ensures first { (cs ds : List Choice) (c d : Choice) → FirstDiffer cs ds c d
        → precedes cs ds ≡ is_before c d }
    ensures one { (c d : Choice) → c ≢ d → (is_before c d ≡ true) ⊎ (is_before d c ≡ true) }
{}

/// The entries of a tree that is done are a report, of which all claims hold: where what its worker asks of leaves is what is claimed of
/// them, the root stands for every assignment, and no other workers have noted events.
pub fn the_entries_of_a_tree_are_a_report<W: Work>()
where
    W::Leaf: HasPart,
    ensures { (worker : W) (image : Image) (regions : List Region) (budgets : Budgets) (workers : ℕ)
        (s : Story (Content W.State W.Leaf)) (entries : List Entry)
        → AskAsClaimed W.Leaf.part (W.rules worker) W.Leaf.place image regions budgets
        → IsDrained (W.rules worker) W.State.place W.Leaf.place s
        → AreEntries W.Leaf.part regions s entries
        → ((input : List ℕ) → IsAssignment regions input
        → covered (λ c. (place_in W.State.place W.Leaf.place c).covers) (root_content s) input
        ≡ true)
        → All (λ (e : Event (Content W.State W.Leaf) ℕ). e.by < workers) s.events
        → ReleaseOnce s.events
        → IsReport (record {
          image = image;
          regions = regions;
          budgets = budgets;
          workers = workers;
          lines = lines_of (cut_in W.State.place W.Leaf.place) s;
          entries = entries;
        }) }
{}

/// Leaves that stand by rank are the entries of their tree.
pub fn leaves_by_rank_are_entries<W: Work>()
where
    W::Leaf: HasPart,
    ensures { (regions : List Region) (s : Story (Content W.State W.Leaf)) (leaves : List LeafAt)
        → AreByRank W.Leaf.part s leaves
        → ((rank : ℕ) (l : LeafAt) → slice_get leaves rank ≡ Some l → IsReportable l.part.now)
        → AreEntries W.Leaf.part regions s (entries_of regions 0 leaves) }
{}

/// The text of events is that of no others.
pub fn a_text_is_that_of_one_history()
    ensures { (lines others : List Line) → AreLegible lines → AreLegible others
        → events_text lines ≡ events_text others → lines ≡ others }
{}

/// What was spent is told by its text: values of a term, a question with the clauses that were learnt for it, and how many nodes there
/// were.
pub fn a_text_tells_what_was_spent()
    ensures targets { (spent other : Spent) → IsLegibleSpent spent → IsLegibleSpent other
        → targets_text spent ≡ targets_text other → spent ≡ other }
    ensures conflicts { (learnt other : Learnt) → IsLegibleLearnt learnt → IsLegibleLearnt other
        → conflicts_text learnt ≡ conflicts_text other → learnt ≡ other }
    ensures nodes { (count other : ℕ) → IsSmall count → IsSmall other
        → nodes_text count ≡ nodes_text other → count ≡ other }
{}
