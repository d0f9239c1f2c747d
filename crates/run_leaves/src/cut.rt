//! The leaves of runs that are cut at a fork: where more values were found than there may be sides, and where the budget of
//! conflicts was spent.

ghost use Rattle.std.specs.Prelude.{◌≡◌, ◌<◌, ◌++◌, ◌∷◌, [], ℕ, List, Bool, IfOk, None, Some, length, map, not};
ghost use Rattle.bv_dag.specs.Graphs.{number_of, width_of};
ghost use Rattle.fork_spec.specs.Evidence.{is_among, values_of};
ghost use Rattle.tree_core.specs.Choices.{IsSmallChoice};
ghost use Rattle.sym_state.specs.Programs.{Program};
ghost use Rattle.sym_state.specs.Narrowed.{IsNarrowed};
ghost use Rattle.sym_state.specs.Runs.{IsOpen, IsSampled};
ghost use Rattle.sym_state.specs.Symbolic.{Symbolic, IsFormed, condition_of};
ghost use Rattle.sym_state.specs.Values.{IsUnknown};
ghost use Rattle.tree_core.specs.declared.budgets.Budgets.{Budgets};
ghost use Rattle.tree_core.specs.declared.cause.Cause.TheVariants.{Conflicts, Targets};
ghost use Rattle.tree_core.specs.declared.choice.Choice as spec;
ghost use Rattle.tree_core.specs.declared.choice.Choice.TheVariants.{Rest, Value as OfValue};
ghost use Rattle.run_leaves.specs.Learning.{IsLearntFor};
ghost use Rattle.run_leaves.specs.Leaving.{HasTextRoom};
ghost use Rattle.run_leaves.specs.Places.{IsLeafAt, side_place};
ghost use Rattle.run_leaves.specs.Values.{AreValues, IsWithout};

use crate::leaf::{leaf_of, leaf_terms, sample_of};
use fork_spec::{Found, LeafEnd};
use leaf_part::{Evidence, LeafPart, Learnt, Spent};
use std::alloc::{AllocError as NoMemory, Global};
use sym_state::State;
use tree_core::{Cause, Choice};

/// The leaf of a side of a fork that is cut because the budget of conflicts was spent on its last assertion. The run is of no use
/// after that.
pub fn cut_conflicts(
    alloc: Global,
    run: &mut State,
    choice: Choice,
    learnt: Learnt,
) -> Result<LeafPart, NoMemory>
    requires small { IsSmallChoice choice }
    requires writable { HasTextRoom run.old }
    ensures sample { IfOk result (λ part. part.sample ≡ None) }
    ensures leaf { IfOk result (λ part. (p : Program) (budgets : Budgets) (sides : List spec.Choice)
        (s : Symbolic) (test : List ℕ → Bool)
        → IsOpen p s → s.steps < budgets.steps → IsFormed s → IsNarrowed s run.old test
        → IsLearntFor budgets.conflicts (condition_of run.old) learnt
        → IsLeafAt p budgets sides None (side_place s choice test Conflicts) part) }
{
    learnt.question.is_whole();
    run.choose(choice)?;
    let terms = leaf_terms(alloc, run, &[])?;
    let evidence = Some(Evidence::Conflicts(learnt));
    let end = LeafEnd::Cut(Cause::Conflicts);
    leaf_of(alloc, run, terms, end, None, evidence)
}

/// The leaf of the side of a fork that has all values of a term but these, as many as there may be. The run is of no use after
/// that.
pub fn cut_targets(
    alloc: Global,
    run: &mut State,
    term: usize,
    found: Vec<Found>,
) -> Result<LeafPart, NoMemory>
    requires writable { HasTextRoom run.old }
    requires width { width_of run.old.terms term ≡ 32 }
    ensures sample { IfOk result (λ part. part.sample ≡ Some run.old.sample) }
    ensures leaf { IfOk result (λ part. (p : Program) (budgets : Budgets) (s : Symbolic)
        → IsOpen p s → s.steps < budgets.steps → IsFormed s → IsUnknown s.terms 32 term
        → IsWithout s term (values_of found.items) run.old
        → IsSampled run.old
        → AreValues s term budgets.targets found.items → length found.items ≡ budgets.targets
        → IsLeafAt p budgets (map OfValue (values_of found.items) ++ Rest ∷ []) None
        (side_place s Rest
        (λ input. not (is_among (values_of found.items) (number_of s.terms term input)))
        Targets) part) }
{
    run.choose(Choice::Rest)?;
    let terms = leaf_terms(alloc, run, &[term])?;
    let sample = sample_of(alloc, run)?;
    let spent = Spent {
        term: terms.more[0],
        found,
    };
    let evidence = Some(Evidence::Targets(spent));
    let end = LeafEnd::Cut(Cause::Targets);
    leaf_of(alloc, run, terms, end, Some(sample), evidence)
}
