//! What a fork makes of a run.

ghost use Rattle.std.specs.Prelude.{◌≡◌, ◌<◌, IfOk, length};
ghost use Rattle.bv_dag.specs.Graphs.{val};
ghost use Rattle.node_split.specs.Splits.{IsRunOn, leaf_side};

use bv_dag::Word;
use fork_tree::Content;
use leaf_part::LeafPart;
use query_pick::pick_terms;
use std::alloc::{AllocError as NoMemory, Global};
use std::sync::Arc;
use sym_state::{Decided, State};
use tree_core::{Choice, Kid};

/// Where a run goes at a fork.
#[derive(Drop)]
pub enum Forked {
    /// All its assignments go one way: the decision at this place of its next step is this one.
    One { place: usize, decided: Decided },
    /// The sides, in the order of their choices.
    Split(Vec<Kid<Content<State, LeafPart>>>),
}

/// What a term of a run is worth on the run's sample.
pub fn sampled(alloc: Global, state: &State, term: usize) -> Result<Word, NoMemory>
    requires { term < length state.now.terms.nodes }
    ensures { IfOk result (λ word. word ≡ val state.now.terms term state.now.sample) }
{
    let picked = pick_terms(alloc, state.terms(), &[term])?;
    let words = picked.graph.words(alloc, state.sample().as_slice())?;
    Ok(words[picked.ids[0]])
}

/// The side of a fork that is this run.
pub(crate) fn run_kid(
    alloc: Global,
    choice: Choice,
    run: State,
) -> Result<Kid<Content<State, LeafPart>>, NoMemory>
    ensures { IfOk result (IsRunOn choice run) }
{
    let run = Arc::new(alloc, run)?;
    Ok(Kid {
        choice,
        content: Content::Open(run),
        is_leaf: false,
    })
}

/// The side of a fork that is this leaf.
pub(crate) fn leaf_kid(choice: Choice, leaf: LeafPart) -> Kid<Content<State, LeafPart>>
    ensures { result ≡ leaf_side choice leaf }
{
    Kid {
        choice,
        content: Content::Shut(leaf),
        is_leaf: true,
    }
}
