//! The two sides of a branch.

ghost use Rattle.std.specs.Prelude.{◌≡◌, ℕ, IfOk};
ghost use Rattle.bv_dag.specs.Graphs.{number_of, width_of};
ghost use Rattle.sym_state.specs.Symbolic.{Symbolic};
ghost use Rattle.sym_state.specs.Undecided.{IsBranch};
ghost use Rattle.run_sides.specs.Narrowing.{IsNarrower};
ghost use Rattle.run_sides.specs.Sides.{IsSideTested, branch_choice, is_side};

use crate::narrow::narrow;
use std::alloc::AllocError as NoMemory;
use sym_state::{Decided, State};
use tree_core::Choice;

/// Where the side of a branch stands among the decisions of its step: behind the step's word.
pub const SIDE: usize = 1;

/// A run, with a term of one bit that is 1 on one side of a branch.
pub struct Tested {
    pub run: State,
    pub test: usize,
}

impl Drop for Tested {
    fn drop(self) {
        let Self {
            run: _run,
            test: _test,
        } = self;
    }
}

impl Tested {
    /// The run, and the term.
    pub fn into_parts(self) -> (State, usize)
        ensures run { result.0 ≡ self.run }
        ensures test { result.1 ≡ self.test }
    {
        let Self { run, test } = self;
        (run, test)
    }
}

/// The choice that leads to a side.
pub fn choice_of(side: bool) -> Choice
    ensures { result ≡ branch_choice side }
{
    match side {
        false => Choice::No,
        true => Choice::Yes,
    }
}

/// A share of a run, with what is 1 on this side of a branch.
pub fn with_test(state: &State, term: usize, side: bool) -> Result<Tested, NoMemory>
    requires { IsBranch state.now term }
    ensures { IfOk result (IsSideTested state.now term side) }
{
    let mut run = state.share()?;
    if side {
        return Ok(Tested { run, test: term });
    }
    let test = run.negated(term)?;
    Ok(Tested { run, test })
}

/// The run on this side of a branch, which its step knows there. Its sample stays.
pub fn take_side(tested: Tested, side: bool) -> Result<State, NoMemory>
    requires { width_of tested.run.terms tested.test ≡ 1 }
    ensures inputs { IfOk result (λ run. run.terms.inputs ≡ tested.run.terms.inputs) }
    ensures narrower { IfOk result (λ run. (s : Symbolic) (term : ℕ) → IsBranch s term
        → IsSideTested s term side tested
        → IsNarrower s run (branch_choice side)
        (λ input. is_side side (number_of s.terms term input))) }
{
    let (mut run, test) = tested.into_parts();
    narrow(&mut run, choice_of(side), test)?;
    run.know(SIDE, Decided::Side(side));
    Ok(run)
}
