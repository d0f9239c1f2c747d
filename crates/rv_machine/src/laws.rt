//! What the definitions say of runs.

ghost use Rattle.std.specs.Prelude.{◌≡◌, ◌+◌, ℕ, is_some, true};
ghost use Rattle.rv_spec.specs.Machine.{State};
ghost use Rattle.rv_spec.specs.Runs.{continued, run_from};

/// One step more of a run is one step from where it is.
pub fn a_run_goes_on()
    ensures { (s : State) (made : ℕ)
        → run_from s (made + 1) ≡ continued (run_from s made) (run_from s made).end }
{}

/// A run that has ended stays as it is.
pub fn an_ended_run_stays()
    ensures { (s : State) (made more : ℕ) → is_some (run_from s made).end ≡ true
        → run_from s (made + more) ≡ run_from s made }
{}
