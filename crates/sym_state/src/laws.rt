//! What holds of the terms of runs.

ghost use Rattle.std.specs.Prelude.{◌≡◌, ◌<◌, ℕ, List};
ghost use Rattle.elf_load.specs.Images.{Image};
ghost use Rattle.elf_load.specs.declared.region.Region.{Region};
ghost use Rattle.fork_spec.specs.Decisions.{step_decisions};
ghost use Rattle.rv_spec.specs.Runs.{run};
ghost use Rattle.sym_state.specs.Unfolding.{unfolded_run};

/// Runs that decide alike, step by step, have the same terms.
pub fn terms_follow_from_decisions()
    ensures { (image : Image) (regions : List Region) (a b : List ℕ) (steps : ℕ)
        → ((k : ℕ) → k < steps → step_decisions (run image regions a k).state
        ≡ step_decisions (run image regions b k).state)
        → unfolded_run image regions a steps ≡ unfolded_run image regions b steps }
{}
