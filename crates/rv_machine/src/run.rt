//! Runs of so many steps.

ghost use Rattle.std.specs.Prelude.{◌≡◌, ◌+◌, ◌≤◌, ℕ, List, IfOk};
ghost use Rattle.elf_load.specs.Images.{Image};
ghost use Rattle.elf_load.specs.declared.region.Region.{Region};
ghost use Rattle.rv_spec.specs.Machine.{State};
ghost use Rattle.rv_spec.specs.Runs.{IsRunOf, run, run_from};
ghost use Rattle.rv_machine.specs.Progress.{IsAt};

use crate::machine::Machine;
use rv_decode::{End, PathStep};
use std::alloc::AllocError as NoMemory;

/// What a run has come to.
#[derive(Debug)]
pub struct Ran {
    /// How it has ended, if it has.
    pub end: Option<End>,
    /// How many steps were made, the ending one included.
    pub steps: u32,
    /// What each conditional branch did, and where each JALR went.
    pub path: Vec<PathStep>,
    /// The bytes that the program has written.
    pub output: Vec<u8>,
}

impl Drop for Ran {
    fn drop(self) {
        let Self {
            end: _end,
            steps: _steps,
            path: _path,
            output: _output,
        } = self;
    }
}

impl Machine {
    /// Makes so many steps at most, up to an end.
    ///
    /// # Errors
    ///
    /// Where memory is wanting for the path or the output.
    pub fn run(self, most: u32) -> Result<Ran, NoMemory>
        ensures onward { IfOk result (λ ran. (s : State) (made : ℕ) → IsAt self (run_from s made)
            → IsRunOf (run_from s (made + most))
            ((run_from s made).steps + ran.steps) ran.path.items ran.end ran.output.items) }
        ensures started { IfOk result (λ ran. (image : Image) (regions : List Region)
            (input : List ℕ) → IsAt self (run image regions input 0)
            → IsRunOf (run image regions input most) ran.steps ran.path.items ran.end
            ran.output.items) }
        ensures few { IfOk result (λ ran. ran.steps ≤ most) }
    {
        let mut machine = self;
        let mut steps = 0;
        while steps < most && machine.end().is_none() {
            machine.step()?;
            steps += 1;
        }
        Ok(machine.into_ran(steps))
    }
}
