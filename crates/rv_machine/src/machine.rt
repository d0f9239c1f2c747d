//! The machine: where a run is, and how it has ended.

ghost use Rattle.std.specs.Prelude.{◌≡◌, None, length, IfErr, IfOk, OnOk, OnErr};
ghost use Rattle.elf_load.specs.Fits.{unfit};
ghost use Rattle.rv_spec.specs.Machine as machine;
ghost use Rattle.rv_spec.specs.Memory.{count_of};
ghost use Rattle.rv_spec.specs.Runs.{Run, continued, run};
ghost use Rattle.rv_machine.specs.Progress.{IsAt, answer_of};
ghost use Rattle.rv_machine.specs.Ends.{IsRanOf};
ghost use Rattle.rv_machine.specs.HartStates.{state_of};
ghost use Rattle.rv_machine.specs.Steps.{RecordsNext, outcome_of};

use crate::execute::execute;
use crate::filling::place_input;
use crate::hart::Hart;
use crate::run::Ran;
use crate::step::{Step, trapped};
use elf_load::{Image, Regions};
use rv_decode::End;
use std::alloc::{AllocError as NoMemory, Global};
use std::marker::Model;

/// A run of a program on one assignment of the input bytes, at some step. Contracts see where it stands and its end.
#[derive(Debug)]
pub struct Machine {
    hart: Hart,
    end: Option<End>,
}

impl Drop for Machine {
    fn drop(self) {
        let Self {
            hart: _hart,
            end: _end,
        } = self;
    }
}

impl Model for Machine {
    ghost use Rattle.std.specs.Coded.{codes};
    ghost use Rattle.rv_machine.specs.Pages.{pages_code};
    ghost use Rattle.rv_machine.specs.Progress.{Progress};

    ghost Value = { Progress };

    ghost coded = { Prim.hlevel (codes, pages_code) };

    ghost view = { λ m. record { standing = m.hart; end = m.end } };
}

/// Carries out the instruction that comes next, or traps where there is none.
fn advance(hart: &mut Hart) -> Result<Step, NoMemory>
    ensures ok { IfOk result (λ step. outcome_of hart.new step ≡ machine.next (state_of hart.old)) }
    ensures err { OnErr result (hart.new ≡ hart.old) }
    ensures records { IfErr result (λ _. RecordsNext hart.old) }
{
    match hart.fetch() {
        Ok(instr) => execute(hart, instr),
        Err(trap) => Ok(trapped(trap)),
    }
}

impl Machine {
    /// The machine before its first step: at the image's entry, with the input bytes in their regions.
    ///
    /// # Errors
    ///
    /// Where memory is wanting.
    pub fn start(
        alloc: Global,
        image: &Image,
        regions: &Regions,
        input: &[u8],
    ) -> Result<Machine, NoMemory>
        requires fit { unfit image.now regions.now ≡ None }
        requires length { length input.now ≡ count_of regions.now }
        ensures { IfOk result (λ machine. IsAt machine (run image.now regions.now input.now 0)) }
    {
        let mut hart = Hart::of_image(alloc, image)?;
        place_input(&mut hart, regions.as_slice(), input);
        Ok(Machine { hart, end: None })
    }

    /// How the run has ended, if it has.
    pub fn end(&self) -> Option<End>
        ensures { result ≡ self.now.end }
    {
        self.end
    }

    /// Makes a step. After an end nothing changes, and the end is answered again.
    ///
    /// # Errors
    ///
    /// Where memory is wanting for an entry of the path or for output. Nothing changes then.
    pub fn step(&mut self) -> Result<Step, NoMemory>
        ensures ok { OnOk result ((r : Run) → IsAt self.old r → IsAt self.new (continued r r.end)) }
        ensures answer { IfOk result (λ step. step ≡ answer_of self.new.end) }
        ensures err { OnErr result (self.new ≡ self.old) }
        ensures records { IfErr result (λ _. RecordsNext self.old.standing) }
    {
        if let Some(end) = self.end {
            return Ok(Step::Ended(end));
        }
        let step = advance(&mut self.hart)?;
        if let Step::Ended(end) = step {
            self.end = Some(end);
        }
        Ok(step)
    }

    /// What the run has come to, in so many steps.
    pub(crate) fn into_ran(self, steps: u32) -> Ran
        ensures { IsRanOf result self steps }
    {
        let Self { hart, end } = self;
        let (path, output) = hart.into_parts();
        Ran {
            end,
            steps,
            path,
            output,
        }
    }
}
