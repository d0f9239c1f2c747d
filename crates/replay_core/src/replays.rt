//! Running a test.

ghost use Rattle.std.specs.Prelude.{◌≡◌, true, false, None, length, IfOk};
ghost use Rattle.elf_load.specs.Fits.{unfit};
ghost use Rattle.rv_spec.specs.Memory.{count_of};
ghost use Rattle.replay_core.specs.Replays.{EndsAlike, IsReplay, LeavesAlike};

use elf_load::Image;
use rv_machine::{Machine, Ran};
use std::alloc::{AllocError as NoMemory, Global};
use test_files::Test;

/// What the run of a test's input has come to.
#[derive(Debug, Drop)]
pub enum Replayed {
    /// Just what the test says.
    Same,
    /// Something else.
    Differs(Ran),
}

// Whether it has made as many steps as the test says, and ended so.
fn ends_alike(ran: &Ran, test: &Test) -> bool
    ensures yes { result ≡ true → EndsAlike ran.now test.now }
    ensures no { result ≡ false → ¬ EndsAlike ran.now test.now }
{
    ran.steps == test.steps && ran.end == test.end
}

// Whether it has the path and the output that the test says.
fn leaves_alike(ran: &Ran, test: &Test) -> bool
    ensures yes { result ≡ true → LeavesAlike ran.now test.now }
    ensures no { result ≡ false → ¬ LeavesAlike ran.now test.now }
{
    ran.path.as_slice() == test.path.as_slice() && ran.output.as_slice() == test.output.as_slice()
}

/// Runs the input of a test on the program's image, for as many steps as the test says, and compares its steps, its
/// path, its end and its output with those of the test.
///
/// # Errors
///
/// Where memory is wanting for the machine's pages, the path or the output.
pub fn replay(alloc: Global, image: &Image, test: &Test) -> Result<Replayed, NoMemory>
    requires fit { unfit image.now test.now.regions ≡ None }
    requires whole { length test.now.input ≡ count_of test.now.regions }
    ensures { IfOk result (IsReplay image.now test.now) }
{
    let machine = Machine::start(alloc, image, &test.regions, test.input.as_slice())?;
    let ran = machine.run(test.steps)?;
    if ends_alike(&ran, test) && leaves_alike(&ran, test) {
        Ok(Replayed::Same)
    } else {
        Ok(Replayed::Differs(ran))
    }
}
