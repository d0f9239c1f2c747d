//! What a replay is to say.

ghost use Rattle.std.specs.Prelude.{◌≡◌, Ok, Some, [], ◌∷◌, IfOk, OnErr};
ghost use Rattle.elf_load.specs.Images.{Loads};
ghost use Rattle.test_files.specs.Reading.{reading};
ghost use Rattle.tool_words.specs.Job.{Replay};
ghost use Rattle.tool_top.specs.Plan.{IsPlanned, OnlyReads, TreatsTest};
ghost use Rattle.tool_top.specs.Replaying.{IsReplayable};

use crate::plan::{Plan, refuse, refuse_input, says_only};
use crate::reading::read_both;
use crate::refusals::say_test_refused;
use crate::verdict::Verdict;
use elf_load::{Image, LoadError, fit, load};
use replay_core::{Replayed, replay, write_difference};
use std::alloc::{AllocError as NoMemory, Global};
use test_files::{Test, TestError, read_test};
use tool_io::{Fault, Files};

// The most bytes of a test's file that are read.
pub(crate) const MOST_TEST_BYTES: usize = 16_777_217;

// The answer of a test that can be run.
fn plan_run(
    alloc: Global,
    bytes: &[u8],
    text: &[u8],
    image: &Image,
    test: &Test,
) -> Result<Plan, NoMemory>
    requires replayable { IsReplayable bytes.now text.now image.now test.now }
    ensures { IfOk result (λ p. TreatsTest bytes.now text.now p.verdict p.files.items p.text) }
{
    match replay(alloc, image, test)? {
        Replayed::Same => says_only(alloc, Verdict::Done, b"same\n"),
        Replayed::Differs(ran) => {
            let lines = write_difference(alloc, &ran)?;
            says_only(alloc, Verdict::Differs, lines.as_slice())
        }
    }
}

// What is to be done for a test on a program.
fn plan_test(
    alloc: Global,
    bytes: &[u8],
    text: &[u8],
    image: &Image,
    test: &Test,
) -> Result<Plan, NoMemory>
    requires loads { Loads bytes.now image.now }
    requires reads { reading text.now ≡ Ok test.now }
    ensures { IfOk result (λ p. TreatsTest bytes.now text.now p.verdict p.files.items p.text) }
{
    match fit(image, &test.regions) {
        Err(why) => refuse_input(alloc, why),
        Ok(()) => plan_run(alloc, bytes, text, image, test),
    }
}

// What is to be done for a test's bytes, on a program.
fn plan_text(alloc: Global, bytes: &[u8], text: &[u8], image: &Image) -> Result<Plan, NoMemory>
    requires loads { Loads bytes.now image.now }
    ensures { IfOk result (λ p. TreatsTest bytes.now text.now p.verdict p.files.items p.text) }
{
    match read_test(alloc, text) {
        Ok(test) => plan_test(alloc, bytes, text, image, &test),
        Err(TestError::Refused(why)) => {
            let line = say_test_refused(alloc, why)?;
            says_only(alloc, Verdict::TestRefused, line.as_slice())
        }
        Err(TestError::NoMemory) => Err(NoMemory),
    }
}

// What is to be done for a program's bytes and a test's.
fn plan_both(alloc: Global, bytes: &[u8], text: &[u8]) -> Result<Plan, NoMemory>
    ensures { IfOk result (λ p. TreatsTest bytes.now text.now p.verdict p.files.items p.text) }
{
    match load(alloc, bytes) {
        Ok(image) => plan_text(alloc, bytes, text, &image),
        Err(LoadError::Refused(why)) => refuse(alloc, why),
        Err(LoadError::NoMemory) => Err(NoMemory),
    }
}

/// Reads the program and then the test, and makes the plan of their replay.
pub(crate) fn plan_replay<F: Files>(
    alloc: Global,
    program: &str,
    test: &str,
    files: &mut F,
) -> Result<Plan, NoMemory>
    ensures ok { IfOk result (λ p. IsPlanned (F.seen files.old) (F.seen files.new)
        (Some (Replay program.now test.now)) p.verdict p.files.items p.text) }
    ensures err { OnErr result (OnlyReads (F.seen files.old) (F.seen files.new)
        (program.now ∷ test.now ∷ [])) }
    ensures writes { (F.seen files.new).writes ≡ (F.seen files.old).writes }
{
    match read_both(program, test, MOST_TEST_BYTES, files) {
        Ok((bytes, text)) => plan_both(alloc, bytes.as_slice(), text.as_slice()),
        Err(Fault::Failed) => says_only(alloc, Verdict::ReadFault, b"read fault\n"),
        Err(Fault::NoMemory) => Err(NoMemory),
    }
}
