//! What an upgrade of a test is to put and say.

ghost use Rattle.std.specs.Prelude.{◌≡◌, ◌∷◌, [], IfOk, Ok, OnErr, Some};
ghost use Rattle.test_files.specs.Reading.{reading};
ghost use Rattle.test_files.specs.Upgrading.{upgraded};
ghost use Rattle.tool_words.specs.Job.{Upgrade};
ghost use Rattle.tool_top.specs.Lines.{upgraded_line};
ghost use Rattle.tool_top.specs.Plan.{IsPlanned, OnlyReads};
ghost use Rattle.tool_top.specs.Upgrading.{TreatsUpgrade};

use crate::plan::{Plan, says_only};
use crate::refusals::say_test_refused;
use crate::replaying::MOST_TEST_BYTES;
use crate::verdict::Verdict;
use byte_list::Bytes;
use std::alloc::{AllocError as NoMemory, Global};
use test_files::{TestError, upgrade_test};
use tool_io::{Fault, Files, NamedFile};

// The text is put as the file `out`, and that is said.
fn plan_file(alloc: Global, out: &str, text: Bytes) -> Result<Plan, NoMemory>
    ensures verdict { IfOk result (λ p. p.verdict ≡ Verdict.Done) }
    ensures files { IfOk result (λ p. p.files.items
        ≡ (record { name = out.now; bytes = text }) ∷ []) }
    ensures text { IfOk result (λ p. p.text ≡ upgraded_line) }
{
    let mut plan = says_only(alloc, Verdict::Done, b"upgraded\n")?;
    let name = String::from_str(alloc, out)?;
    plan.files.push(NamedFile::new(name, text))?;
    Ok(plan)
}

// What is to be done for a test's bytes.
fn plan_upgraded(alloc: Global, out: &str, text: &[u8]) -> Result<Plan, NoMemory>
    ensures { IfOk result (λ p. TreatsUpgrade out.now text.now p.verdict p.files.items p.text) }
{
    match upgrade_test(alloc, text) {
        Ok(new) => plan_file(alloc, out, new),
        Err(TestError::Refused(why)) => {
            let line = say_test_refused(alloc, why)?;
            says_only(alloc, Verdict::TestRefused, line.as_slice())
        }
        Err(TestError::NoMemory) => Err(NoMemory),
    }
}

/// Reads a test's file, and makes the plan of its upgrade.
pub(crate) fn plan_upgrade<F: Files>(
    alloc: Global,
    test: &str,
    out: &str,
    files: &mut F,
) -> Result<Plan, NoMemory>
    ensures ok { IfOk result (λ p. IsPlanned (F.seen files.old) (F.seen files.new)
        (Some (Upgrade test.now out.now)) p.verdict p.files.items p.text) }
    ensures err { OnErr result (OnlyReads (F.seen files.old) (F.seen files.new) (test.now ∷ [])) }
    ensures writes { (F.seen files.new).writes ≡ (F.seen files.old).writes }
{
    match files.read(test, MOST_TEST_BYTES) {
        Ok(text) => plan_upgraded(alloc, out, text.as_slice()),
        Err(Fault::Failed) => says_only(alloc, Verdict::ReadFault, b"read fault\n"),
        Err(Fault::NoMemory) => Err(NoMemory),
    }
}
