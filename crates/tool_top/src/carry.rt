//! Carrying a plan out.

ghost use Rattle.std.specs.Prelude.{◌≡◌, ◌≢◌, ◌⊎◌, ◌≤◌, ℕ, [], List, OnOk, IsErrOf};
ghost use Rattle.tool_io.specs.Told.{after, puts_all, says, IsPrefix, IsCutShort, Put};
ghost use Rattle.tool_io.specs.Causes.{HasCause};
ghost use Rattle.tool_top.specs.Lines.{no_memory};
ghost use Rattle.tool_top.specs.Answer.{IsCarriedOut, IsCutByFault};

use crate::plan::Plan;
use crate::verdict::Verdict;
use tool_io::{Fault, Files, NamedFile};

// Puts the files in their order.
fn put_all<F: Files>(files: &mut F, report: &[NamedFile]) -> Result<(), Fault>
    ensures ok { OnOk result ((F.seen files.new).told
        ≡ after (F.seen files.old).told (puts_all report.now)) }
    ensures failed { IsErrOf result Fault.Failed → (puts : List Put) × IsCutShort puts report.now
        × ((F.seen files.new).told ≡ after (F.seen files.old).told (puts_all puts)) }
    ensures no_memory { IsErrOf result Fault.NoMemory → (puts : List Put) × IsPrefix puts report.now
        × ((F.seen files.new).told ≡ after (F.seen files.old).told (puts_all puts)) }
    ensures some { IsErrOf result Fault.Failed → report.now ≢ [] }
    ensures cause { HasCause (F.seen files.old).writes (F.seen files.new).writes result }
    ensures reads { (F.seen files.new).reads ≡ (F.seen files.old).reads }
{
    for file in report {
        files.put(file.name(), file.bytes())?;
    }
    Ok(())
}

/// Puts the plan's files and says its text. A text that is no report's stands even where saying it failed.
pub fn carry_out<F: Files>(files: &mut F, plan: &Plan) -> Result<(), Fault>
    ensures ok { OnOk result (IsCarriedOut (F.seen files.old) (F.seen files.new)
        plan.now.verdict plan.now.files.items plan.now.text []) }
    ensures failed { IsErrOf result Fault.Failed
        → IsCutByFault (F.seen files.old) (F.seen files.new)
        plan.now.files.items plan.now.text [] }
    ensures no_memory { IsErrOf result Fault.NoMemory → (puts : List Put)
        × IsPrefix puts plan.now.files.items
        × ((F.seen files.new).told ≡ after (F.seen files.old).told (puts_all puts)) }
    // A plan that puts no file and isn't done stands even where its line failed.
    ensures only_done { IsErrOf result Fault.Failed → (plan.now.verdict ≡ Verdict.Done)
        ⊎ (plan.now.files.items ≢ []) }
    ensures cause { HasCause (F.seen files.old).writes (F.seen files.new).writes result }
    ensures reads { (F.seen files.new).reads ≡ (F.seen files.old).reads }
{
    put_all(files, plan.files.as_slice())?;
    match files.say(plan.text.as_slice()) {
        Ok(()) => Ok(()),
        Err(Fault::Failed) => {
            if plan.verdict == Verdict::Done {
                Err(Fault::Failed)
            } else {
                Ok(())
            }
        }
        Err(Fault::NoMemory) => Err(Fault::NoMemory),
    }
}

/// Says that memory was refused.
pub(crate) fn say_no_memory<F: Files>(files: &mut F)
    ensures said { (said : List ℕ) × IsPrefix said no_memory
        × ((F.seen files.new).told ≡ after (F.seen files.old).told (says said)) }
    ensures writes { (F.seen files.old).writes ≤ (F.seen files.new).writes }
    ensures reads { (F.seen files.new).reads ≡ (F.seen files.old).reads }
{
    let _ = files.say(b"no memory\n");
}
