//! The top call: all that the tool does, for the words of a command line.

ghost use Rattle.std.specs.Prelude.{◌≡◌, ◌≢◌, ◌⊎◌, None, IfSome, map, string_bytes};
ghost use Rattle.tool_io.specs.Told.{names_since, IsPrefix};
ghost use Rattle.tool_io.specs.Causes.{Rose};
ghost use Rattle.tool_words.specs.Job.{job_of};
ghost use Rattle.tool_top.specs.Plan.{names_of};
ghost use Rattle.replay_core.specs.Replays.{IsAsSaid};
ghost use Rattle.report_text.specs.Claims.{AreAlike, AreFaithful, AreFull, ArePartedAll, AreRuns, GiveUpOnce, HasHistory, HaveInputs, IsExactCover, IsReport, ShowBudgets, StandByRank};
ghost use Rattle.tool_top.specs.Answer.{Audits, Before, Ends, OnReplayed, Upgrades, Writes, ran, HoldsProgram, HoldsNoProgram, HoldsNoTest, HoldsMisfit, HoldsOther, HoldsTest, HoldsText, HoldsUpgrade};

use crate::carry::{carry_out, say_no_memory};
use crate::plan::make_plan;
use crate::verdict::{Ending, Verdict};
use std::alloc::Global;
use std::sync::Wait;
use std::thread::Threads;
use tool_io::{Fault, Files};
use work_gate::Gate;

fn run_words<R: Threads + Wait + Sync, F: Files, G: Gate + Sync>(
    rt: &R,
    alloc: Global,
    words: &[String],
    files: &mut F,
    gate: &G,
) -> Ending
    ensures { Ends (ran F.seen files.old files.new words.now) result }
{
    match make_plan(rt, alloc, words, files, gate) {
        Ok(plan) => match carry_out(files, &plan) {
            Ok(()) => Ending::Planned(plan.verdict),
            Err(Fault::Failed) => Ending::WriteFault,
            Err(Fault::NoMemory) => {
                say_no_memory(files);
                Ending::NoMemory
            }
        },
        Err(_) => {
            say_no_memory(files);
            Ending::NoMemory
        }
    }
}

/// Does all that the tool does, and answers its status.
pub fn run_tool<R: Threads + Wait + Sync, F: Files, G: Gate + Sync>(
    rt: &R,
    alloc: Global,
    words: &[String],
    files: &mut F,
    gate: &G,
) -> u8
    // What was done with each status, and for which plan of the job.
    ensures done { result ≡ 0
        → Ends (ran F.seen files.old files.new words.now) (Ending.Planned Verdict.Done) }
    ensures differs { result ≡ 1
        → Ends (ran F.seen files.old files.new words.now) (Ending.Planned Verdict.Differs) }
    ensures no_job { result ≡ 2
        → Ends (ran F.seen files.old files.new words.now) (Ending.Planned Verdict.NoJob) }
    ensures refused { result ≡ 3
        → Ends (ran F.seen files.old files.new words.now) (Ending.Planned Verdict.Refused) }
    ensures unfit { result ≡ 4
        → Ends (ran F.seen files.old files.new words.now) (Ending.Planned Verdict.Unfit) }
    ensures read_fault { result ≡ 5
        → Ends (ran F.seen files.old files.new words.now) (Ending.Planned Verdict.ReadFault) }
    ensures write_fault { result ≡ 6
        → Ends (ran F.seen files.old files.new words.now) Ending.WriteFault }
    ensures test_refused { result ≡ 7
        → Ends (ran F.seen files.old files.new words.now) (Ending.Planned Verdict.TestRefused) }
    ensures no_memory { result ≡ 8
        → Ends (ran F.seen files.old files.new words.now) Ending.NoMemory }

    // No other status is answered, and each only where it has its cause.
    ensures only { (result ≡ 0) ⊎ (result ≡ 1) ⊎ (result ≡ 2) ⊎ (result ≡ 3) ⊎ (result ≡ 4)
        ⊎ (result ≡ 5) ⊎ (result ≡ 6) ⊎ (result ≡ 7) ⊎ (result ≡ 8) }
    ensures differs_where { result ≡ 1
        → Before (ran F.seen files.old files.new words.now) HoldsOther }
    ensures no_job_where { result ≡ 2 → job_of (map string_bytes words.now) ≡ None }
    ensures refused_where { result ≡ 3
        → Before (ran F.seen files.old files.new words.now) HoldsNoProgram }
    ensures unfit_where { result ≡ 4
        → Before (ran F.seen files.old files.new words.now) HoldsMisfit }
    ensures read_where { result ≡ 5 → Rose (F.seen files.old).reads (F.seen files.new).reads }
    ensures write_job { result ≡ 6 → job_of (map string_bytes words.now) ≢ None }
    ensures test_where { result ≡ 7
        → Before (ran F.seen files.old files.new words.now) HoldsNoTest }
    ensures write_where { result ≡ 6 → Rose (F.seen files.old).writes (F.seen files.new).writes }

    // Where the object tells them, the names read are those of the job, from the first on.
    ensures names { IfSome (names_since (F.seen files.old).told (F.seen files.new).told)
        (λ names. IsPrefix names (names_of (job_of (map string_bytes words.now)))) }

    // Where an exploration is done: each leaf that was written is a leaf in full,
    ensures leaves_are_full { result ≡ 0
        → Writes (ran F.seen files.old files.new words.now) AreFull }
    // over the input bytes that were asked for,
    ensures input_bytes { result ≡ 0
        → Writes (ran F.seen files.old files.new words.now) HaveInputs }
    // each assignment of the input bytes meets the condition of exactly one of them,
    ensures exact_cover { result ≡ 0
        → Writes (ran F.seen files.old files.new words.now) IsExactCover }
    // and its run has the path, the end, the output and the steps of that leaf,
    ensures faithful { result ≡ 0 → Writes (ran F.seen files.old files.new words.now) AreFaithful }
    // and makes the same decisions as all others that the leaf covers;
    ensures alike { result ≡ 0 → Writes (ran F.seen files.old files.new words.now) AreAlike }
    // any two leaves part by a decision of their runs, which is as their choices say,
    ensures parted { result ≡ 0 → Writes (ran F.seen files.old files.new words.now) ArePartedAll }
    // beside each leaf stands a test, which is a run of it, unless it was cut where it had spent its targets or its conflicts, or for want of
    // nodes,
    ensures tests_are_runs { result ≡ 0
        → Writes (ran F.seen files.old files.new words.now) AreRuns }
    // each leaf that was cut has spent its budget: of targets on the other sides of its own split, of conflicts on clauses that
    // were learnt for its last assertion, of nodes where by the events there were as many as there may be,
    ensures cuts_show_their_budget { result ≡ 0
        → Writes (ran F.seen files.old files.new words.now) ShowBudgets }
    // the events are one run through the fork tree that leaves nothing to be done, and its leaves are those that were written,
    ensures history { result ≡ 0 → Writes (ran F.seen files.old files.new words.now) HasHistory }
    // by which each worker gave up one node at most,
    ensures releases { result ≡ 0 → Writes (ran F.seen files.old files.new words.now) GiveUpOnce }
    // the leaves stand in the order of their choices,
    ensures by_rank { result ≡ 0 → Writes (ran F.seen files.old files.new words.now) StandByRank }
    // and all of this holds of one report, whose files are those that were put, and whose summary is the line that was said.
    ensures files_and_summary { result ≡ 0
        → Writes (ran F.seen files.old files.new words.now) IsReport }
    // Where a replay is done, the run of the test has the steps, the path, the end and the output that the test says.
    ensures same { result ≡ 0
        → Before (ran F.seen files.old files.new words.now)
        (λ told job. OnReplayed told job IsAsSaid) }
    // Where an upgrade is done, the test's text in format 2 is the one file that was put.
    ensures upgraded { result ≡ 0 → Upgrades (ran F.seen files.old files.new words.now) }
    // Where an audit says yes, the leaves that the certificate names share out all assignments of its input bytes, and each of them is
    // right.
    ensures audited { result ≡ 0 → Audits (ran F.seen files.old files.new words.now) }

    // A program is explored to the end, for an input that fits it, unless memory is refused,
    ensures complete { Before (ran F.seen files.old files.new words.now) HoldsProgram
        → ¬ Rose (F.seen files.old).reads (F.seen files.new).reads
        → ¬ Rose (F.seen files.old).writes (F.seen files.new).writes
        → (result ≡ 0) ⊎ (result ≡ 8) }
    // a test that can be run on it is the same or differs,
    ensures complete_replay { Before (ran F.seen files.old files.new words.now) HoldsTest
        → ¬ Rose (F.seen files.old).reads (F.seen files.new).reads
        → ¬ Rose (F.seen files.old).writes (F.seen files.new).writes
        → (result ≡ 0) ⊎ (result ≡ 1) ⊎ (result ≡ 8) }
    // a test that has a text in format 2 gets it,
    ensures complete_upgrade { Before (ran F.seen files.old files.new words.now) HoldsUpgrade
        → ¬ Rose (F.seen files.old).reads (F.seen files.new).reads
        → ¬ Rose (F.seen files.old).writes (F.seen files.new).writes
        → (result ≡ 0) ⊎ (result ≡ 8) }
    // and of a certificate of a program yes or no is said.
    ensures complete_audit { Before (ran F.seen files.old files.new words.now) HoldsText
        → ¬ Rose (F.seen files.old).reads (F.seen files.new).reads
        → ¬ Rose (F.seen files.old).writes (F.seen files.new).writes
        → (result ≡ 0) ⊎ (result ≡ 1) ⊎ (result ≡ 8) }
{
    run_words(rt, alloc, words, files, gate).status()
}
