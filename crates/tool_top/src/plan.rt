//! What a run is to put and say.

ghost use Rattle.std.specs.Prelude.{◌≡◌, None, [], IfOk, OnErr, map, string_bytes};
ghost use Rattle.tool_words.specs.Job.{job_of};
ghost use Rattle.tool_top.specs.Lines.{refused_line, unfit_line};
ghost use Rattle.tool_top.specs.Plan.{IsPlanned, OnlyReads, names_of};

use crate::auditing::plan_audit;
use crate::benching::plan_bench;
use crate::exploring::plan_explore;
use crate::refusals::{say_refused, say_unfit};
use crate::replaying::plan_replay;
use crate::upgrading::plan_upgrade;
use crate::verdict::Verdict;
use byte_list::Bytes;
use elf_load::{Refused, Unfit};
use std::alloc::{AllocError as NoMemory, Global};
use std::sync::Wait;
use std::thread::Threads;
use tool_io::{Files, NamedFile};
use tool_words::{Job, WordsError, read_words};
use work_gate::Gate;

// The most bytes of a program's file that are read.
pub(crate) const MOST_BYTES: usize = 1_048_577;

const USAGE: &[u8] =
    b"usage: rvklee explore [--steps N] [--targets N] [--conflicts N] [--workers N] [--nodes N] [--order O] PROGRAM OUT INPUT..
       rvklee replay PROGRAM TEST
       rvklee bench NUMBER WORKERS OUT
       rvklee upgrade TEST OUT
       rvklee audit PROGRAM CERT
";

/// What is to be put and said, and what the run answers then.
pub struct Plan {
    pub verdict: Verdict,
    pub files: Vec<NamedFile>,
    pub text: Bytes,
}

impl Drop for Plan {
    fn drop(self) {
        let Self {
            verdict: _verdict,
            files: _files,
            text: _text,
        } = self;
    }
}

// A text is said, and no file is put.
pub(crate) fn says_only(alloc: Global, verdict: Verdict, text: &[u8]) -> Result<Plan, NoMemory>
    ensures verdict { IfOk result (λ p. p.verdict ≡ verdict) }
    ensures files { IfOk result (λ p. p.files.items ≡ []) }
    ensures text { IfOk result (λ p. p.text ≡ text.now) }
{
    Ok(Plan {
        verdict,
        files: Vec::new(alloc),
        text: Bytes::from_slice(alloc, text)?,
    })
}

pub(crate) fn refuse(alloc: Global, why: Refused) -> Result<Plan, NoMemory>
    ensures verdict { IfOk result (λ p. p.verdict ≡ Verdict.Refused) }
    ensures files { IfOk result (λ p. p.files.items ≡ []) }
    ensures text { IfOk result (λ p. p.text ≡ refused_line why) }
{
    let line = say_refused(alloc, why)?;
    says_only(alloc, Verdict::Refused, line.as_slice())
}

pub(crate) fn refuse_input(alloc: Global, why: Unfit) -> Result<Plan, NoMemory>
    ensures verdict { IfOk result (λ p. p.verdict ≡ Verdict.Unfit) }
    ensures files { IfOk result (λ p. p.files.items ≡ []) }
    ensures text { IfOk result (λ p. p.text ≡ unfit_line why) }
{
    let line = say_unfit(alloc, why)?;
    says_only(alloc, Verdict::Unfit, line.as_slice())
}

/// Reads what the words' job reads, and makes its plan in full.
pub(crate) fn make_plan<R: Threads + Wait + Sync, F: Files, G: Gate + Sync>(
    rt: &R,
    alloc: Global,
    words: &[String],
    files: &mut F,
    gate: &G,
) -> Result<Plan, NoMemory>
    ensures ok { IfOk result (λ p. IsPlanned (F.seen files.old) (F.seen files.new)
        (job_of (map string_bytes words.now)) p.verdict p.files.items p.text) }
    ensures err { OnErr result (OnlyReads (F.seen files.old) (F.seen files.new)
        (names_of (job_of (map string_bytes words.now)))) }
    ensures writes { (F.seen files.new).writes ≡ (F.seen files.old).writes }
{
    match read_words(alloc, words) {
        Ok(Job::Explore(asked)) => plan_explore(rt, alloc, &asked, files, gate),
        Ok(Job::Replay { program, test }) => {
            plan_replay(alloc, program.as_str(), test.as_str(), files)
        }
        Ok(
            Job::Bench {
                number,
                workers,
                out,
            },
        ) => plan_bench(rt, alloc, number, workers, out.as_str(), gate),
        Ok(Job::Upgrade { test, out }) => plan_upgrade(alloc, test.as_str(), out.as_str(), files),
        Ok(
            Job::Audit {
                program,
                certificate,
            },
        ) => plan_audit(alloc, program.as_str(), certificate.as_str(), files),
        Err(WordsError::Usage) => says_only(alloc, Verdict::NoJob, USAGE),
        Err(WordsError::NoMemory) => Err(NoMemory),
    }
}
