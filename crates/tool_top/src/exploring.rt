//! What an exploration is to put and say.

ghost use Rattle.std.specs.Prelude.{◌≡◌, ◌≤◌, [], ◌∷◌, None, Some, IfOk, OnErr, string_bytes};
ghost use Rattle.elf_load.specs.Fits.{unfit};
ghost use Rattle.tool_words.specs.Limits.{IsBudgets};
ghost use Rattle.tool_words.specs.Seen.{exploration_seen};
ghost use Rattle.tool_top.specs.Plan.{IsPlanned, OnlyReads, Treats};
ghost use Rattle.tool_top.specs.Reports.{IsReportOf};

use crate::plan::{MOST_BYTES, Plan, refuse, refuse_input, says_only};
use crate::verdict::Verdict;
use elf_load::{Image, LoadError, fit, load};
use node_split::Worker;
use report_text::make_report;
use std::alloc::{AllocError as NoMemory, Global};
use std::sync::Wait;
use std::thread::Threads;
use sym_state::{Program, State};
use tool_io::{Fault, Files};
use tool_words::Exploration;
use tree_core::Budgets;
use work_gate::Gate;
use work_run::explore;

/// The report of a program, made in full: so many workers work its fork tree until nothing is left to be done.
pub(crate) fn plan_report<R: Threads + Wait + Sync, G: Gate + Sync>(
    rt: &R,
    alloc: Global,
    out: &str,
    worker: &Worker,
    workers: u32,
    gate: &G,
) -> Result<Plan, NoMemory>
    requires within { IsBudgets worker.now.budgets }
    requires some { 1 ≤ workers }
    ensures verdict { IfOk result (λ p. p.verdict ≡ Verdict.Done) }
    ensures report { IfOk result (λ p.
        IsReportOf out.now worker.now.program.image worker.now.program.regions worker.now.budgets
        workers p.files.items p.text) }
{
    let root = State::first(alloc, worker.program())?;
    let budgets = worker.budgets();
    let Budgets { nodes, order, .. } = budgets;
    let tree = explore(rt, alloc, worker, root, workers, nodes, order, gate)?;
    let regions = worker.program().regions();
    let report = make_report(alloc, out, regions, &budgets, workers, &tree)?;
    let (files, text) = report.into_parts();
    let verdict = Verdict::Done;
    Ok(Plan {
        verdict,
        files,
        text,
    })
}

// The report of a program whose input fits it.
fn plan_fitting<R: Threads + Wait + Sync, G: Gate + Sync>(
    rt: &R,
    alloc: Global,
    asked: &Exploration,
    image: Image,
    gate: &G,
) -> Result<Plan, NoMemory>
    requires fits { unfit image asked.now.regions ≡ None }
    requires within { IsBudgets asked.now.budgets }
    requires some { 1 ≤ asked.now.workers }
    ensures verdict { IfOk result (λ p. p.verdict ≡ Verdict.Done) }
    ensures report { IfOk result (λ p. IsReportOf (string_bytes asked.now.out) image asked.now.regions
        asked.now.budgets asked.now.workers p.files.items p.text) }
{
    let program = Program::new(image, asked.regions.try_clone(alloc)?);
    let worker = Worker::new(alloc, program, asked.budgets)?;
    plan_report(rt, alloc, asked.out.as_str(), &worker, asked.workers, gate)
}

// What is to be done for a program's bytes.
fn plan_bytes<R: Threads + Wait + Sync, G: Gate + Sync>(
    rt: &R,
    alloc: Global,
    asked: &Exploration,
    bytes: &[u8],
    gate: &G,
) -> Result<Plan, NoMemory>
    requires within { IsBudgets asked.now.budgets }
    requires some { 1 ≤ asked.now.workers }
    ensures { IfOk result (λ p. Treats (string_bytes asked.now.out) bytes.now asked.now.regions
        asked.now.budgets asked.now.workers p.verdict p.files.items p.text) }
{
    match load(alloc, bytes) {
        Ok(image) => match fit(&image, &asked.regions) {
            Ok(()) => plan_fitting(rt, alloc, asked, image, gate),
            Err(why) => refuse_input(alloc, why),
        },
        Err(LoadError::Refused(why)) => refuse(alloc, why),
        Err(LoadError::NoMemory) => Err(NoMemory),
    }
}

/// Reads a program's file, and makes the plan of its exploration in full.
pub(crate) fn plan_explore<R: Threads + Wait + Sync, F: Files, G: Gate + Sync>(
    rt: &R,
    alloc: Global,
    asked: &Exploration,
    files: &mut F,
    gate: &G,
) -> Result<Plan, NoMemory>
    requires within { IsBudgets asked.now.budgets }
    requires some { 1 ≤ asked.now.workers }
    ensures ok { IfOk result (λ p. IsPlanned (F.seen files.old) (F.seen files.new)
        (Some (exploration_seen asked.now)) p.verdict p.files.items p.text) }
    ensures err { OnErr result (OnlyReads (F.seen files.old) (F.seen files.new)
        (string_bytes asked.now.program ∷ [])) }
    ensures writes { (F.seen files.new).writes ≡ (F.seen files.old).writes }
{
    match files.read(asked.program.as_str(), MOST_BYTES) {
        Ok(bytes) => plan_bytes(rt, alloc, asked, bytes.as_slice(), gate),
        Err(Fault::Failed) => says_only(alloc, Verdict::ReadFault, b"read fault\n"),
        Err(Fault::NoMemory) => Err(NoMemory),
    }
}
