//! Explorations: how many leaves there are, how many of them each budget cut, and by what the questions of the runs were answered. No
//! report is made, and no file is written. On standard error it is said how long the call of `explore` took.

ghost use Rattle.std.specs.Prelude.{◌≤◌, IfOk};
ghost use Rattle.tool_words.specs.Limits.{IsBudgets};

use crate::ends::{count_cut, ends_of};
use crate::files::read_file;
use crate::limits::{Exploration, read_exploration};
use anyhow::{Result, bail};
use elf_load::{Region, Regions, fit, load};
use fork_spec::LeafEnd;
use node_split::{Counts, Worker};
use std::alloc::Global;
use std::rt;
use std::sync::Wait;
use std::thread::Threads;
use std::time::{Clock, Duration, Instant};
use sym_state::{Program, State};
use tree_core::{Budgets, Cause};
use work_gate::OpenGate;
use work_run::explore;

// The worker of the program in these bytes.
fn worker_of(alloc: Global, bytes: &[u8], input: Region, budgets: Budgets) -> Result<Worker>
    requires { IsBudgets budgets }
    ensures { IfOk result (λ worker. IsBudgets worker.budgets) }
{
    let image = load(alloc, bytes)?;
    let regions = Regions::from_vec(vec![in alloc; input]?);
    if let Err(why) = fit(&image, &regions) {
        bail!("the input doesn't fit: {}", why.name());
    }
    Ok(Worker::new(alloc, Program::new(image, regions), budgets)?)
}

// How the leaves end that so many workers find, and how long they explored: from the first state to the whole tree.
fn explored<R: Threads + Wait + Clock + Sync>(
    rt: &R,
    alloc: Global,
    worker: &Worker,
    workers: u32,
) -> Result<(Vec<LeafEnd>, Duration)>
    requires within { IsBudgets worker.now.budgets }
    requires some { 1 ≤ workers }
{
    let root = State::first(alloc, worker.program())?;
    let start = Instant::now(rt)?;
    let Budgets { nodes, order, .. } = worker.budgets();
    let tree = explore(rt, alloc, worker, root, workers, nodes, order, &OpenGate)?;
    let time = start.elapsed(rt)?;
    Ok((ends_of(alloc, &tree)?, time))
}

fn print_line(rt: &impl Print, ends: &[LeafEnd], counts: Counts) -> Result<()> {
    println!(rt;
        "leaves {} cut by steps {} targets {} conflicts {} questions cached {} sampled {} decided {} spent {}",
        ends.len(),
        count_cut(ends, Cause::Steps),
        count_cut(ends, Cause::Targets),
        count_cut(ends, Cause::Conflicts),
        counts.cached,
        counts.sampled,
        counts.decided,
        counts.spent
    )?;
    Ok(())
}

// The worker of the program that is to be explored.
fn worker_for<R: rt::Files + Print + AllocGlobal>(rt: &R, job: Exploration<'_>) -> Result<Worker>
    requires { IsBudgets job.budgets }
    ensures { IfOk result (λ worker. IsBudgets worker.budgets) }
{
    let bytes = read_file(rt, job.program)?;
    worker_of(rt.alloc(), bytes.as_slice(), job.input, job.budgets)
}

// Explores by so many workers, and prints what it comes to.
fn print_run<R: Print + Eprint + AllocGlobal + Threads + Wait + Clock + Sync>(
    rt: &R,
    worker: &Worker,
    workers: u32,
) -> Result<()>
    requires within { IsBudgets worker.now.budgets }
    requires some { 1 ≤ workers }
{
    let (ends, time) = explored(rt, rt.alloc(), worker, workers)?;
    eprintln!(rt; "explored in {} microseconds", time.as_micros())?;
    print_line(rt, &ends, worker.counts())
}

/// What the exploration of these words comes to.
pub fn print_explored<R: rt::Files + Print + Eprint + AllocGlobal + Threads + Wait + Clock + Sync>(
    rt: &R,
    words: &[String],
) -> Result<()> {
    let Some(job) = read_exploration(words) else {
        bail!("these words explore nothing");
    };
    let worker = worker_for(rt, job)?;
    print_run(rt, &worker, job.workers)
}
