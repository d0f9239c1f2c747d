//! What a bench is to put and say: the report of a program that is generated.

ghost use Rattle.std.specs.Prelude.{◌≡◌, IfOk, None};
ghost use Rattle.elf_load.specs.Images.{Loads};
ghost use Rattle.elf_load.specs.Refusals.{refusal};
ghost use Rattle.tool_words.specs.Limits.{IsWithin, numbers_limit, workers_limit};
ghost use Rattle.tool_top.specs.Lines.{bench_line};
ghost use Rattle.tool_top.specs.Plan.{IsBenched};

use crate::exploring::plan_report;
use crate::plan::Plan;
use byte_list::Bytes;
use elf_load::{Image, LoadError, load};
use itoa::Buffer;
use node_split::Worker;
use prog_gen::{Generated, generate};
use std::alloc::{AllocError as NoMemory, Global};
use std::sync::Wait;
use std::thread::Threads;
use sym_state::Program;
use tool_words::{CONFLICTS, NODES, ORDER, STEPS, TARGETS};
use tree_core::Budgets;
use work_gate::Gate;

// The number of the program, and then the summary of its report.
fn bench_line(alloc: Global, number: u32, summary: &[u8]) -> Result<Bytes, NoMemory>
    ensures { IfOk result (λ line. line ≡ bench_line number summary.now) }
{
    let mut buffer = Buffer::new();
    let number = buffer.format(number);
    let mut line = format!(in alloc; "bench {number} ")?.into_bytes();
    line.extend_from_slice(summary)?;
    Bytes::from_slice(alloc, line.as_slice())
}

// The image of a file that nothing refuses.
fn load_whole(alloc: Global, bytes: &[u8]) -> Result<Image, NoMemory>
    requires { refusal bytes.now ≡ None }
    ensures { IfOk result (λ image. Loads bytes.now image) }
{
    match load(alloc, bytes) {
        Ok(image) => Ok(image),
        Err(LoadError::Refused(_)) => unreachable!(),
        Err(LoadError::NoMemory) => Err(NoMemory),
    }
}

/// Makes the plan of a bench in full. Its program is generated, so nothing is read.
pub(crate) fn plan_bench<R: Threads + Wait + Sync, G: Gate + Sync>(
    rt: &R,
    alloc: Global,
    number: u32,
    workers: u32,
    out: &str,
    gate: &G,
) -> Result<Plan, NoMemory>
    requires number { IsWithin numbers_limit number }
    requires workers { IsWithin workers_limit workers }
    ensures { IfOk result (λ p. IsBenched number workers out.now p.verdict p.files.items p.text) }
{
    let Generated { file, regions } = generate(alloc, number)?;
    let image = load_whole(alloc, file.as_slice())?;
    let budgets = Budgets {
        steps: STEPS.default,
        targets: TARGETS.default,
        conflicts: CONFLICTS.default,
        nodes: NODES.default,
        order: ORDER,
    };
    let worker = Worker::new(alloc, Program::new(image, regions), budgets)?;
    let mut plan = plan_report(rt, alloc, out, &worker, workers, gate)?;
    plan.text = bench_line(alloc, number, plan.text.as_slice())?;
    Ok(plan)
}
