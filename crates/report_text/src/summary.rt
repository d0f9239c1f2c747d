//! How many leaves of which sort there are.

ghost use Rattle.std.specs.Prelude.{◌≡◌, ◌+◌, ◌-◌, ◌^◌, ◌<◌, ◌≤◌, List, [], ◌∷◌, ◌++◌, IfOk, length, map};
ghost use Rattle.fork_spec.specs.Leaves.{Leaf};
ghost use Rattle.report_text.specs.Reports.{leaves_in};
ghost use Rattle.report_text.specs.Summaries as spec;
ghost use Rattle.report_text.specs.Summaries.{HasRoom, count, summary_text};

use crate::reported::Reported;
use byte_list::Bytes;
use fork_spec::LeafEnd;
use itoa::Buffer;
use std::alloc::{AllocError as NoMemory, Global};
use tree_core::Cause;

/// How many leaves of which sort there are.
#[derive(Clone, Copy, Debug, PartialEq, Eq)]
pub struct Summary {
    pub leaves: usize,
    /// Those whose runs have ended.
    pub finished: usize,
    /// All others.
    pub cut: usize,
    /// Those that have a test: finished ones, and those that were cut by steps.
    pub tests: usize,
    /// Of all finished leaves together.
    pub steps: u64,
}

impl Summary {
    /// Of no leaves.
    pub fn empty() -> Summary
        ensures { result ≡ count [] }
    {
        Summary {
            leaves: 0,
            finished: 0,
            cut: 0,
            tests: 0,
            steps: 0,
        }
    }
}

/// Whether the runs have ended.
fn is_finished(end: LeafEnd) -> bool
    ensures { result ≡ spec.is_finished end }
{
    match end {
        LeafEnd::Exits { .. } | LeafEnd::Traps(_) => true,
        LeafEnd::Cut(_) => false,
    }
}

/// Whether such a leaf has a test.
fn is_tested(end: LeafEnd) -> bool
    ensures { result ≡ spec.is_tested end }
{
    match end {
        LeafEnd::Exits { .. } | LeafEnd::Traps(_) | LeafEnd::Cut(Cause::Steps) => true,
        LeafEnd::Cut(Cause::Targets | Cause::Conflicts | Cause::Nodes) => false,
    }
}

/// The summary of so many leaves and one more.
fn with_leaf(before: Summary, end: LeafEnd, steps: u32) -> Summary
    requires { HasRoom before }
    ensures counted { (leaves : List Leaf) (leaf : Leaf) → before ≡ count leaves → end ≡ leaf.end
        → steps ≡ leaf.steps → result ≡ count (leaves ++ leaf ∷ []) }
    ensures steps { result.steps ≤ before.steps + (2 ^ 32 - 1) }
{
    let finished = is_finished(end);
    let tested = is_tested(end);
    let steps = if finished { steps } else { 0 };
    Summary {
        leaves: before.leaves + 1,
        finished: before.finished + usize::from(finished),
        cut: before.cut + usize::from(!finished),
        tests: before.tests + usize::from(tested),
        steps: before.steps + u64::from(steps),
    }
}

/// How many leaves of which sort these are.
pub fn summarize<E: Reported>(leaves: &[E]) -> Summary
    requires { length leaves.now < 2 ^ 32 }
    ensures { result ≡ count (leaves_in (map E.leaf_node leaves.now)) }
{
    let mut summary = Summary::empty();
    for leaf in leaves {
        summary = with_leaf(summary, leaf.end(), leaf.steps());
    }
    summary
}

/// The line that is said of them.
pub fn summary_line(alloc: Global, summary: &Summary) -> Result<Bytes, NoMemory>
    ensures { IfOk result (λ line. line ≡ summary_text summary.now) }
{
    let (mut all, mut ended, mut not_ended) = (Buffer::new(), Buffer::new(), Buffer::new());
    let (mut tested, mut made) = (Buffer::new(), Buffer::new());
    let (leaves, finished) = (all.format(summary.leaves), ended.format(summary.finished));
    let (cut, tests) = (not_ended.format(summary.cut), tested.format(summary.tests));
    let steps = made.format(summary.steps);
    let line = format!(in alloc;
        "leaves {leaves} finished {finished} cut {cut} tests {tests} steps {steps}\n"
    )?;
    Ok(Bytes::from_vec(line.into_bytes()))
}
