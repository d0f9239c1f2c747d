//! The words of an exploration.

ghost use Rattle.std.specs.Prelude.{IfSome};
ghost use Rattle.tool_words.specs.Limits.{IsBudgets, IsWithin, workers_limit};

use elf_load::Region;
use tool_words::{CONFLICTS, Limit, NODES, ORDER, STEPS, TARGETS, WORKERS};
use tree_core::Budgets;

/// What is to be explored.
#[derive(Clone, Copy, Debug)]
pub struct Exploration<'a> {
    /// The name of the program's file.
    pub program: &'a str,
    /// Where its input bytes stand.
    pub input: Region,
    pub budgets: Budgets,
    /// How many workers explore it.
    pub workers: u32,
}

// A number from 1 to the limit's most.
fn read_number(limit: Limit, word: &str) -> Option<u32>
    ensures { IfSome result (IsWithin limit) }
{
    let number = word.parse::<u32>().ok()?;
    if number == 0 || limit.most < number {
        return None;
    }
    Some(number)
}

// An address in hexadecimal digits, and how many bytes there are.
fn read_region(word: &str) -> Option<Region> {
    let (start, count) = word.split_once(':')?;
    Some(Region {
        start: u32::from_str_radix(start, 16).ok()?,
        count: count.parse::<u32>().ok()?,
    })
}

fn read_budgets(steps: &str, targets: &str, conflicts: &str) -> Option<Budgets>
    ensures { IfSome result IsBudgets }
{
    Some(Budgets {
        steps: read_number(STEPS, steps)?,
        targets: read_number(TARGETS, targets)?,
        conflicts: read_number(CONFLICTS, conflicts)?,
        nodes: NODES.default,
        order: ORDER,
    })
}

/// The exploration of the words, or none.
pub fn read_exploration(words: &[String]) -> Option<Exploration<'_>>
    ensures budgets { IfSome result (λ job. IsBudgets job.budgets) }
    ensures workers { IfSome result (λ job. IsWithin workers_limit job.workers) }
{
    let [program, input, steps, targets, conflicts, workers] = words else {
        return None;
    };
    Some(Exploration {
        program,
        input: read_region(input)?,
        budgets: read_budgets(steps, targets, conflicts)?,
        workers: read_number(WORKERS, workers)?,
    })
}
