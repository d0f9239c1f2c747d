//! The numbers that options and words say, and their limits.

ghost use Rattle.std.specs.Prelude.{◌≡◌};
ghost use Rattle.clap.specs.Words.{found_of, rows_of};
ghost use Rattle.tool_words.specs.Limits.{budgets_found, number_found, number_said, number_within, workers_found};

use crate::order::read_order;
use clap::ArgMatches;
use tree_core::Budgets;

/// The numbers that an option or a word takes, from 1 to `most`, and the number where it isn't given.
#[derive(Clone, Copy, Debug, PartialEq, Eq)]
pub struct Limit {
    pub most: u32,
    pub default: u32,
}

/// Of `--steps`.
pub const STEPS: Limit = Limit {
    most: 1_000_000,
    default: 10_000,
};

/// Of `--targets`.
pub const TARGETS: Limit = Limit {
    most: 64,
    default: 16,
};

/// Of `--conflicts`.
pub const CONFLICTS: Limit = Limit {
    most: 100_000,
    default: 2_000,
};

/// Of `--nodes`.
pub const NODES: Limit = Limit {
    most: 1_000_000,
    default: 1_000_000,
};

/// Of `--workers`.
pub const WORKERS: Limit = Limit {
    most: 64,
    default: 4,
};

/// Of `bench`, which always gives a number.
pub const NUMBERS: Limit = Limit {
    most: 12,
    default: 1,
};

/// The budgets that were given, each the default where it wasn't, or none where one is out of form.
pub(crate) fn read_budgets(found: &ArgMatches<'_>) -> Option<Budgets>
    ensures { result ≡ budgets_found (rows_of (found_of found.now)) }
{
    Some(Budgets {
        steps: read_given(found, "steps", STEPS)?,
        targets: read_given(found, "targets", TARGETS)?,
        conflicts: read_given(found, "conflicts", CONFLICTS)?,
        nodes: read_given(found, "nodes", NODES)?,
        order: read_order(found)?,
    })
}

/// The number of workers, likewise.
pub(crate) fn read_workers(found: &ArgMatches<'_>) -> Option<u32>
    ensures { result ≡ workers_found (rows_of (found_of found.now)) }
{
    read_given(found, "workers", WORKERS)
}

/// The number that the word of this name says, which has a place of its own.
pub(crate) fn read_said(found: &ArgMatches<'_>, name: &str, limit: Limit) -> Option<u32>
    ensures { result ≡ number_said limit name.now (rows_of (found_of found.now)) }
{
    let said = found.get_str(name)?;
    read_within(limit, said)
}

/// The number that the option was given.
fn read_given(found: &ArgMatches<'_>, name: &str, limit: Limit) -> Option<u32>
    ensures { result ≡ number_found limit name.now (rows_of (found_of found.now)) }
{
    match found.get_str(name) {
        Some(value) => read_within(limit, value),
        None => Some(limit.default),
    }
}

/// The number that the value writes in decimal digits, with no sign and no leading zero, where it is
/// within the limit.
fn read_within(limit: Limit, value: &str) -> Option<u32>
    ensures { result ≡ number_within limit value.now }
{
    let digits = value.as_bytes();
    // `parse` takes a plus and leading zeros, too.
    if digits.is_empty() || digits[0] == b'+' || digits[0] == b'0' {
        return None;
    }
    let number = value.parse::<u32>().ok()?;
    if limit.most < number {
        return None;
    }
    Some(number)
}
