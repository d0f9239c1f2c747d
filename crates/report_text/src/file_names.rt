//! The names of the files of a report.

ghost use Rattle.std.specs.Prelude.{◌≡◌, IfOk, string_bytes};
ghost use Rattle.report_text.specs.FileNames as spec;

use std::alloc::{AllocError as NoMemory, Global};

/// A rank in six digits, or in more where it has more.
fn padded_rank(alloc: Global, rank: usize) -> Result<String, NoMemory>
    ensures { IfOk result (λ digits. string_bytes digits ≡ spec.six_digits rank) }
{
    let digits = format!(in alloc; "{rank:06}")?;
    Ok(digits)
}

/// The name of the file of the events, in the folder `out`.
pub fn events_name(alloc: Global, out: &str) -> Result<String, NoMemory>
    ensures { IfOk result (λ name. string_bytes name ≡ spec.events_name out.now) }
{
    format!(in alloc; "{out}/events.txt")
}

/// The name of the file of the leaf of this rank.
pub fn leaf_name(alloc: Global, out: &str, rank: usize) -> Result<String, NoMemory>
    ensures { IfOk result (λ name. string_bytes name ≡ spec.leaf_name out.now rank) }
{
    let digits = padded_rank(alloc, rank)?;
    format!(in alloc; "{out}/leaf-{digits}.smt2")
}

/// The name of the file of its test.
pub fn test_name(alloc: Global, out: &str, rank: usize) -> Result<String, NoMemory>
    ensures { IfOk result (λ name. string_bytes name ≡ spec.test_name out.now rank) }
{
    let digits = padded_rank(alloc, rank)?;
    format!(in alloc; "{out}/test-{digits}.json")
}

/// The name of the file of what was spent on it.
pub fn spent_name(alloc: Global, out: &str, rank: usize) -> Result<String, NoMemory>
    ensures { IfOk result (λ name. string_bytes name ≡ spec.spent_name out.now rank) }
{
    let digits = padded_rank(alloc, rank)?;
    format!(in alloc; "{out}/spent-{digits}.txt")
}

/// The name of the file of the report's JSON.
pub fn report_name(alloc: Global, out: &str) -> Result<String, NoMemory>
    ensures { IfOk result (λ name. string_bytes name ≡ spec.report_name out.now) }
{
    format!(in alloc; "{out}/report.json")
}
