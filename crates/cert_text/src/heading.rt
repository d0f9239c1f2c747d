//! Reading the lines of a certificate's heading.

ghost use Rattle.std.specs.Prelude.{◌≡◌, IfOk, option_map};
ghost use Rattle.cert_text.specs.LineReading as spec;

use crate::lists::take_all;
use cert_form::Limits;
use elf_load::Regions;
use leaf_reader::{behind, one, three};
use std::alloc::{AllocError as NoMemory, Global};

/// The line of the regions.
pub(crate) fn take_regions(alloc: Global, text: &[u8]) -> Result<Option<(Regions, &[u8])>, NoMemory>
    ensures { IfOk result (λ found. option_map (λ found. (found.0, found.1.now)) found
        ≡ spec.regions_line text.now) }
{
    let Some(rest) = behind(text, "regions") else {
        return Ok(None);
    };
    match take_all(alloc, rest, "\n")? {
        Some((regions, rest)) => Ok(Some((Regions::from_vec(regions), rest))),
        None => Ok(None),
    }
}

/// Limits of these numbers, if they have 32 bits.
fn budgets_of(steps: u64, targets: u64, conflicts: u64, nodes: u64) -> Option<Limits>
    ensures { result ≡ spec.budgets_of steps targets conflicts nodes }
{
    Some(Limits {
        steps: u32::try_from(steps).ok()?,
        targets: u32::try_from(targets).ok()?,
        conflicts: u32::try_from(conflicts).ok()?,
        nodes: u32::try_from(nodes).ok()?,
    })
}

/// The line of the budgets.
pub(crate) fn take_budgets(text: &[u8]) -> Option<(Limits, &[u8])>
    ensures { option_map (λ found. (found.0, found.1.now)) result ≡ spec.budgets_line text.now }
{
    let ((steps, targets, conflicts), rest) = three(behind(text, "budgets ")?, " ", " ", " ")?;
    let (nodes, rest) = one(rest, "\n")?;
    Some((budgets_of(steps, targets, conflicts, nodes)?, rest))
}
