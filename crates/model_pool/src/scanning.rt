//! A sample that meets a condition, among those that an iterator gives.

ghost use Rattle.std.specs.Prelude.{IfOk};
ghost use Rattle.std.specs.Iterator.{IsFinite};
ghost use Rattle.model_pool.specs.Scans.{IsScan};

use bv_dag::Query;
use byte_list::Bytes;
use std::alloc::{AllocError as NoMemory, Global};

/// A copy of a sample that meets the condition, or none where none does.
pub fn scan<'a, I: Iterator<Item = &'a Bytes> + Drop>(
    alloc: Global,
    samples: I,
    query: &Query,
) -> Result<Option<Bytes>, NoMemory>
    requires can { I.can_next samples }
    requires ends { IsFinite (I.remaining samples) }
    ensures { IfOk result (IsScan I.next_gives query.now samples) }
{
    for sample in samples {
        if query.holds(alloc, sample.as_slice())? {
            let found = Bytes::from_slice(alloc, sample.as_slice())?;
            return Ok(Some(found));
        }
    }
    Ok(None)
}
