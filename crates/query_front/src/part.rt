//! The part of a question that matters.

ghost use Rattle.std.specs.Prelude.{◌≡◌, IfOk};
ghost use Rattle.bv_dag.specs.Graphs.{width_of};
ghost use Rattle.bv_dag.specs.Queries.{AreBits};
ghost use Rattle.query_front.specs.Parts.{IsPartOfQuery};

use bv_dag::{Query, Table};
use query_slice::slice;
use std::alloc::{AllocError as NoMemory, Global};

/// The question whether a condition on a table of terms and one more term can hold, cut to what shares input bytes with
/// that term, directly or through others. It costs in proportion to what the condition stands on.
pub fn part_of<T: Table>(
    alloc: Global,
    terms: &T,
    condition: Vec<usize>,
    new: usize,
) -> Result<Query, NoMemory>
    requires condition { AreBits (T.graph terms.now) condition.items }
    requires bit { width_of (T.graph terms.now) new ≡ 1 }
    ensures { IfOk result (IsPartOfQuery
        (record { graph = T.graph terms.now; asserted = condition.items }) new) }
{
    let mut all = condition;
    all.push(new)?;
    slice(alloc, terms, &all, new)
}
