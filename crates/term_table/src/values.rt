//! What terms are worth.

ghost use Rattle.std.specs.Prelude.{◌≡◌, ◌≤◌, IfOk, length, take};
ghost use Rattle.bv_dag.specs.Graphs.{AllFit};
ghost use Rattle.bv_dag.specs.Nodes.{values};
ghost use Rattle.term_table.specs.Entries.{nodes_of};

use crate::entry::{TableEntry, entry_at};
use bv_dag::Word;
use cow_vec::CowVec;
use std::alloc::{AllocError as NoMemory, Global};

/// What the first `count` terms are worth, each in its place.
pub(crate) fn words_of_first(
    alloc: Global,
    entries: &CowVec<TableEntry>,
    count: usize,
    input: &[u8],
) -> Result<Vec<Word>, NoMemory>
    requires there { count ≤ length entries.now }
    requires all_fit { AllFit (length input.now) (nodes_of entries.now) }
    ensures { IfOk result (λ words. words.items
        ≡ values input.now (take count (nodes_of entries.now))) }
{
    let mut words = Vec::with_capacity(alloc, count)?;
    for id in 0..count {
        words.push(entry_at(entries, id).node.value(&words, input))?;
    }
    Ok(words)
}
