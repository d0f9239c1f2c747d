//! A node and its width, as a table keeps them.

ghost use Rattle.std.specs.Prelude.{◌≡◌, ◌<◌, Some, length, slice_get, slice_index};
ghost use Rattle.term_table.specs.Entries.{kept_widths};

use bv_dag::Node;
use cow_vec::CowVec;

/// A node and its width.
#[derive(Clone, Copy)]
pub(crate) struct TableEntry {
    pub(crate) node: Node,
    pub(crate) width: u32,
}

/// The entry at a place.
pub(crate) fn entry_at(entries: &CowVec<TableEntry>, id: usize) -> TableEntry
    requires { id < length entries.now }
    ensures { slice_get entries.now id ≡ Some result }
{
    entries.get(id).unwrap()
}

/// The width at a place, and 0 past the end.
pub(crate) fn width_at(entries: &CowVec<TableEntry>, id: usize) -> u32
    ensures { result ≡ slice_index (kept_widths entries.now) id }
{
    match entries.get(id) {
        Some(entry) => entry.width,
        None => 0,
    }
}
