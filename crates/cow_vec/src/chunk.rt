//! Writes to one chunk: in place where nothing else holds it, and else to a copy of it.

ghost use Rattle.std.specs.Prelude.{◌≡◌, ◌++◌, ◌∷◌, ◌<◌, ◌≤◌, [], IfOk, OnOk, OnErr, slice_set, take, vec_len};
ghost use Rattle.std.specs.Arc.{arc_value};

use std::alloc::{AllocError as NoMemory, Global};
use std::sync::Arc;

/// So many items stand in each chunk but the last.
pub(crate) const CHUNK: usize = 64;

/// A chunk of one item.
pub(crate) fn chunk_of<T: Copy>(alloc: Global, value: T) -> Result<Arc<Vec<T>>, NoMemory>
    ensures { IfOk result (λ chunk. (arc_value chunk).items ≡ value ∷ []) }
{
    let mut items = Vec::new(alloc);
    items.push(value)?;
    Ok(Arc::new(alloc, items)?)
}

/// The first `len` items of a chunk, with the chunk's room.
fn copy_of<T: Copy>(alloc: Global, chunk: &Vec<T>, len: usize) -> Result<Vec<T>, NoMemory>
    requires { len ≤ vec_len chunk.now }
    ensures { IfOk result (λ copy. copy.items ≡ take len chunk.now.items) }
{
    let mut copy = Vec::with_capacity(alloc, chunk.capacity())?;
    copy.extend_from_slice(&chunk[..len])?;
    Ok(copy)
}

/// Puts the value behind the first `len` items, in place of those that stood there.
fn push_behind<T: Copy>(items: &mut Vec<T>, len: usize, value: T) -> Result<(), NoMemory>
    requires { len ≤ vec_len items.old }
    ensures ok { OnOk result (items.new.items ≡ take len items.old.items ++ value ∷ []) }
    ensures err { OnErr result (items.new.items ≡ items.old.items) }
{
    if len < items.len() {
        items[len] = value;
        items.truncate(len + 1);
    } else {
        items.push(value)?;
    }
    Ok(())
}

/// Puts the value behind the first `len` items of the chunk, in place of those that stood there.
pub(crate) fn push_to<T: Copy>(
    alloc: Global,
    chunk: &mut Arc<Vec<T>>,
    len: usize,
    value: T,
) -> Result<(), NoMemory>
    requires { len ≤ vec_len (arc_value chunk.old) }
    ensures ok { OnOk result ((arc_value chunk.new).items
        ≡ take len (arc_value chunk.old).items ++ value ∷ []) }
    ensures err { OnErr result ((arc_value chunk.new).items ≡ (arc_value chunk.old).items) }
{
    if let Some(items) = Arc::get_mut(chunk) {
        return push_behind(items, len, value);
    }
    let mut copy = copy_of(alloc, chunk, len)?;
    copy.push(value)?;
    *chunk = Arc::new(alloc, copy)?;
    Ok(())
}

/// Puts the value in place of the item at `i` of the chunk.
pub(crate) fn set_in<T: Copy>(
    alloc: Global,
    chunk: &mut Arc<Vec<T>>,
    i: usize,
    value: T,
) -> Result<(), NoMemory>
    requires { i < vec_len (arc_value chunk.old) }
    ensures ok { OnOk result ((arc_value chunk.new).items
        ≡ slice_set (arc_value chunk.old).items i value) }
    ensures err { OnErr result ((arc_value chunk.new).items ≡ (arc_value chunk.old).items) }
{
    if let Some(items) = Arc::get_mut(chunk) {
        items[i] = value;
        return Ok(());
    }
    let mut copy = copy_of(alloc, chunk, chunk.len())?;
    copy[i] = value;
    *chunk = Arc::new(alloc, copy)?;
    Ok(())
}
