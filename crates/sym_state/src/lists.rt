//! Shared lists, copied out.

ghost use Rattle.std.specs.Prelude.{◌≡◌, IfOk};

use cow_vec::CowVec;
use std::alloc::{AllocError as NoMemory, Global};

/// The items of a list that copies share.
pub fn listed<T: Copy>(alloc: Global, shared: &CowVec<T>) -> Result<Vec<T>, NoMemory>
    ensures { IfOk result (λ items. items.items ≡ shared.now) }
{
    let mut items = Vec::with_capacity(alloc, shared.len())?;
    for at in 0..shared.len() {
        let Some(item) = shared.get(at) else {
            unreachable!();
        };
        items.push(item)?;
    }
    Ok(items)
}
