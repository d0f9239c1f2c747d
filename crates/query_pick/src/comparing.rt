//! Whether one query asks no more than another.

ghost use Rattle.std.specs.Prelude.{◌≡◌, ◌<◌, ◌↔◌, All, IfOk, IsTrue, length, map, slice_index};
ghost use Rattle.term_trees.specs.Subsets.{AsksNoMore};
ghost use Rattle.query_pick.specs.Shapes.{AreAmong};

use crate::shapes::Shapes;
use bv_dag::Query;
use std::alloc::{AllocError as NoMemory, Global};

// The numbers at these places.
fn numbers_at(alloc: Global, numbers: &[usize], ids: &[usize]) -> Result<Vec<usize>, NoMemory>
    requires { All (λ id. id < length numbers.now) ids.now }
    ensures { IfOk result (λ some. some.items ≡ map (λ id. slice_index numbers.now id) ids.now) }
{
    let mut some = Vec::with_capacity(alloc, ids.len())?;
    for id in ids {
        some.push(numbers[*id])?;
    }
    Ok(some)
}

// Whether each of some numbers is among others.
fn are_among(some: &[usize], others: &[usize]) -> bool
    ensures { IsTrue result ↔ AreAmong some.now others.now }
{
    for number in some {
        if !others.contains(number) {
            return false;
        }
    }
    true
}

/// Whether the first query asks no more than the second: it is over as many input bytes, and what it asserts is, as trees,
/// among what the second asserts. It costs one walk over the terms of each. The only error is want of memory.
pub fn asks_no_more(alloc: Global, less: &Query, more: &Query) -> Result<bool, NoMemory>
    ensures { IfOk result (λ yes. IsTrue yes ↔ AsksNoMore less.now more.now) }
{
    if less.inputs() != more.inputs() {
        return Ok(false);
    }
    let mut shapes = Shapes::new(alloc);
    let of_less = shapes.numbers(alloc, less.dag())?;
    let of_more = shapes.numbers(alloc, more.dag())?;
    let some = numbers_at(alloc, &of_less, less.asserted())?;
    let others = numbers_at(alloc, &of_more, more.asserted())?;
    Ok(are_among(&some, &others))
}
