//! Trying the values of one input byte.
//!
//! They are tried from a given one on, since what lies near bytes that meet most of a condition often
//! meets all of it; and each is tried first on the term that is asserted last, in a graph of only what
//! that stands on: it is the term that is asked about, and most values fail on it alone.

ghost use Rattle.std.specs.Prelude.{◌≡◌, ◌<◌, ℕ, List, false, true, IfOk, IfSome, None, length, replicate, slice_set};
ghost use Rattle.bv_dag.specs.Inputs.{asserted_inputs};
ghost use Rattle.bv_dag.specs.Queries.{holds, IsUnsatisfiable};
ghost use Rattle.query_pick.specs.Occurring.{IsAlone};

use crate::picking::pick;
use bv_dag::Query;
use std::alloc::{AllocError as NoMemory, Global};

/// How many values a byte has.
const VALUES: u32 = 256;

// Puts a byte at its place, if it is one of these.
fn put_byte(input: &mut Vec<u8>, place: usize, value: u8)
    ensures { input.new.items ≡ slice_set input.old.items place value }
{
    if place < input.len() {
        input[place] = value;
    }
}

// The part of a question that is asked last: its last term alone, or nothing where it has none.
fn last_part(alloc: Global, query: &Query) -> Result<Query, NoMemory>
    ensures { IfOk result (λ last. (input : List ℕ) → holds query.now input ≡ true
        → holds last input ≡ true) }
{
    let asserted = query.asserted();
    let before = asserted.len().saturating_sub(1);
    pick(alloc, query.dag(), &asserted[before..])
}

/// Input bytes that meet the condition, of those that are 0 but at this place; or none where none of these do, which then
/// says of a condition that rests on no other byte that no input bytes meet it. The values of the byte are tried from this
/// first one on, behind 255 from 0 on. The only error is want of memory.
pub fn try_byte(
    alloc: Global,
    query: &Query,
    place: usize,
    first: u8,
) -> Result<Option<Vec<u8>>, NoMemory>
    ensures some { IfOk result (λ found. IfSome found
        (λ input. holds query.now input.items ≡ true)) }
    ensures none { IfOk result (λ found. found ≡ None → (b : ℕ) → b < 256
        → holds query.now (slice_set (replicate query.now.graph.inputs 0) place b) ≡ false) }
    ensures alone { IsAlone (asserted_inputs query.now) place
        → IfOk result (λ found. found ≡ None → IsUnsatisfiable query.now) }
{
    let last = last_part(alloc, query)?;
    let mut input = vec![in alloc; 0u8; query.inputs()]?;
    for steps in 0..VALUES {
        put_byte(&mut input, place, first.wrapping_add(steps as u8));
        if last.holds(alloc, &input)? && query.holds(alloc, &input)? {
            return Ok(Some(input));
        }
    }
    Ok(None)
}
