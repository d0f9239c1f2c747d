//! Questions with known answers, asked: each term of a condition after those before it, as a run comes to them; a run
//! that is asked twice; and what the counts tell.

mod counting;
mod runs;
mod table;
mod terms;

use crate::of_query_front::table::{COMPARISONS, Known, PRODUCTS, QUOTIENTS, Row, SHIFTS, SUMS};
use crate::of_query_front::terms::{Term, graph_of};
use bv_dag::Query;
use byte_list::Bytes;
use query_front::{Asked, Shared, ask_part, part_of};
use std::alloc::{AllocError as NoMemory, Global};
use std::process::Abort;
use std::sync::Wait;
use std::test::Fail;

/// More clauses than any row needs.
const BUDGET: u32 = 2000;

// What is answered to one more term of a condition which the sample meets.
fn asked(
    rt: &(impl Abort + Wait),
    alloc: Global,
    shared: &Shared,
    condition: &Query,
    sample: &Bytes,
    new: usize,
) -> Result<Asked, NoMemory> {
    assert!(rt; new < condition.dag().len() && condition.dag().width_of(new) == 1);
    let so_far = Vec::from_slice(alloc, condition.asserted())?;
    let part = part_of(alloc, condition.dag(), so_far, new)?;
    assert!(rt; sample.len() == part.inputs());
    ask_part(rt, alloc, shared, part, sample, BUDGET)
}

// Asks for one more term of a condition, whose sample then meets that too. Whether some bytes do.
fn goes_on(
    rt: &(impl Abort + Wait),
    alloc: Global,
    shared: &Shared,
    condition: &mut Query,
    sample: &mut Bytes,
    new: usize,
) -> Result<bool, NoMemory> {
    match asked(rt, alloc, shared, condition, sample, new)? {
        Asked::Sat(bytes) => *sample = bytes,
        Asked::Unsat => return Ok(false),
        Asked::Spent(_, _) => panic!(rt; "the budget was spent"),
    }
    assert!(rt; new < condition.dag().len() && condition.dag().width_of(new) == 1);
    condition.assert(new)?;
    assert!(rt; condition.holds(alloc, sample.as_slice())?);
    Ok(true)
}

// The answer to terms of a condition, asked one after the other.
fn answered_in_turn(
    rt: &(impl Abort + Wait),
    alloc: Global,
    shared: &Shared,
    condition: &mut Query,
    places: &[usize],
) -> Result<Known, NoMemory> {
    let mut sample = Bytes::from_slice(alloc, &[0; 4])?;
    for place in places {
        if !goes_on(rt, alloc, shared, condition, &mut sample, *place)? {
            return Ok(Known::Unsat);
        }
    }
    Ok(Known::Sat)
}

// The answer to terms over four input bytes, asked one after the other.
fn answered(
    rt: &(impl Abort + Wait),
    alloc: Global,
    shared: &Shared,
    terms: &[Term],
) -> Result<Known, NoMemory> {
    let (dag, places) = graph_of(rt, alloc, 4, terms)?;
    let mut condition = Query::new(dag, Vec::new(alloc));
    answered_in_turn(rt, alloc, shared, &mut condition, &places)
}

fn are_answered(rt: &(impl Abort + Wait), alloc: Global, rows: &[Row]) -> Result<(), NoMemory> {
    let shared = Shared::new(alloc)?;
    for (known, because, terms) in rows {
        assert_eq!(rt; answered(rt, alloc, &shared, terms)?, *known, "{because}");
    }
    Ok(())
}

#[test]
fn sums_have_the_known_answers(rt: HostRuntime) -> Result<(), Fail> {
    are_answered(&rt, rt.alloc(), SUMS)?;
    Ok(())
}

#[test]
fn products_have_the_known_answers(rt: HostRuntime) -> Result<(), Fail> {
    are_answered(&rt, rt.alloc(), PRODUCTS)?;
    Ok(())
}

#[test]
fn quotients_have_the_known_answers(rt: HostRuntime) -> Result<(), Fail> {
    are_answered(&rt, rt.alloc(), QUOTIENTS)?;
    Ok(())
}

#[test]
fn shifts_have_the_known_answers(rt: HostRuntime) -> Result<(), Fail> {
    are_answered(&rt, rt.alloc(), SHIFTS)?;
    Ok(())
}

#[test]
fn comparisons_have_the_known_answers(rt: HostRuntime) -> Result<(), Fail> {
    are_answered(&rt, rt.alloc(), COMPARISONS)?;
    Ok(())
}
