//! People in a queue, each with another behind. No queue is so, since the last has nobody behind, and a search should see it
//! soon.

use crate::of_cdcl_core::{Kind, answered, push};
use cnf_form::Cnf;
use std::alloc::{AllocError as NoMemory, Global};
use std::process::Abort;
use std::test::Fail;

const PEOPLE: u16 = 11;

// How many pairs of other variables there are.
const PAIRS: u16 = 400;

// That one stands ahead of another, as DIMACS writes it. The variables of the pairs come before these.
fn is_ahead(one: u16, other: u16) -> i32 {
    let (low, high) = (one.min(other), one.max(other));
    let place = i32::from(low) * i32::from(PEOPLE) + i32::from(high);
    let variable = 2 * i32::from(PAIRS) + 1 + place;
    if one < other { variable } else { -variable }
}

// Three people don't stand in a circle, one way or the other.
fn push_circles(rt: &impl Abort, alloc: Global, formula: &mut Cnf) -> Result<(), NoMemory> {
    for number in 0..PEOPLE * PEOPLE * PEOPLE {
        let (a, b, c) = (
            number / (PEOPLE * PEOPLE),
            number / PEOPLE % PEOPLE,
            number % PEOPLE,
        );
        if a < b && b < c {
            let way = [is_ahead(a, b), is_ahead(b, c), is_ahead(c, a)];
            push(rt, alloc, formula, &way)?;
            let other_way = [is_ahead(a, c), is_ahead(c, b), is_ahead(b, a)];
            push(rt, alloc, formula, &other_way)?;
        }
    }
    Ok(())
}

// Each stands ahead of another.
fn push_neighbours(rt: &impl Abort, alloc: Global, formula: &mut Cnf) -> Result<(), NoMemory> {
    for one in 0..PEOPLE {
        let numbers: Vec<i32> = (0..PEOPLE)
            .filter(|other| *other != one)
            .map(|other| is_ahead(one, other))
            .collect(alloc)?;
        push(rt, alloc, formula, &numbers)?;
    }
    Ok(())
}

// One of each pair is true.
fn push_pairs(rt: &impl Abort, alloc: Global, formula: &mut Cnf) -> Result<(), NoMemory> {
    for pair in 0..PAIRS {
        let first = 2 * i32::from(pair) + 1;
        push(rt, alloc, formula, &[first, first + 1])?;
    }
    Ok(())
}

fn push_all(rt: &impl Abort, alloc: Global, formula: &mut Cnf) -> Result<(), NoMemory> {
    push_pairs(rt, alloc, formula)?;
    push_circles(rt, alloc, formula)?;
    push_neighbours(rt, alloc, formula)
}

// Conflicts in the queue make its variables the most active, so the pairs have no part in the search, and it needs 83
// clauses. One that takes active variables in a wrong order, doesn't put them back, begins again at each conflict or often
// learns its decisions needs 355 or more.
#[test]
fn each_queue_has_an_end(rt: HostRuntime) -> Result<(), Fail> {
    let alloc = rt.alloc();
    let mut queue = Cnf::new(alloc);
    push_all(&rt, alloc, &mut queue)?;
    assert_eq!(rt; answered(alloc, &queue, 160)?, Some(Kind::Refuted));
    Ok(())
}
