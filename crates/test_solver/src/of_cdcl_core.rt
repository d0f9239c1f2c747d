//! Small formulas with known answers, each answer checked by the checker.

mod queue;

use cdcl_core::{Answer, search};
use cnf_form::{Clause, Cnf, Lit};
use proof_check::{check, ends_empty, fresh};
use std::alloc::{AllocError as NoMemory, Global};
use std::process::Abort;
use std::test::Fail;
use watched_search::{Proposal, propose};

/// What an answer is to be.
#[derive(Clone, Copy, Debug, PartialEq, Eq)]
enum Kind {
    Found,
    Refuted,
    Spent,
}

// A literal as DIMACS writes it: a variable, or less than 0 for its negation.
fn literal(rt: &impl Abort, number: i32) -> Lit {
    let variable = number.unsigned_abs();
    assert!(rt; variable > 0);
    Lit::new(variable, number > 0)
}

fn clause(rt: &impl Abort, alloc: Global, numbers: &[i32]) -> Result<Clause, NoMemory> {
    let mut literals = Vec::new(alloc);
    for number in numbers {
        literals.push(literal(rt, *number))?;
    }
    Ok(Clause::from_literals(alloc, &literals)?.expect(rt, "no tautology"))
}

// Puts the clause of these numbers behind the others.
fn push(
    rt: &impl Abort,
    alloc: Global,
    formula: &mut Cnf,
    numbers: &[i32],
) -> Result<(), NoMemory> {
    let clause = clause(rt, alloc, numbers)?;
    formula.push(clause.literals())
}

// What an answer is, where it shows what it says.
fn shown(
    alloc: Global,
    formula: &Cnf,
    budget: usize,
    answer: &Answer,
) -> Result<Option<Kind>, NoMemory> {
    let (shows, kind) = match answer {
        Answer::Found(valuation) => (valuation.satisfies(formula), Kind::Found),
        Answer::Refuted(log) => (
            check(alloc, formula, log)? && ends_empty(log) && log.steps().len() <= budget,
            Kind::Refuted,
        ),
        Answer::Spent(log) => (
            check(alloc, formula, log)?
                && fresh(alloc, formula, log)?
                && log.steps().len() == budget,
            Kind::Spent,
        ),
    };
    Ok(if shows { Some(kind) } else { None })
}

// Searches, has the answer checked, and says what it is.
fn answered(alloc: Global, formula: &Cnf, budget: u32) -> Result<Option<Kind>, NoMemory> {
    let answer = search(alloc, formula, budget)?;
    shown(alloc, formula, budget as usize, &answer)
}

fn formula(rt: &impl Abort, alloc: Global, clauses: &[&[i32]]) -> Result<Cnf, NoMemory> {
    let mut formula = Cnf::new(alloc);
    for numbers in clauses {
        push(rt, alloc, &mut formula, numbers)?;
    }
    Ok(formula)
}

// Three pigeons, two holes: the variable 2 p + h - 2 says that the pigeon p sits in the hole h.
const PIGEONS: &[&[i32]] = &[
    &[1, 2],
    &[3, 4],
    &[5, 6],
    &[-1, -3],
    &[-1, -5],
    &[-3, -5],
    &[-2, -4],
    &[-2, -6],
    &[-4, -6],
];

// A cycle of five corners in three colours: the variable 3 k + c says that the corner k, from 0, has the colour c.
const CYCLE: &[&[i32]] = &[
    &[1, 2, 3],
    &[4, 5, 6],
    &[7, 8, 9],
    &[10, 11, 12],
    &[13, 14, 15],
    &[-1, -4],
    &[-2, -5],
    &[-3, -6],
    &[-4, -7],
    &[-5, -8],
    &[-6, -9],
    &[-7, -10],
    &[-8, -11],
    &[-9, -12],
    &[-10, -13],
    &[-11, -14],
    &[-12, -15],
    &[-13, -1],
    &[-14, -2],
    &[-15, -3],
];

const EMPTY_CLAUSE: &[&[i32]] = &[&[1], &[]];

// Every clause over two variables, beside eight pairs that have nothing to do with them: two clauses of one literal or none
// are enough where the choices among the pairs are left out of what is learnt.
const WITH_PAIRS: &[&[i32]] = &[
    &[1, 2],
    &[1, -2],
    &[-1, 2],
    &[-1, -2],
    &[3, 4],
    &[5, 6],
    &[7, 8],
    &[9, 10],
    &[11, 12],
    &[13, 14],
    &[15, 16],
    &[17, 18],
];

/// Clauses, how many may be learnt, and what the answer is to be.
type Row = (&'static [&'static [i32]], u32, Kind);

const ROWS: &[Row] = &[
    (PIGEONS, 100, Kind::Refuted),
    (PIGEONS, 1, Kind::Spent),
    (PIGEONS, 0, Kind::Spent),
    (&[], 0, Kind::Found),
    (EMPTY_CLAUSE, 1, Kind::Refuted),
    (EMPTY_CLAUSE, 0, Kind::Spent),
    (&[&[1], &[-1, 2], &[-2, -3]], 0, Kind::Found),
    (CYCLE, 1000, Kind::Found),
    (WITH_PAIRS, 2, Kind::Refuted),
];

// What is answered to these clauses.
fn answered_to(
    rt: &impl Abort,
    alloc: Global,
    clauses: &[&[i32]],
    budget: u32,
) -> Result<Option<Kind>, NoMemory> {
    let formula = formula(rt, alloc, clauses)?;
    answered(alloc, &formula, budget)
}

#[test]
fn small_formulas(rt: HostRuntime) -> Result<(), Fail> {
    for (at, (clauses, budget, kind)) in ROWS.iter().enumerate() {
        let answer = answered_to(&rt, rt.alloc(), clauses, *budget)?;
        assert_eq!(rt; answer, Some(*kind), "row {at}");
    }
    Ok(())
}

// What the fast search proposes, where it shows what it says. No contract speaks of it: were it wrong, the proved search would
// answer in its place, as truly and more slowly.
fn proposed(alloc: Global, formula: &Cnf, budget: u32) -> Result<Option<Kind>, NoMemory> {
    let answer = match propose(alloc, formula, budget)? {
        Some(Proposal::Found(valuation)) => Answer::Found(valuation),
        Some(Proposal::Refuted(log)) => Answer::Refuted(log),
        Some(Proposal::Spent(log)) => Answer::Spent(log),
        None => return Ok(None),
    };
    shown(alloc, formula, budget as usize, &answer)
}

#[test]
fn proposals_stand_the_check(rt: HostRuntime) -> Result<(), Fail> {
    for (at, (clauses, budget, kind)) in ROWS.iter().enumerate() {
        let formula = formula(&rt, rt.alloc(), clauses)?;
        let answer = proposed(rt.alloc(), &formula, *budget)?;
        assert_eq!(rt; answer, Some(*kind), "row {at}");
    }
    Ok(())
}
