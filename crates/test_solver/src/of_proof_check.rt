//! A refutation made by hand, logs that are none, and clauses that are fresh or not.

use cnf_form::{Clause, Cnf, Lit, Log, LogStep};
use proof_check::{Checker, check, ends_empty, fresh};
use std::alloc::{AllocError as NoMemory, Global};
use std::process::Abort;
use std::test::Fail;

// The variables 1 to 3, with a minus sign for a negation.
fn literal(number: i32) -> Lit {
    Lit::new(number.unsigned_abs().max(1), number > 0)
}

fn clause(rt: &impl Abort, alloc: Global, numbers: &[i32]) -> Result<Clause, NoMemory> {
    let literals: Vec<Lit> = numbers.iter().map(|n| literal(*n)).collect(alloc)?;
    Ok(Clause::from_literals(alloc, &literals)?.expect(rt, "no tautology"))
}

// Puts a clause behind the others.
fn push(
    rt: &impl Abort,
    alloc: Global,
    formula: &mut Cnf,
    numbers: &[i32],
) -> Result<(), NoMemory> {
    let clause = clause(rt, alloc, numbers)?;
    formula.push(clause.literals())
}

// (1)(-1 2)(-2)
fn formula(rt: &impl Abort, alloc: Global) -> Result<Cnf, NoMemory> {
    let mut formula = Cnf::new(alloc);
    push(rt, alloc, &mut formula, &[1])?;
    push(rt, alloc, &mut formula, &[2, -1])?;
    push(rt, alloc, &mut formula, &[-2])?;
    Ok(formula)
}

/// A clause with its hints.
type Line = (&'static [i32], &'static [usize]);

fn step(rt: &impl Abort, alloc: Global, line: &Line) -> Result<LogStep, NoMemory> {
    let clause = clause(rt, alloc, line.0)?;
    Ok(LogStep::new(clause, Vec::from_slice(alloc, line.1)?))
}

// Puts a line behind the others.
fn note(rt: &impl Abort, alloc: Global, log: &mut Log, line: &Line) -> Result<(), NoMemory> {
    log.push(step(rt, alloc, line)?)
}

fn log_of(rt: &impl Abort, alloc: Global, lines: &[Line]) -> Result<Log, NoMemory> {
    let mut log = Log::new(alloc);
    for line in lines {
        note(rt, alloc, &mut log, line)?;
    }
    Ok(log)
}

const REFUTATION: &[Line] = &[(&[2], &[1, 2]), (&[], &[4, 3])];

/// Logs, and whether each step follows.
const FOLLOWING: &[(&[Line], bool)] = &[
    (REFUTATION, true),
    (&[(&[], &[1, 2, 3])], true),
    (&[(&[], &[1, 2])], false),
    (&[(&[], &[1, 2, 4])], false),
    (&[(&[], &[2, 1, 3])], false),
    (&[(&[], &[0])], false),
    (&[(&[], &[])], false),
    // Of a later clause.
    (&[(&[], &[5, 3]), (&[2], &[1, 2])], false),
];

/// Logs, and whether no clause has all literals of an earlier one.
const FRESH: &[(&[Line], bool)] = &[
    (REFUTATION, true),
    // Of the formula, and of the log.
    (&[(&[2], &[1, 2]), (&[3, 1], &[1])], false),
    (&[(&[2], &[1, 2]), (&[2, 3], &[4])], false),
];

/// Logs, and whether they end in the empty clause.
const ENDED: &[(&[Line], bool)] = &[
    (REFUTATION, true),
    (&[(&[], &[5, 3]), (&[2], &[1, 2])], false),
];

fn is_checked(
    rt: &impl Abort,
    alloc: Global,
    formula: &Cnf,
    lines: &[Line],
) -> Result<bool, NoMemory> {
    let log = log_of(rt, alloc, lines)?;
    check(alloc, formula, &log)
}

#[test]
fn steps_follow_by_their_hints(rt: HostRuntime) -> Result<(), Fail> {
    let formula = formula(&rt, rt.alloc())?;
    for (at, (lines, want)) in FOLLOWING.iter().enumerate() {
        assert_eq!(rt;
            is_checked(&rt, rt.alloc(), &formula, lines)?,
            *want,
            "row {at}"
        );
    }
    Ok(())
}

fn is_fresh(
    rt: &impl Abort,
    alloc: Global,
    formula: &Cnf,
    lines: &[Line],
) -> Result<bool, NoMemory> {
    let log = log_of(rt, alloc, lines)?;
    fresh(alloc, formula, &log)
}

#[test]
fn supersets_are_not_fresh(rt: HostRuntime) -> Result<(), Fail> {
    let formula = formula(&rt, rt.alloc())?;
    for (at, (lines, want)) in FRESH.iter().enumerate() {
        assert_eq!(rt;
            is_fresh(&rt, rt.alloc(), &formula, lines)?,
            *want,
            "row {at}"
        );
    }
    Ok(())
}

#[test]
fn a_refutation_ends_in_the_empty_clause(rt: HostRuntime) -> Result<(), Fail> {
    for (at, (lines, want)) in ENDED.iter().enumerate() {
        let log = log_of(&rt, rt.alloc(), lines)?;
        assert_eq!(rt; ends_empty(&log), *want, "row {at}");
    }
    Ok(())
}

/// Steps, and whether they may come next to the formula.
const FIRST: &[(Line, bool)] = &[
    ((&[2], &[1, 2]), true),
    ((&[2], &[1]), false),
    ((&[1], &[1]), false),
];

/// The same with (2) behind it.
const SECOND: &[(Line, bool)] = &[((&[2], &[1, 2]), false), ((&[], &[4, 3]), true)];

// Whether a step may come next.
fn may_come(
    rt: &impl Abort,
    alloc: Global,
    checker: &mut Checker,
    line: &Line,
) -> Result<bool, NoMemory> {
    let next = step(rt, alloc, line)?;
    checker.may_come_next(&next)
}

fn note_next(
    rt: &impl Abort,
    alloc: Global,
    checker: &mut Checker,
    numbers: &[i32],
) -> Result<(), NoMemory> {
    let next = clause(rt, alloc, numbers)?;
    checker.note(next.literals())
}

fn is_new(
    rt: &impl Abort,
    alloc: Global,
    checker: &mut Checker,
    numbers: &[i32],
) -> Result<bool, NoMemory> {
    let next = clause(rt, alloc, numbers)?;
    checker.is_new(&next)
}

// Whether each step may come next just where its row says so.
fn are_so(
    rt: &impl Abort,
    alloc: Global,
    checker: &mut Checker,
    rows: &[(Line, bool)],
) -> Result<bool, NoMemory> {
    for (line, want) in rows {
        if may_come(rt, alloc, checker, line)? != *want {
            return Ok(false);
        }
    }
    Ok(true)
}

// What may come next to the formula, and to the clauses that refute it.
fn check_steps(rt: &impl Abort, alloc: Global, checker: &mut Checker) -> Result<(), NoMemory> {
    assert!(rt; are_so(rt, alloc, checker, FIRST)?);
    note_next(rt, alloc, checker, &[2])?;
    assert!(rt; are_so(rt, alloc, checker, SECOND)?);
    note_next(rt, alloc, checker, &[])?;
    assert!(rt; !is_new(rt, alloc, checker, &[2])?);
    Ok(())
}

#[test]
fn steps_that_may_come_next(rt: HostRuntime) -> Result<(), Fail> {
    let formula = formula(&rt, rt.alloc())?;
    let mut checker = Checker::new(rt.alloc(), &formula)?;
    check_steps(&rt, rt.alloc(), &mut checker)?;
    assert_eq!(rt; checker.clauses().len(), 5);
    Ok(())
}
