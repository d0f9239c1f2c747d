//! Clauses from literals, and valuations of a small formula.

use cnf_form::{Clause, Cnf, Lit, Val};
use std::alloc::{AllocError as NoMemory, Global};
use std::process::Abort;
use std::test::Fail;

// A variable, with a minus sign for a negation.
fn literal(number: i32) -> Lit {
    Lit::new(number.unsigned_abs().max(1), number > 0)
}

fn clause(alloc: Global, numbers: &[i32]) -> Result<Option<Clause>, NoMemory> {
    let literals: Vec<Lit> = numbers.iter().map(|n| literal(*n)).collect(alloc)?;
    Clause::from_literals(alloc, &literals)
}

fn is(clause: &Option<Clause>, want: Option<&[i32]>) -> bool {
    match (clause, want) {
        (Some(clause), Some(numbers)) => {
            let literals = clause.literals();
            literals.len() == numbers.len()
                && literals.iter().zip(numbers).all(|(l, n)| *l == literal(*n))
        }
        (None, None) => true,
        _ => false,
    }
}

/// Literals, and those of the clause of them, where they are no tautology.
const CLAUSES: &[(&[i32], Option<&[i32]>)] = &[(&[-2, 1, -2], Some(&[1, -2])), (&[-2, 1, 2], None)];

#[test]
fn clauses_are_sorted_sets(rt: HostRuntime) -> Result<(), Fail> {
    for (numbers, want) in CLAUSES {
        let clause = clause(rt.alloc(), numbers)?;
        assert!(rt; is(&clause, *want), "{numbers:?}");
    }
    Ok(())
}

// Puts a clause behind the others.
fn push(
    rt: &impl Abort,
    alloc: Global,
    formula: &mut Cnf,
    numbers: &[i32],
) -> Result<(), NoMemory> {
    let clause = clause(alloc, numbers)?.expect(rt, "no tautology");
    formula.push(clause.literals())
}

// (1 2)(-2)
fn formula(rt: &impl Abort, alloc: Global) -> Result<Cnf, NoMemory> {
    let mut formula = Cnf::new(alloc);
    push(rt, alloc, &mut formula, &[1, 2])?;
    push(rt, alloc, &mut formula, &[-2])?;
    Ok(formula)
}

// Whether these values, of the variables from 0 on, satisfy a formula.
fn is_satisfied(alloc: Global, formula: &Cnf, values: &[bool]) -> Result<bool, NoMemory> {
    let valuation = Val::new(Vec::from_slice(alloc, values)?);
    Ok(valuation.satisfies(formula))
}

/// Values, and whether they satisfy the formula.
const VALUATIONS: &[(&[bool], bool)] = &[
    (&[false, false, false], false),
    (&[false, true, false], true),
    (&[false, true, true], false),
];

#[test]
fn valuations_satisfy_each_clause(rt: HostRuntime) -> Result<(), Fail> {
    let formula = formula(&rt, rt.alloc())?;
    for (values, want) in VALUATIONS {
        assert_eq!(rt; is_satisfied(rt.alloc(), &formula, values)?, *want);
    }
    Ok(())
}
