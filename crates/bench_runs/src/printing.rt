//! Formulas and logs as text.

use cnf_form::{Cnf, Lit, Log, LogStep};
use std::io;
use std::io::Write;

// A literal as solvers' formats have it: its variable, with a minus sign for a negation.
fn signed(literal: Lit) -> i64 {
    let variable = i64::from(literal.variable());
    if literal.is_positive() {
        variable
    } else {
        0 - variable
    }
}

fn write_literals(out: &mut impl Write, literals: &[Lit]) -> io::Result<()> {
    for literal in literals {
        write!(out, "{} ", signed(*literal))?;
    }
    write!(out, "0")
}

/// Writes a formula in the DIMACS format.
pub fn write_formula(out: &mut impl Write, formula: &Cnf) -> io::Result<()> {
    let clauses = formula.clauses();
    writeln!(out, "p cnf {} {}", formula.variables(), clauses.len())?;
    for place in 0..clauses.len() {
        write_literals(out, clauses.at(place))?;
        writeln!(out)?;
    }
    Ok(())
}

// A line: its clause, and the numbers of its hints.
fn write_step(out: &mut impl Write, step: &LogStep) -> io::Result<()> {
    write!(out, "c ")?;
    write_literals(out, step.clause().literals())?;
    for hint in step.hints() {
        write!(out, " {hint}")?;
    }
    writeln!(out, " 0")
}

/// Writes a log, a line for each step.
pub fn write_log(out: &mut impl Write, log: &Log) -> io::Result<()> {
    for step in log.steps() {
        write_step(out, step)?;
    }
    Ok(())
}
