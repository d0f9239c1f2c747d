//! The formulas of questions, and what the search makes of them.

use crate::files::{name_of, read_question};
use crate::printing::{write_formula, write_log};
use anyhow::Result;
use bit_blast::{Encoding, encode};
use cdcl_core::{Answer, search};
use cnf_form::{Cnf, Log};
use std::alloc::Global;
use std::io::{BufWriter, Write};
use std::{io, rt};

// The formula of the question in a file.
fn encoding_of<R: rt::Files + Print + AllocGlobal>(rt: &R, file: &str) -> Result<Encoding> {
    let leaf = read_question(rt, file)?;
    Ok(encode(rt.alloc(), &leaf.condition)?)
}

// How many variables and clauses a formula has.
fn print_count(rt: &impl Print, file: &str, formula: &Cnf) -> Result<()> {
    let (variables, clauses) = (formula.variables(), formula.clauses().len());
    println!(rt; "{} {variables} {clauses}", name_of(file))?;
    Ok(())
}

/// How many variables and clauses each question's formula has.
pub fn print_counts<R: rt::Files + Print + AllocGlobal>(rt: &R, files: &[String]) -> Result<()> {
    for file in files {
        print_count(rt, file, encoding_of(rt, file)?.formula())?;
    }
    Ok(())
}

// Prints a formula whole.
fn put_formula<R: Print + AllocGlobal>(rt: &R, formula: &Cnf) -> Result<()> {
    let mut out = BufWriter::new(rt.alloc(), io::writer(rt))?;
    write_formula(&mut out, formula)?;
    out.flush()?;
    Ok(())
}

/// The question's formula.
pub fn print_formula<R: rt::Files + Print + AllocGlobal>(rt: &R, file: &str) -> Result<()> {
    let encoding = encoding_of(rt, file)?;
    put_formula(rt, encoding.formula())
}

// How the search ended, with the bytes that it found.
fn print_answer<R: Print + AllocGlobal>(
    rt: &R,
    name: &str,
    encoding: &Encoding,
    budget: u32,
) -> Result<()> {
    let alloc = rt.alloc();
    match search(alloc, encoding.formula(), budget)? {
        Answer::Found(values) => {
            let bytes = encoding.bytes(alloc, &values)?;
            let digits = hex::encode(alloc, bytes.as_slice())?;
            println!(rt; "{name} found {digits}")?;
        }
        Answer::Refuted(_) => println!(rt; "{name} refuted")?,
        Answer::Spent(_) => println!(rt; "{name} spent")?,
    }
    Ok(())
}

/// How the search for each question ended.
pub fn print_answers<R: rt::Files + Print + AllocGlobal>(
    rt: &R,
    budget: u32,
    files: &[String],
) -> Result<()> {
    for file in files {
        print_answer(rt, name_of(file), &encoding_of(rt, file)?, budget)?;
    }
    Ok(())
}

// The log of the search, or none where it found a valuation.
fn log_of(alloc: Global, formula: &Cnf, budget: u32) -> Result<Option<Log>> {
    match search(alloc, formula, budget)? {
        Answer::Found(_) => Ok(None),
        Answer::Refuted(log) => Ok(Some(log)),
        Answer::Spent(log) => Ok(Some(log)),
    }
}

// Prints a log whole.
fn put_log<R: Print + AllocGlobal>(rt: &R, log: &Log) -> Result<()> {
    let mut out = BufWriter::new(rt.alloc(), io::writer(rt))?;
    write_log(&mut out, log)?;
    out.flush()?;
    Ok(())
}

/// The log of the search, and nothing where there is none.
pub fn print_log<R: rt::Files + Print + AllocGlobal>(
    rt: &R,
    budget: u32,
    file: &str,
) -> Result<()> {
    let encoding = encoding_of(rt, file)?;
    match log_of(rt.alloc(), encoding.formula(), budget)? {
        Some(log) => put_log(rt, &log),
        None => Ok(()),
    }
}
