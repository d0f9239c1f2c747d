//! Runs of parts of the tool for the benches: what the solver makes of questions, and what an exploration comes to. A question is
//! the condition of a leaf, and is read from the leaf's text.
//!
//! - `words`: the words of the command line
//! - `files`: what is read
//! - `searching`: the formulas of questions, and what the search makes of them
//! - `printing`: formulas and logs as text
//! - `auditing`: certificates
//! - `completing`: certificates that lack lines
//! - `trimming`: logs without the clauses that aren't needed
//! - `asking`: questions that are asked term by term
//! - `exploring`: explorations, without their reports
//! - `limits`: the words of an exploration
//! - `ends`: how the leaves of an exploration end
#![tactic(auto)]

mod asking;
mod auditing;
mod completing;
mod ends;
mod exploring;
mod files;
mod limits;
mod printing;
mod searching;
mod trimming;
mod words;

use crate::asking::print_asked;
use crate::auditing::print_audited;
use crate::completing::print_completed;
use crate::exploring::print_explored;
use crate::searching::{print_answers, print_counts, print_formula, print_log};
use crate::words::{Job, read_job};
use anyhow::{Result, bail};
use std::rt::Env;
use std::{env, io};

const USAGE: &str =
    "clauses FILE.. | formula FILE | search BUDGET FILE.. | log BUDGET FILE | ask BUDGET ROUNDS FILE.. | \
explore PROGRAM ADDRESS:COUNT STEPS TARGETS CONFLICTS WORKERS | audit PROGRAM CERTIFICATE | complete BUDGET PROGRAM CERTIFICATE";

// The words behind the name of the program.
fn gather<R: Env + AllocGlobal>(rt: &R) -> io::Result<Vec<String>> {
    let mut words = Vec::new(rt.alloc());
    for word in env::args(rt)?.skip(1) {
        words.push(word)?;
    }
    Ok(words)
}

fn main(rt: HostRuntime) -> Result<()> {
    let words = gather(&rt)?;
    match read_job(&words) {
        Some(Job::Clauses(files)) => print_counts(&rt, files),
        Some(Job::Formula(file)) => print_formula(&rt, file),
        Some(Job::Search(budget, files)) => print_answers(&rt, budget, files),
        Some(Job::Log(budget, file)) => print_log(&rt, budget, file),
        Some(Job::Ask(budget, rounds, files)) => print_asked(&rt, budget, rounds, files),
        Some(Job::Explore(words)) => print_explored(&rt, words),
        Some(Job::Audit(program, certificate)) => print_audited(&rt, program, certificate),
        Some(Job::Complete(budget, program, certificate)) => {
            print_completed(&rt, budget, program, certificate)
        }
        None => bail!("the words are one of: {USAGE}"),
    }
}
