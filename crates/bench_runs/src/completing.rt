//! Certificates that lack lines: the whole of one, or the question for which no clauses were found.

use crate::auditing::{image_in, print_no};
use crate::files::read_file;
use crate::trimming::trimmed;
use anyhow::{Result, bail};
use bit_blast::encode;
use bv_dag::Query;
use cdcl_core::{Answer, search};
use cert_audit::line_at;
use cert_complete::{Completed, Put, Solved, Solver, Unrefuted, complete};
use cert_form::{Cert, CertLine};
use cert_query::{Reason, push_question};
use cert_text::{print_cert, print_lines, read_cert};
use elf_load::Image;
use std::alloc::{AllocError as NoMemory, Global};
use std::io::{BufWriter, Write};
use std::{io, mem, rt};

/// A search that may learn so many clauses.
#[derive(Clone, Copy, Debug)]
struct Search {
    budget: u32,
}

impl Solver for Search {
    fn solve(&self, alloc: Global, question: &Query) -> Result<Solved, NoMemory> {
        let encoding = encode(alloc, question)?;
        let formula = encoding.formula();
        match search(alloc, formula, self.budget)? {
            Answer::Found(values) => Ok(Solved::Found(encoding.bytes(alloc, &values)?)),
            Answer::Refuted(log) => Ok(Solved::Refuted(trimmed(
                alloc,
                formula.clauses().len(),
                &log,
            )?)),
            Answer::Spent(_) => Ok(Solved::Open),
        }
    }
}

// Moves lines, the last first, until so many are left.
fn move_until(
    lines: &mut Vec<CertLine>,
    old: &mut Vec<CertLine>,
    left: usize,
) -> Result<(), NoMemory> {
    for _ in left..old.len() {
        if let Some(line) = old.pop() {
            lines.push(line)?;
        }
    }
    Ok(())
}

// Moves lines on up to where lines lack, and puts these.
fn put_on(lines: &mut Vec<CertLine>, old: &mut Vec<CertLine>, put: Put) -> Result<(), NoMemory> {
    match put {
        Put::Fork {
            left,
            taken,
            lines: mut new,
        } => {
            move_until(lines, old, left)?;
            old.truncate(old.len().saturating_sub(taken));
            new.reverse();
            move_until(lines, &mut new, 0)?;
        }
        Put::Witness { left, input } => {
            move_until(lines, old, left)?;
            lines.push(CertLine::Witness(input))?;
        }
    }
    Ok(())
}

// Puts the lines into a certificate that it lacked.
fn put_all(alloc: Global, cert: &mut Cert, puts: Vec<Put>) -> Result<(), NoMemory> {
    let mut old = mem::replace(&mut cert.lines, Vec::new(alloc));
    old.reverse();
    for put in puts {
        put_on(&mut cert.lines, &mut old, put)?;
    }
    move_until(&mut cert.lines, &mut old, 0)
}

// Prints a text whole.
fn put_text<R: Print + AllocGlobal>(rt: &R, text: &[u8]) -> Result<()> {
    let mut out = BufWriter::new(rt.alloc(), io::writer(rt))?;
    out.write_all(text)?;
    out.flush()?;
    Ok(())
}

// The lines that are to stand before the clauses that refute a question.
fn unrefuted_lines(alloc: Global, line: CertLine, question: &Query) -> Result<Vec<CertLine>> {
    if question.inputs() > u32::MAX as usize {
        bail!("a question has too many inputs");
    }
    let mut lines = vec![in alloc; line]?;
    push_question(alloc, &mut lines, question)?;
    Ok(lines)
}

// Prints where lines are to stand, in the place of how many, and the lines.
fn print_unrefuted<R: Print + AllocGlobal>(
    rt: &R,
    walk: &[CertLine],
    open: Unrefuted,
) -> Result<()> {
    let Unrefuted {
        left,
        taken,
        line,
        question,
    } = open;
    println!(rt; "lacking {} {taken}", line_at(walk, left))?;
    let lines = unrefuted_lines(rt.alloc(), line, &question)?;
    put_text(rt, print_lines(rt.alloc(), &lines)?.as_slice())
}

// Prints what came of completing a certificate.
fn print_result<R: Print + AllocGlobal>(
    rt: &R,
    image: Image,
    mut cert: Cert,
    search: Search,
) -> Result<()> {
    let alloc = rt.alloc();
    match complete(alloc, image, &cert, &search)? {
        Completed::Puts(puts) => {
            put_all(alloc, &mut cert, puts)?;
            put_text(rt, print_cert(alloc, &cert)?.as_slice())
        }
        Completed::Open(open) => print_unrefuted(rt, &cert.lines, open),
        Completed::Fault(fault) => print_no(rt, line_at(&cert.lines, fault.left), fault.reason),
        Completed::Heading => bail!("the regions or the budgets may not stand"),
    }
}

/// Prints the certificate in a file whole, with the lines that it lacks; or the line and the question for which no clauses were found.
pub fn print_completed<R: rt::Files + Print + AllocGlobal>(
    rt: &R,
    budget: u32,
    program: &str,
    certificate: &str,
) -> Result<()> {
    let image = image_in(rt, program)?;
    let text = read_file(rt, certificate)?;
    match read_cert(rt.alloc(), text.as_slice())? {
        Ok(cert) => print_result(rt, image, cert, Search { budget }),
        Err(refused) => print_no(rt, refused.line, Reason::Text),
    }
}
