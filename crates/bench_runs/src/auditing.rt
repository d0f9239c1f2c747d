//! Audits: what is said of a certificate of a program. On standard error it is said how long its reading and the audit took.

use crate::files::read_file;
use anyhow::Result;
use cert_audit::{Verdict, audit};
use cert_query::Reason;
use cert_text::read_cert;
use elf_load::{Image, load};
use std::alloc::Global;
use std::rt;
use std::time::{Clock, Instant};

/// The image of the program in a file.
pub fn image_in<R: rt::Files + Print + AllocGlobal>(rt: &R, program: &str) -> Result<Image> {
    let bytes = read_file(rt, program)?;
    Ok(load(rt.alloc(), bytes.as_slice())?)
}

// What is said of the text of a certificate.
fn said_of(alloc: Global, image: Image, text: &[u8]) -> Result<Verdict> {
    match read_cert(alloc, text)? {
        Ok(cert) => Ok(audit(alloc, image, &cert)?),
        Err(refused) => Ok(Verdict::No {
            line: refused.line,
            reason: Reason::Text,
        }),
    }
}

fn print_verdict(rt: &impl Print, verdict: Verdict) -> Result<()> {
    match verdict {
        Verdict::Yes(leaves) => println!(rt;
            "audit yes leaves {} finished {} cut {}",
            leaves.finished.saturating_add(leaves.cut),
            leaves.finished,
            leaves.cut
        )?,
        Verdict::No { line, reason } => print_no(rt, line, reason)?,
    }
    Ok(())
}

/// Prints which line of a certificate may not stand, and why.
pub fn print_no(rt: &impl Print, line: usize, reason: Reason) -> Result<()> {
    println!(rt; "audit no {line} {}", reason.number())?;
    Ok(())
}

/// What is said of the certificate in a file, of the program in another.
pub fn print_audited<R: rt::Files + Print + Eprint + AllocGlobal + Clock>(
    rt: &R,
    program: &str,
    certificate: &str,
) -> Result<()> {
    let image = image_in(rt, program)?;
    let text = read_file(rt, certificate)?;
    let start = Instant::now(rt)?;
    let verdict = said_of(rt.alloc(), image, text.as_slice())?;
    let time = start.elapsed(rt)?;
    eprintln!(rt; "audited in {} microseconds", time.as_micros())?;
    print_verdict(rt, verdict)
}
