//! Reading a certificate.

ghost use Rattle.std.specs.Prelude.{◌≡◌, IfErr, IfOk, Ok};
ghost use Rattle.cert_form.specs.Certificates.{Certificate};
ghost use Rattle.cert_text.specs.Texts.{cert_text};
ghost use Rattle.cert_text.specs.Legible.{IsLegible};
ghost use Rattle.cert_text.specs.Refusals.{IsRefusedAt};
ghost use Rattle.cert_text.specs.Parts.{AreRead, HasHeading, IsRefusedBehind};

use crate::heading::{take_budgets, take_regions};
use crate::walk::take_line;
use cert_form::{Cert, CertLine, Limits};
use elf_load::Regions;
use leaf_reader::behind;
use std::alloc::{AllocError as NoMemory, Global};

/// How many lines the heading has.
const HEADING_LINES: usize = 3;

/// Where a text is no certificate's.
#[derive(Clone, Copy, Debug, PartialEq, Eq)]
pub struct CertRefused {
    /// The first line that may not stand after the lines before it, counted from 1. The end of the text
    /// counts as the line behind the last.
    pub line: usize,
}

/// Reads the heading: the regions, the budgets, and what stands behind them.
fn take_heading(
    alloc: Global,
    text: &[u8],
) -> Result<Result<(Regions, Limits, &[u8]), CertRefused>, NoMemory>
    ensures read { IfOk result (λ read. IfOk read
        (λ heading. HasHeading text.now heading.0 heading.1 heading.2.now)) }
    ensures refused { IfOk result (λ read. IfErr read
        (λ refused. IsRefusedAt text.now refused.line)) }
{
    let Some(rest) = behind(text, "rvklee cert 1\n") else {
        return Ok(Err(CertRefused { line: 1 }));
    };
    let Some((regions, rest)) = take_regions(alloc, rest)? else {
        return Ok(Err(CertRefused { line: 2 }));
    };
    match take_budgets(rest) {
        Some((budgets, rest)) => Ok(Ok((regions, budgets, rest))),
        None => Ok(Err(CertRefused { line: 3 })),
    }
}

/// Reads the lines of the walk up to the end of the text.
fn take_lines(alloc: Global, text: &[u8]) -> Result<Result<Vec<CertLine>, CertRefused>, NoMemory>
    ensures whole { IfOk result (λ read. IfOk read (λ lines. AreRead text.now lines.items)) }
    ensures refused { IfOk result (λ read. IfErr read
        (λ refused. IsRefusedBehind text.now refused.line)) }
{
    let mut lines = Vec::new(alloc);
    let mut rest = text;
    'lines: while !rest.is_empty() {
        let Some((line, more)) = take_line(alloc, rest)? else {
            let line = HEADING_LINES + lines.len() + 1;
            return Ok(Err(CertRefused { line }));
        };
        lines.push(line)?;
        rest = more;
    }
    Ok(Ok(lines))
}

/// Reads the text of a certificate, as `print_cert` writes it, or says where it isn't one. One pass is made over the bytes.
pub fn read_cert(alloc: Global, text: &[u8]) -> Result<Result<Cert, CertRefused>, NoMemory>
    ensures is_its_text { IfOk result (λ read. IfOk read (λ cert. text.now ≡ cert_text cert)) }
    ensures legible { IfOk result (λ read. IfOk read (λ cert. IsLegible cert)) }
    ensures only { (cert : Certificate) → IsLegible cert → text.now ≡ cert_text cert
        → IfOk result (λ read. read ≡ Ok cert) }
    ensures refused { IfOk result (λ read. IfErr read
        (λ refused. IsRefusedAt text.now refused.line)) }
{
    let (regions, budgets, rest) = match take_heading(alloc, text)? {
        Ok(heading) => heading,
        Err(refused) => return Ok(Err(refused)),
    };
    match take_lines(alloc, rest)? {
        Ok(lines) => Ok(Ok(Cert {
            regions,
            budgets,
            lines,
        })),
        Err(refused) => Ok(Err(refused)),
    }
}
