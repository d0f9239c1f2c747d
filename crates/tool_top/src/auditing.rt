//! What an audit of a certificate is to say.

ghost use Rattle.std.specs.Prelude.{◌≡◌, ◌∷◌, [], IfOk, OnErr, Some};
ghost use Rattle.tool_words.specs.Job.{Audit};
ghost use Rattle.tool_top.specs.Auditing.{IsSaidOf, verdict_for};
ghost use Rattle.tool_top.specs.Lines.{audit_line, audit_no, audit_yes};
ghost use Rattle.tool_top.specs.Plan.{IsPlanned, OnlyReads, TreatsCertificate};

use crate::plan::{Plan, refuse, says_only};
use crate::reading::read_both;
use crate::verdict::Verdict;
use cert_audit::{Leaves, Verdict as Judgement, audit};
use cert_query::Reason;
use cert_text::read_cert;
use elf_load::{Image, LoadError, load};
use itoa::Buffer;
use std::alloc::{AllocError as NoMemory, Global};
use tool_io::{Fault, Files};

// The most bytes of a certificate's file that are read: one more than a certificate may have.
pub(crate) const MOST_CERTIFICATE_BYTES: usize = 67_108_865;

// What is said of a certificate that shows these leaves.
fn say_yes(alloc: Global, leaves: Leaves) -> Result<Vec<u8>, NoMemory>
    ensures { IfOk result (λ line. line.items ≡ audit_yes leaves) }
{
    let (mut all, mut finished, mut cut) = (Buffer::new(), Buffer::new(), Buffer::new());
    // A number with room for the sum of any two counts.
    let all = all.format(leaves.finished as u128 + leaves.cut as u128);
    let finished = finished.format(leaves.finished);
    let cut = cut.format(leaves.cut);
    let line = format!(in alloc; "audit yes leaves {all} finished {finished} cut {cut}\n")?;
    Ok(line.into_bytes())
}

// What is said of one that doesn't: its first line at fault, and why.
fn say_no(alloc: Global, at: usize, reason: Reason) -> Result<Vec<u8>, NoMemory>
    ensures { IfOk result (λ line. line.items ≡ audit_no at reason) }
{
    let (mut at_line, mut number) = (Buffer::new(), Buffer::new());
    let at_line = at_line.format(at);
    let number = number.format(reason.number());
    let line = format!(in alloc; "audit no {at_line} {number}\n")?;
    Ok(line.into_bytes())
}

// A judgement is said, and no file is put.
fn says_judgement(alloc: Global, judgement: Judgement) -> Result<Plan, NoMemory>
    ensures verdict { IfOk result (λ p. p.verdict ≡ verdict_for judgement) }
    ensures files { IfOk result (λ p. p.files.items ≡ []) }
    ensures text { IfOk result (λ p. p.text ≡ audit_line judgement) }
{
    match judgement {
        Judgement::Yes(leaves) => {
            let line = say_yes(alloc, leaves)?;
            says_only(alloc, Verdict::Done, line.as_slice())
        }
        Judgement::No { line, reason } => {
            let line = say_no(alloc, line, reason)?;
            says_only(alloc, Verdict::Differs, line.as_slice())
        }
    }
}

// The judgement on a text. One that is too long is at fault before its first line.
fn judge(alloc: Global, image: Image, text: &[u8]) -> Result<Judgement, NoMemory>
    ensures { IfOk result (IsSaidOf image text.now) }
{
    let reason = Reason::Text;
    if text.len() >= MOST_CERTIFICATE_BYTES {
        return Ok(Judgement::No { line: 0, reason });
    }
    match read_cert(alloc, text)? {
        Ok(cert) => audit(alloc, image, &cert),
        Err(refused) => Ok(Judgement::No {
            line: refused.line,
            reason,
        }),
    }
}

// What is to be done for a program's bytes and a certificate's.
fn plan_judged(alloc: Global, bytes: &[u8], text: &[u8]) -> Result<Plan, NoMemory>
    ensures { IfOk result (λ p. TreatsCertificate bytes.now text.now p.verdict p.files.items p.text) }
{
    match load(alloc, bytes) {
        Ok(image) => says_judgement(alloc, judge(alloc, image, text)?),
        Err(LoadError::Refused(why)) => refuse(alloc, why),
        Err(LoadError::NoMemory) => Err(NoMemory),
    }
}

/// Reads the program and then the certificate, and makes the plan of its audit.
pub(crate) fn plan_audit<F: Files>(
    alloc: Global,
    program: &str,
    certificate: &str,
    files: &mut F,
) -> Result<Plan, NoMemory>
    ensures ok { IfOk result (λ p. IsPlanned (F.seen files.old) (F.seen files.new)
        (Some (Audit program.now certificate.now)) p.verdict p.files.items p.text) }
    ensures err { OnErr result (OnlyReads (F.seen files.old) (F.seen files.new)
        (program.now ∷ certificate.now ∷ [])) }
    ensures writes { (F.seen files.new).writes ≡ (F.seen files.old).writes }
{
    match read_both(program, certificate, MOST_CERTIFICATE_BYTES, files) {
        Ok((bytes, text)) => plan_judged(alloc, bytes.as_slice(), text.as_slice()),
        Err(Fault::Failed) => says_only(alloc, Verdict::ReadFault, b"read fault\n"),
        Err(Fault::NoMemory) => Err(NoMemory),
    }
}
