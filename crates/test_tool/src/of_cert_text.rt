//! Which texts are certificates, and at which line others are refused.

use crate::certificates::THREE_LEAVES;
use cert_form::{Cert, CertLine};
use cert_text::{print_cert, read_cert};
use std::alloc::{AllocError as NoMemory, Global};
use std::test::Fail;

/// Each kind of line.
static EACH_KIND: &str = "rvklee cert 1
regions 00011000:3 7fff0000:1
budgets 10000 16 2000 1
split N Y!conflicts
split =00010028 =00010030!steps R!targets
one =0001002c
one R
tried
; inputs 4
; nodes 2
(set-logic QF_ABV)
(declare-fun b0 () (_ BitVec 8))
(declare-fun base () (Array (_ BitVec 8) (_ BitVec 8)))
(define-fun n0 () (_ BitVec 8) b3)
(define-fun n1 () (_ BitVec 1) (ite (= n0 n0) (_ bv1 1) (_ bv0 1)))
(assert (= n1 (_ bv1 1)))
(check-sat)
(exit)
c -1 2 -300 0 7 12 0
c 0 13 0
v 00010028 00ff0a7e
w 01020304
end 00ff0a7e
cut steps 9abcdef0
cut nodes
";

/// What is put in place of what in the text with three leaves, and the line at which it is then refused.
static CHANGES: [(&str, &str, usize); 18] = [
    ("cert 1", "cert 2", 1),
    ("rvklee", " rvklee", 1),
    ("regions 0", "regions  0", 2),
    ("00011000:1", "00011000:01", 2),
    ("00011000:1", "0001100A:1", 2),
    ("00011000:1", "00011000:4294967296", 2),
    ("budgets 10000", "budgets 010000", 3),
    ("2000 1000000", "2000 4294967296", 3),
    ("2000 1000000", "2000", 3),
    ("2000 1000000", "2000 1000000 1", 3),
    ("one Y", "one X", 5),
    ("one Y", "one YN", 5),
    ("tried", "tries", 6),
    ("end 00", "end 0", 7),
    ("end 00", "end 0g", 7),
    ("end 0a", "end 0A", 10),
    ("end 0a\n", "end 0a", 10),
    ("end 0a\n", "end 0a\n\n", 11),
];

/// The same of the text with each kind of line.
static CHANGES_OF_EACH_KIND: [(&str, &str, usize); 17] = [
    ("Y!conflicts", "Y!conflict", 4),
    ("R!targets", "R!targets ", 5),
    ("=0001002c", "=0001002C", 6),
    ("; inputs 4", "; inputs 4294967296", 9),
    ("; nodes 2", "; nodes 02", 10),
    ("fun b0", "fun b", 12),
    ("fun base", "fun basis", 13),
    ("8) b3)", "8) b3 )", 14),
    ("(ite (= n0 n0)", "(ite (= n0)", 15),
    ("(= n1 (_ bv1 1))", "(= n1 (_ bv1 8))", 16),
    ("c -1 2", "c -1 1", 19),
    ("c -1 2", "c 2 -1", 19),
    ("c -1 2", "c -0 2", 19),
    ("7 12 0", "7 12", 19),
    ("c 0 13 0", "c 0 13 0 1", 20),
    ("v 00010028", "v 0001002", 21),
    ("cut nodes", "cut node", 25),
];

/// The line at which the text is refused.
fn refused_line(alloc: Global, text: &str) -> Result<Option<usize>, NoMemory> {
    let read = read_cert(alloc, text.as_bytes())?;
    Ok(read.err().map(|refused| refused.line))
}

/// The first row for which the text, changed so, is not refused at this line.
fn first_wrong(
    alloc: Global,
    text: &str,
    rows: &[(&str, &str, usize)],
) -> Result<Option<usize>, NoMemory> {
    for i in 0..rows.len() {
        let (old, new, line) = rows[i];
        let changed = text.replace(alloc, old, new)?;
        if refused_line(alloc, &changed)? != Some(line) {
            return Ok(Some(i));
        }
    }
    Ok(None)
}

/// Whether the certificate that the text is has this text.
fn is_written_back(alloc: Global, text: &str) -> Result<bool, NoMemory> {
    match read_cert(alloc, text.as_bytes())? {
        Ok(cert) => {
            let again = print_cert(alloc, &cert)?;
            Ok(again.as_slice() == text.as_bytes())
        }
        Err(_) => Ok(false),
    }
}

/// How many lines of a walk are leaves whose runs end.
fn ends(lines: &[CertLine]) -> usize {
    lines
        .iter()
        .filter(|line| matches!(line, CertLine::End(_)))
        .count()
}

/// How many bytes the regions have, what the steps may be, how many lines there are, and how many of them are leaves whose runs end.
fn counts(cert: &Cert) -> (u32, u32, usize, usize) {
    let count = match cert.regions.as_slice() {
        [region] => region.count,
        _ => 0,
    };
    (
        count,
        cert.budgets.steps,
        cert.lines.len(),
        ends(&cert.lines),
    )
}

#[test]
fn what_was_written_is_read_back(rt: HostRuntime) -> Result<(), Fail> {
    assert!(rt; is_written_back(rt.alloc(), THREE_LEAVES)?);
    assert!(rt; is_written_back(rt.alloc(), EACH_KIND)?);
    Ok(())
}

#[test]
fn a_certificate_has_what_its_lines_say(rt: HostRuntime) -> Result<(), Fail> {
    let read = read_cert(rt.alloc(), THREE_LEAVES.as_bytes())?;
    let said = read.ok().map(|cert| counts(&cert));
    assert_eq!(rt; said, Some((1, 10_000, 7, 3)));
    Ok(())
}

#[test]
fn a_change_is_refused_at_its_line(rt: HostRuntime) -> Result<(), Fail> {
    assert_eq!(rt; first_wrong(rt.alloc(), THREE_LEAVES, &CHANGES)?, None);
    assert_eq!(rt;
        first_wrong(rt.alloc(), EACH_KIND, &CHANGES_OF_EACH_KIND)?,
        None
    );
    Ok(())
}

#[test]
fn a_text_may_end_behind_its_heading_alone(rt: HostRuntime) -> Result<(), Fail> {
    let heading = "rvklee cert 1\nregions\nbudgets 0 1 2 3\n";
    assert_eq!(rt; refused_line(rt.alloc(), "")?, Some(1));
    assert_eq!(rt; refused_line(rt.alloc(), "rvklee cert 1\n")?, Some(2));
    assert_eq!(rt; refused_line(rt.alloc(), heading)?, None);
    Ok(())
}
