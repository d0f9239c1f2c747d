//! Questions of certificates, and the clauses behind them, written out by hand: which are taken, and at which line others are faults.

use cert_form::{Cert, CertLine};
use cert_query::{Fault, take_question, take_refutation, take_spent_log};
use cert_text::read_cert;
use std::alloc::{AllocError as NoMemory, Global};
use std::test::Fail;

/// What stands before the lines of a walk.
static HEADING: &str = "rvklee cert 1
regions 00011000:2
budgets 10000 16 2000 1000
";

/// Whether two bytes have the sum 5, and the sum 6.
static TWO_SUMS: &str = "; inputs 2
; nodes 7
(set-logic QF_ABV)
(declare-fun b0 () (_ BitVec 8))
(declare-fun b1 () (_ BitVec 8))
(declare-fun base () (Array (_ BitVec 8) (_ BitVec 8)))
(define-fun n0 () (_ BitVec 8) b0)
(define-fun n1 () (_ BitVec 8) b1)
(define-fun n2 () (_ BitVec 8) (bvadd n0 n1))
(define-fun n3 () (_ BitVec 8) (_ bv5 8))
(define-fun n4 () (_ BitVec 1) (ite (= n2 n3) (_ bv1 1) (_ bv0 1)))
(define-fun n5 () (_ BitVec 8) (_ bv6 8))
(define-fun n6 () (_ BitVec 1) (ite (= n2 n5) (_ bv1 1) (_ bv0 1)))
(assert (= n4 (_ bv1 1)))
(assert (= n6 (_ bv1 1)))
(check-sat)
(exit)
";

/// Whether the lowest bits of two bytes are both 1, and that of the first is 0. The variable 1 is true, the first byte has the variables
/// from 2 on, the second those from 10 on, and the gate has 18. Its clauses are, by their numbers: 1. 1, 2. 2 -18, 3. 10 -18, 4. -2 -10
/// 18, and of what is asserted 5. 18 and 6. -2.
static TWO_BITS: &str = "; inputs 2
; nodes 6
(set-logic QF_ABV)
(declare-fun b0 () (_ BitVec 8))
(declare-fun b1 () (_ BitVec 8))
(declare-fun base () (Array (_ BitVec 8) (_ BitVec 8)))
(define-fun n0 () (_ BitVec 8) b0)
(define-fun n1 () (_ BitVec 8) b1)
(define-fun n2 () (_ BitVec 1) ((_ extract 0 0) n0))
(define-fun n3 () (_ BitVec 1) ((_ extract 0 0) n1))
(define-fun n4 () (_ BitVec 1) (bvand n2 n3))
(define-fun n5 () (_ BitVec 1) (bvnot n2))
(assert (= n4 (_ bv1 1)))
(assert (= n5 (_ bv1 1)))
(check-sat)
(exit)
";

/// Whether the lowest bit of one of two bytes is 1.
static ONE_BIT: &str = "; inputs 2
; nodes 2
(set-logic QF_ABV)
(declare-fun b0 () (_ BitVec 8))
(declare-fun b1 () (_ BitVec 8))
(declare-fun base () (Array (_ BitVec 8) (_ BitVec 8)))
(define-fun n0 () (_ BitVec 8) b1)
(define-fun n1 () (_ BitVec 1) ((_ extract 0 0) n0))
(assert (= n1 (_ bv1 1)))
(check-sat)
(exit)
";

/// What is put in place of what in the question of two sums, and how many lines are left at the fault, with the number of its reason.
static CHANGES: [(&str, &str, (usize, u32)); 18] = [
    ("; inputs 2\n", "", (16, 2)),
    ("; nodes 7\n", "", (15, 2)),
    ("(set-logic QF_ABV)\n", "", (14, 2)),
    ("fun b1", "fun b2", (13, 1)),
    ("; inputs 2", "; inputs 3", (12, 2)),
    ("; inputs 2", "; inputs 1", (13, 2)),
    ("; nodes 7", "; nodes 8", (4, 1)),
    ("; nodes 7", "; nodes 6", (5, 1)),
    ("fun n2", "fun n3", (9, 1)),
    ("n4 () (_ BitVec 1)", "n4 () (_ BitVec 2)", (7, 1)),
    ("(bvadd n0 n1)", "(bvadd n0 n2)", (9, 1)),
    ("(ite (= n2 n5)", "(ite (= n4 n5)", (5, 1)),
    ("(_ BitVec 8) b1", "(_ BitVec 8) b2", (10, 1)),
    ("(assert (= n4", "(assert (= n2", (4, 1)),
    ("(assert (= n4", "(assert (= n7", (4, 1)),
    ("(check-sat)\n", "", (1, 2)),
    ("(exit)\n", "", (0, 2)),
    ("(exit)\n", "tried\n", (1, 2)),
];

/// Clauses behind the question of two bits, and what becomes of them where they are to refute it.
static REFUTATIONS: [(&str, Outcome); 8] = [
    ("c 0 5 2 6 0\n", Outcome::Taken(0)),
    ("c 2 0 5 2 0\nc 0 7 6 0\ntried\n", Outcome::Taken(1)),
    ("c 0 5 2 0\n", Outcome::Fault(1, 4)),
    ("c 2 0 5 2 0\nc 0 7 8 0\ntried\n", Outcome::Fault(2, 4)),
    ("c 0 5 2 6 0\nc 2 0 5 2 0\ntried\n", Outcome::Fault(1, 4)),
    ("c 2 0 5 2 0\n", Outcome::Fault(0, 4)),
    ("tried\n", Outcome::Fault(1, 4)),
    ("", Outcome::Fault(0, 4)),
];

/// The same where they are to be those on which this budget was spent.
static SPENT_LOGS: [(&str, u32, Outcome); 10] = [
    ("c 2 0 5 2 0\n", 1, Outcome::Taken(0)),
    ("c 2 0 5 2 0\nc 10 0 5 3 0\ntried\n", 2, Outcome::Taken(1)),
    ("", 0, Outcome::Taken(0)),
    ("c 2 0 5 2 0\nc 10 0 5 3 0\n", 1, Outcome::Fault(1, 4)),
    ("c 2 0 5 2 0\ntried\n", 2, Outcome::Fault(1, 4)),
    ("c 2 0 5 2 0\n", 2, Outcome::Fault(0, 4)),
    ("c 2 0 5 3 0\n", 1, Outcome::Fault(1, 4)),
    // It isn't new.
    ("c 18 0 5 0\n", 1, Outcome::Fault(1, 4)),
    // It has a variable that occurs nowhere.
    ("c 2 3 0 5 2 0\n", 1, Outcome::Fault(1, 4)),
    // It is empty.
    ("c 0 5 2 6 0\n", 1, Outcome::Fault(1, 4)),
];

/// What becomes of lines.
#[derive(Clone, Copy, Debug, PartialEq, Eq)]
enum Outcome {
    /// They are taken, and so many are left behind them.
    Taken(usize),
    /// So many are left from the one at fault on, and this is the number of the reason.
    Fault(usize, u32),
    /// They are no walk's.
    Refused,
}

fn at_fault(fault: Fault) -> Outcome {
    Outcome::Fault(fault.left, fault.reason.number())
}

/// The certificate whose walk has the lines of these texts, the one behind the other.
fn cert_of(alloc: Global, first: &str, second: &str) -> Result<Option<Cert>, NoMemory> {
    let text = format!(in alloc; "{HEADING}{first}{second}")?;
    let read = read_cert(alloc, text.as_bytes())?;
    Ok(read.ok())
}

fn of_question(alloc: Global, lines: &[CertLine]) -> Result<Outcome, NoMemory> {
    match take_question(alloc, lines)? {
        Ok(question) => Ok(Outcome::Taken(question.rest.len())),
        Err(fault) => Ok(at_fault(fault)),
    }
}

fn of_refutation(alloc: Global, lines: &[CertLine]) -> Result<Outcome, NoMemory> {
    let question = match take_question(alloc, lines)? {
        Ok(question) => question,
        Err(fault) => return Ok(at_fault(fault)),
    };
    match take_refutation(alloc, &question.query, question.rest)? {
        Ok(rest) => Ok(Outcome::Taken(rest.len())),
        Err(fault) => Ok(at_fault(fault)),
    }
}

fn of_spent_log(alloc: Global, budget: u32, lines: &[CertLine]) -> Result<Outcome, NoMemory> {
    let question = match take_question(alloc, lines)? {
        Ok(question) => question,
        Err(fault) => return Ok(at_fault(fault)),
    };
    match take_spent_log(alloc, &question.query, budget, question.rest)? {
        Ok(spent) => Ok(Outcome::Taken(spent.rest.len())),
        Err(fault) => Ok(at_fault(fault)),
    }
}

/// What becomes of a question that is changed so.
fn of_change(alloc: Global, old: &str, new: &str) -> Result<Outcome, NoMemory> {
    let changed = TWO_SUMS.replace(alloc, old, new)?;
    match cert_of(alloc, &changed, "")? {
        Some(cert) => of_question(alloc, &cert.lines),
        None => Ok(Outcome::Refused),
    }
}

/// What becomes of clauses that are to refute the question.
fn of_clauses(alloc: Global, question: &str, clauses: &str) -> Result<Outcome, NoMemory> {
    match cert_of(alloc, question, clauses)? {
        Some(cert) => of_refutation(alloc, &cert.lines),
        None => Ok(Outcome::Refused),
    }
}

/// What becomes of clauses on which the budget is to be spent.
fn of_budget(
    alloc: Global,
    question: &str,
    clauses: &str,
    budget: u32,
) -> Result<Outcome, NoMemory> {
    match cert_of(alloc, question, clauses)? {
        Some(cert) => of_spent_log(alloc, budget, &cert.lines),
        None => Ok(Outcome::Refused),
    }
}

/// How many inputs and terms the question of the lines has, and the numbers of the terms that it asserts, where there are two.
fn said(
    alloc: Global,
    lines: &[CertLine],
) -> Result<Option<(usize, usize, usize, usize)>, NoMemory> {
    match take_question(alloc, lines)? {
        Ok(question) => {
            let query = &question.query;
            match query.asserted() {
                [first, second] => Ok(Some((query.inputs(), query.dag().len(), *first, *second))),
                _ => Ok(None),
            }
        }
        Err(_) => Ok(None),
    }
}

#[test]
fn a_question_is_what_its_lines_say(rt: HostRuntime) -> Result<(), Fail> {
    let cert = cert_of(rt.alloc(), TWO_SUMS, "tried\n")?.ok_or("a certificate")?;
    assert_eq!(rt; said(rt.alloc(), &cert.lines)?, Some((2, 7, 4, 6)));
    assert_eq!(rt; of_question(rt.alloc(), &cert.lines)?, Outcome::Taken(1));
    Ok(())
}

#[test]
fn a_changed_question_is_at_fault_at_its_line(rt: HostRuntime) -> Result<(), Fail> {
    for (old, new, (left, reason)) in CHANGES {
        assert_eq!(rt;
            of_change(rt.alloc(), old, new)?,
            Outcome::Fault(left, reason)
        );
    }
    Ok(())
}

#[test]
fn clauses_refute_a_question_or_are_at_fault(rt: HostRuntime) -> Result<(), Fail> {
    for (clauses, outcome) in REFUTATIONS {
        assert_eq!(rt; of_clauses(rt.alloc(), TWO_BITS, clauses)?, outcome);
    }
    Ok(())
}

#[test]
fn clauses_are_learnt_or_are_at_fault(rt: HostRuntime) -> Result<(), Fail> {
    for (clauses, budget, outcome) in SPENT_LOGS {
        assert_eq!(rt; of_budget(rt.alloc(), TWO_BITS, clauses, budget)?, outcome);
    }
    Ok(())
}

#[test]
fn no_budget_is_spent_on_a_question_on_one_byte(rt: HostRuntime) -> Result<(), Fail> {
    let outcome = of_budget(rt.alloc(), ONE_BIT, "c 2 0 2 0\n", 1)?;
    assert_eq!(rt; outcome, Outcome::Fault(1, 3));
    Ok(())
}
