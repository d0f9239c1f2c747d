//! What was spent on a question, byte for byte.

use crate::of_smt_text::leaves::make_condition;
use bv_dag::{Comparison, Node};
use cnf_form::{Clause, Lit, Log, LogStep};
use leaf_part::Learnt;
use report_text::write_conflicts;
use std::alloc::{AllocError as NoMemory, Global};
use std::process::Abort;
use std::test::Fail;

/// Whether two bytes are equal, and two clauses that follow from its own.
static TWO_CLAUSES: &str = "; spent conflicts 2
; inputs 2
; nodes 3
(set-logic QF_ABV)
(declare-fun b0 () (_ BitVec 8))
(declare-fun b1 () (_ BitVec 8))
(declare-fun base () (Array (_ BitVec 8) (_ BitVec 8)))
(define-fun n0 () (_ BitVec 8) b0)
(define-fun n1 () (_ BitVec 8) b1)
(define-fun n2 () (_ BitVec 1) (ite (= n0 n1) (_ bv1 1) (_ bv0 1)))
(assert (= n2 (_ bv1 1)))
(check-sat)
(exit)
c -32 0 58 56 0
c 9 -17 0 59 54 0
";

static EQUAL_BYTES: [Node; 3] = [
    Node::Input(0),
    Node::Input(1),
    Node::Compare(Comparison::Eq, 0, 1),
];

/// A clause of these literals, which follows by these clauses.
fn step(
    rt: &impl Abort,
    alloc: Global,
    literals: &[Lit],
    hints: &[usize],
) -> Result<LogStep, NoMemory> {
    let clause = Clause::from_literals(alloc, literals)?.expect(rt, "no tautology");
    Ok(LogStep::new(clause, Vec::from_slice(alloc, hints)?))
}

/// Puts such a clause behind the others.
fn add(
    rt: &impl Abort,
    alloc: Global,
    log: &mut Log,
    literals: &[Lit],
    hints: &[usize],
) -> Result<(), NoMemory> {
    log.push(step(rt, alloc, literals, hints)?)
}

/// The two clauses.
fn two_clauses(rt: &impl Abort, alloc: Global) -> Result<Log, NoMemory> {
    let apart = Lit::new(32, false);
    let (one, other) = (Lit::new(9, true), Lit::new(17, false));
    let mut log = Log::new(alloc);
    add(rt, alloc, &mut log, &[apart], &[58, 56])?;
    add(rt, alloc, &mut log, &[one, other], &[59, 54])?;
    Ok(log)
}

/// The question whether the two bytes are equal, and these clauses.
fn learnt(rt: &impl Abort, alloc: Global) -> Result<Learnt, NoMemory> {
    let log = two_clauses(rt, alloc)?;
    let question = make_condition(rt, alloc, 2, &EQUAL_BYTES, &[2])?;
    Ok(Learnt { question, log })
}

/// Whether it has this text.
fn is_written(alloc: Global, learnt: &Learnt, want: &str) -> Result<bool, NoMemory> {
    let text = write_conflicts(alloc, learnt)?;
    Ok(text.as_slice() == want.as_bytes())
}

#[test]
fn clauses_are_written_behind_their_question(rt: HostRuntime) -> Result<(), Fail> {
    let learnt = learnt(&rt, rt.alloc())?;
    assert!(rt; is_written(rt.alloc(), &learnt, TWO_CLAUSES)?);
    Ok(())
}
