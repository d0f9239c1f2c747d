//! Which texts are read, and at which line others are refused.

use crate::of_smt_text::leaves::{CUT, FINISHED};
use fork_spec::LeafEnd;
use leaf_reader::read_leaf;
use smt_text::print_leaf;
use std::alloc::{AllocError as NoMemory, Global};
use std::test::Fail;
use tree_core::Cause;

/// The example of docs/FORMATS.md.
static EXAMPLE: &str = "; rvklee leaf 1
; kind finished
; choices Y.
; path T.
; steps 7
; end exit
; inputs 1
; nodes 5
; outputs 0
(set-logic QF_ABV)
(declare-fun b0 () (_ BitVec 8))
(declare-fun base () (Array (_ BitVec 8) (_ BitVec 8)))
(define-fun n0 () (_ BitVec 8) b0)
(define-fun n1 () (_ BitVec 32) ((_ zero_extend 24) n0))
(define-fun n2 () (_ BitVec 32) (_ bv65 32))
(define-fun n3 () (_ BitVec 1) (ite (= n1 n2) (_ bv1 1) (_ bv0 1)))
(define-fun n4 () (_ BitVec 8) (_ bv1 8))
(define-fun status () (_ BitVec 8) n4)
(assert (= n3 (_ bv1 1)))
(check-sat)
(exit)
";

/// A leaf that was cut for want of nodes: the root of a tree that may have one.
static WITHOUT_NODES: &str = "; rvklee leaf 1
; kind nodes
; choices .
; path .
; steps 4
; end running
; inputs 1
; nodes 0
; outputs 0
(set-logic QF_ABV)
(declare-fun b0 () (_ BitVec 8))
(declare-fun base () (Array (_ BitVec 8) (_ BitVec 8)))
(check-sat)
(exit)
";

/// What is put in place of what in its text, and the line at which it is then refused.
static CHANGES_OF_A_CUT: [(&str, &str, usize); 3] = [
    ("kind nodes", "kind node", 2),
    ("kind nodes", "kind nodes 1", 2),
    ("end running", "end exit", 6),
];

/// What is put in place of what in the text of a leaf, and the line at which it is then refused.
static CHANGES: [(&str, &str, usize); 31] = [
    ("leaf 1", "leaf 2", 1),
    ("; rvklee", ";rvklee", 1),
    ("finished", "cut", 2),
    ("choices Y", "choices X", 3),
    ("choices Y.", "choices Y", 3),
    ("path T", "path T@0001002A", 4),
    ("path T", "path T@0001002", 4),
    ("steps 7", "steps 07", 5),
    ("steps 7", "steps +7", 5),
    ("steps 7", "steps ", 5),
    ("steps 7", "steps 4294967296", 5),
    ("steps 7", "steps 18446744073709551623", 5),
    ("end exit", "end running", 6),
    ("end exit", "end Halt", 6),
    ("inputs 1", "inputs 0", 11),
    ("inputs 1", "inputs 2", 12),
    ("nodes 4", "nodes 3", 16),
    ("nodes 4", "nodes 5", 17),
    ("outputs 0", "outputs 1", 18),
    ("BitVec 8) b0)", "BitVec 8) b1)", 13),
    ("fun n1", "fun n2", 14),
    ("n1 () (_ BitVec 8)", "n1 () (_ BitVec 9)", 14),
    ("(_ bv65 8)", "(_ bv256 8)", 14),
    ("(_ bv65 8)", "(_ bv65 0)", 14),
    ("(ite (= n0 n1)", "(ite (= n0 n4)", 15),
    ("BitVec 8) n3)", "BitVec 8) n2)", 17),
    ("(assert (= n2", "(assert (= n3", 18),
    ("(check-sat)\n(exit)\n", "(check-sat)\n", 20),
    ("(exit)\n", "(exit)", 20),
    ("(exit)\n", "(exit)\n\n", 21),
    ("(check-sat)\n", "\n(check-sat)\n", 19),
];

/// The line at which the text is refused.
fn refused_line(alloc: Global, text: &str) -> Result<Option<usize>, NoMemory> {
    let read = read_leaf(alloc, text.as_bytes())?;
    Ok(read.err().map(|refused| refused.line))
}

/// The first row for which the text, changed so, is not refused at this line.
fn first_wrong(
    alloc: Global,
    text: &str,
    rows: &[(&str, &str, usize)],
) -> Result<Option<usize>, NoMemory> {
    for i in 0..rows.len() {
        let (old, new, line) = rows[i];
        let changed = text.replace(alloc, old, new)?;
        if refused_line(alloc, &changed)? != Some(line) {
            return Ok(Some(i));
        }
    }
    Ok(None)
}

/// How the runs of the leaf that the text is end.
fn end_of(alloc: Global, text: &str) -> Result<Option<LeafEnd>, NoMemory> {
    let read = read_leaf(alloc, text.as_bytes())?;
    Ok(read.ok().map(|leaf| leaf.end))
}

/// Whether the leaf that the text is has this text.
fn is_written_back(alloc: Global, text: &str) -> Result<bool, NoMemory> {
    match read_leaf(alloc, text.as_bytes())? {
        Ok(leaf) => {
            let again = print_leaf(alloc, &leaf)?;
            Ok(again.as_slice() == text.as_bytes())
        }
        Err(_) => Ok(false),
    }
}

#[test]
fn a_change_is_refused_at_its_line(rt: HostRuntime) -> Result<(), Fail> {
    assert_eq!(rt; refused_line(rt.alloc(), FINISHED)?, None);
    assert_eq!(rt; first_wrong(rt.alloc(), FINISHED, &CHANGES)?, None);
    assert_eq!(rt;
        first_wrong(rt.alloc(), WITHOUT_NODES, &CHANGES_OF_A_CUT)?,
        None
    );
    Ok(())
}

#[test]
fn no_text_is_refused_at_its_first_line(rt: HostRuntime) -> Result<(), Fail> {
    assert_eq!(rt; refused_line(rt.alloc(), "")?, Some(1));
    Ok(())
}

/// The head of a leaf up to its steps, of which there are so many digits that no number has as many.
fn long_steps(alloc: Global) -> Result<String, NoMemory> {
    let mut text = String::from_str(
        alloc,
        "; rvklee leaf 1\n; kind finished\n; choices .\n; path .\n; steps ",
    )?;
    for _ in 0..5000 {
        text.push_str("9")?;
    }
    text.push_str("\n")?;
    Ok(text)
}

#[test]
fn a_number_of_many_digits_is_none(rt: HostRuntime) -> Result<(), Fail> {
    let text = long_steps(rt.alloc())?;
    assert_eq!(rt; refused_line(rt.alloc(), &text)?, Some(5));
    Ok(())
}

#[test]
fn what_was_written_is_read_back(rt: HostRuntime) -> Result<(), Fail> {
    assert!(rt; is_written_back(rt.alloc(), EXAMPLE)?);
    assert!(rt; is_written_back(rt.alloc(), FINISHED)?);
    assert!(rt; is_written_back(rt.alloc(), CUT)?);
    assert!(rt; is_written_back(rt.alloc(), WITHOUT_NODES)?);
    Ok(())
}

#[test]
fn a_kind_is_the_budget_that_was_spent(rt: HostRuntime) -> Result<(), Fail> {
    assert_eq!(rt;
        end_of(rt.alloc(), CUT)?,
        Some(LeafEnd::Cut(Cause::Targets))
    );
    assert_eq!(rt;
        end_of(rt.alloc(), WITHOUT_NODES)?,
        Some(LeafEnd::Cut(Cause::Nodes))
    );
    Ok(())
}
