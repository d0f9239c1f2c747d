//! What was spent on a leaf that is cut by conflicts: a question, and the clauses that were learnt for it. After an error a
//! part of a text may stand there.

ghost use Rattle.std.specs.Prelude.{◌≡◌, ◌++◌, All, IfOk, OnOk, string_bytes};
ghost use Rattle.std.specs.List.{flat_map};
ghost use Rattle.report_text.specs.Learnt.{conflicts_text, learnt_heading};
ghost use Rattle.spent_text.specs.LearntLine.{learnt_line};
ghost use Rattle.spent_text.specs.Legible.{HasSmallNumbers};

use byte_list::Bytes;
use cnf_form::LogStep;
use leaf_part::Learnt;
use smt_text::print_query;
use spent_text::write_learnt_line;
use std::alloc::{AllocError as NoMemory, Global};
use text_parts::push_numbered;

/// Appends a line for each clause that was learnt.
fn write_learnt_lines(text: &mut String, log: &[LogStep]) -> Result<(), NoMemory>
    ensures ok { OnOk result (string_bytes text.new
        ≡ string_bytes text.old ++ flat_map learnt_line log.now) }
    ensures small { OnOk result (All HasSmallNumbers log.now) }
{
    for step in log {
        write_learnt_line(text, step)?;
    }
    Ok(())
}

/// Appends how many clauses were learnt, and how many inputs and terms the question has.
fn write_heading(text: &mut String, learnt: &Learnt) -> Result<(), NoMemory>
    ensures ok { OnOk result (string_bytes text.new
        ≡ string_bytes text.old ++ learnt_heading learnt.now) }
{
    let dag = learnt.question.dag();
    push_numbered(text, "; spent conflicts ", learnt.log.steps().len())?;
    push_numbered(text, "\n; inputs ", dag.inputs())?;
    push_numbered(text, "\n; nodes ", dag.len())?;
    text.push_str("\n")
}

/// The text of a question on which the budget of conflicts was spent.
pub fn write_conflicts(alloc: Global, learnt: &Learnt) -> Result<Bytes, NoMemory>
    ensures text { IfOk result (λ text. text ≡ conflicts_text learnt.now) }
    ensures small { IfOk result (λ text. All HasSmallNumbers learnt.now.log) }
{
    let mut text = String::new(alloc);
    write_heading(&mut text, learnt)?;
    text.push_str(print_query(alloc, &learnt.question)?.as_str())?;
    write_learnt_lines(&mut text, learnt.log.steps())?;
    Ok(Bytes::from_vec(text.into_bytes()))
}
