//! The line of a clause that was learnt. After an error a part of it may stand there.

ghost use Rattle.std.specs.Prelude.{◌≡◌, ◌++◌, ◌<◌, ◌^◌, All, OnOk, string_bytes};
ghost use Rattle.std.specs.List.{flat_map};
ghost use Rattle.fork_spec.specs.Leaves.{IsSmall};
ghost use Rattle.spent_text.specs.LearntLine.{hint_text, learnt_line, literal_text};
ghost use Rattle.spent_text.specs.Legible.{HasSmallNumbers};

use cnf_form::{Lit, LogStep};
use std::alloc::AllocError as NoMemory;
use text_parts::push_numbered;

/// Appends a literal, behind a blank.
fn write_literal(text: &mut String, literal: Lit) -> Result<(), NoMemory>
    ensures ok { OnOk result (string_bytes text.new
        ≡ string_bytes text.old ++ literal_text literal) }
    ensures small { IsSmall literal.variable }
{
    let sign = if literal.is_positive() { " " } else { " -" };
    push_numbered(text, sign, literal.variable())
}

/// Appends the literals of a clause.
fn write_literals(text: &mut String, literals: &[Lit]) -> Result<(), NoMemory>
    ensures ok { OnOk result (string_bytes text.new
        ≡ string_bytes text.old ++ flat_map literal_text literals.now) }
    ensures small { OnOk result (All (λ l. IsSmall l.variable) literals.now) }
{
    for literal in literals {
        write_literal(text, *literal)?;
    }
    Ok(())
}

/// Appends the numbers of clauses.
fn write_hints(text: &mut String, hints: &[usize]) -> Result<(), NoMemory>
    ensures ok { OnOk result (string_bytes text.new
        ≡ string_bytes text.old ++ flat_map hint_text hints.now) }
    ensures small { All (λ h. h < 2 ^ 64) hints.now }
{
    for hint in hints {
        push_numbered(text, " ", *hint)?;
    }
    Ok(())
}

/// Appends the line of a clause that was learnt.
pub fn write_learnt_line(text: &mut String, step: &LogStep) -> Result<(), NoMemory>
    ensures ok { OnOk result (string_bytes text.new
        ≡ string_bytes text.old ++ learnt_line step.now) }
    ensures small { OnOk result (HasSmallNumbers step.now) }
{
    text.push_str("c")?;
    write_literals(text, step.clause().literals())?;
    text.push_str(" 0")?;
    write_hints(text, step.hints())?;
    text.push_str(" 0\n")
}
