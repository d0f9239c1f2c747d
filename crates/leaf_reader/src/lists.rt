//! Lists of choices and paths, as texts have them: items with nothing between, up to a full stop and the end of the line.

ghost use Rattle.std.specs.Prelude.{◌≡◌, IfOk, option_map};
ghost use Rattle.text_parts.specs.Items as spec;
ghost use Rattle.text_parts.specs.Pieces.{items};

use crate::cursor::{behind, eight, named};
use rv_decode::PathStep;
use std::alloc::{AllocError as NoMemory, Global};
use tree_core::Choice;

/// What stands behind a list.
const LIST_END: &str = ".\n";

const PLAIN_CHOICES: [(&str, Choice); 3] = [
    ("N", Choice::No),
    ("Y", Choice::Yes),
    ("R", Choice::Rest),
];

const BRANCHES: [(&str, PathStep); 2] = [("T", PathStep::Taken), ("N", PathStep::NotTaken)];

/// A choice with no value.
fn take_plain_choice(text: &[u8]) -> Option<(Choice, &[u8])>
    ensures { option_map (λ found. (found.0, found.1.now)) result ≡ spec.plain_choice text.now }
{
    named(text, &PLAIN_CHOICES)
}

/// A value of a term.
fn take_value(text: &[u8]) -> Option<(Choice, &[u8])>
    ensures { option_map (λ found. (found.0, found.1.now)) result ≡ spec.value_choice text.now }
{
    let (value, rest) = eight(behind(text, "=")?)?;
    Some((Choice::Value(value), rest))
}

/// A choice.
#[tactic(auto, unfolding(text_parts::specs::Items::choice))]
pub fn take_choice(text: &[u8]) -> Option<(Choice, &[u8])>
    ensures { option_map (λ found. (found.0, found.1.now)) result ≡ spec.choice text.now }
{
    match take_plain_choice(text) {
        Some(found) => Some(found),
        None => take_value(text),
    }
}

/// What a branch does.
fn take_branch(text: &[u8]) -> Option<(PathStep, &[u8])>
    ensures { option_map (λ found. (found.0, found.1.now)) result ≡ spec.branch_step text.now }
{
    named(text, &BRANCHES)
}

/// Where a JALR goes.
fn take_target(text: &[u8]) -> Option<(PathStep, &[u8])>
    ensures { option_map (λ found. (found.0, found.1.now)) result ≡ spec.target text.now }
{
    let (target, rest) = eight(behind(text, "@")?)?;
    Some((PathStep::Target(target), rest))
}

/// An entry of a path.
#[tactic(auto, unfolding(text_parts::specs::Items::step))]
fn take_step(text: &[u8]) -> Option<(PathStep, &[u8])>
    ensures { option_map (λ found. (found.0, found.1.now)) result ≡ spec.step text.now }
{
    match take_branch(text) {
        Some(found) => Some(found),
        None => take_target(text),
    }
}

/// All choices of a list.
pub(crate) fn take_choices(
    alloc: Global,
    text: &[u8],
) -> Result<Option<(Vec<Choice>, &[u8])>, NoMemory>
    ensures { IfOk result (λ found. option_map (λ found. (found.0.items, found.1.now)) found
        ≡ spec.all_choices text.now) }
{
    let mut choices = Vec::new(alloc);
    let mut rest = text;
    'choices: loop {
        if let Some(end) = behind(rest, LIST_END) {
            return Ok(Some((choices, end)));
        }
        let Some((choice, more)) = take_choice(rest) else {
            return Ok(None);
        };
        choices.push(choice)?;
        rest = more;
    }
}

/// All entries of a path.
pub(crate) fn take_path(
    alloc: Global,
    text: &[u8],
) -> Result<Option<(Vec<PathStep>, &[u8])>, NoMemory>
    ensures { IfOk result (λ found. option_map (λ found. (found.0.items, found.1.now)) found
        ≡ spec.all_steps text.now) }
{
    let mut path = Vec::new(alloc);
    let mut rest = text;
    'steps: loop {
        if let Some(end) = behind(rest, LIST_END) {
            return Ok(Some((path, end)));
        }
        let Some((step, more)) = take_step(rest) else {
            return Ok(None);
        };
        path.push(step)?;
        rest = more;
    }
}
