//! Budgets, paths and choices, as texts have them.

ghost use Rattle.std.specs.Prelude.{◌≡◌, ◌++◌, OnErr, OnOk, string_bytes};
ghost use Rattle.text_parts.specs.Names as spec;

use rv_decode::PathStep;
use std::alloc::{AllocError as NoMemory, Global};
use tree_core::{Cause, Choice};

/// The budget that was spent.
pub fn cause_name(cause: Cause) -> &'static str
    ensures { result.now ≡ spec.cause_text cause }
{
    match cause {
        Cause::Steps => "steps",
        Cause::Targets => "targets",
        Cause::Conflicts => "conflicts",
        Cause::Nodes => "nodes",
    }
}

/// Appends an entry of a path. After an error the text is as it was.
fn write_step(alloc: Global, text: &mut String, step: PathStep) -> Result<(), NoMemory>
    ensures ok { OnOk result (string_bytes text.new
        ≡ string_bytes text.old ++ spec.step_text step) }
    ensures err { OnErr result (string_bytes text.new ≡ string_bytes text.old) }
{
    match step {
        PathStep::Taken => text.push_str("T"),
        PathStep::NotTaken => text.push_str("N"),
        PathStep::Target(target) => {
            let digits = hex::encode(alloc, &target.to_be_bytes())?;
            let entry = format!(in alloc; "@{digits}")?;
            text.push_str(&entry)
        }
    }
}

/// Appends a choice. After an error the text is as it was.
pub fn write_choice(alloc: Global, text: &mut String, choice: Choice) -> Result<(), NoMemory>
    ensures ok { OnOk result (string_bytes text.new
        ≡ string_bytes text.old ++ spec.choice_text choice) }
    ensures err { OnErr result (string_bytes text.new ≡ string_bytes text.old) }
{
    match choice {
        Choice::No => text.push_str("N"),
        Choice::Yes => text.push_str("Y"),
        Choice::Value(value) => {
            let digits = hex::encode(alloc, &value.to_be_bytes())?;
            let entry = format!(in alloc; "={digits}")?;
            text.push_str(&entry)
        }
        Choice::Rest => text.push_str("R"),
    }
}

/// Appends the entries of a path, with nothing between. After an error the text is as it was.
pub fn write_path(alloc: Global, text: &mut String, path: &[PathStep]) -> Result<(), NoMemory>
    ensures ok { OnOk result (string_bytes text.new
        ≡ string_bytes text.old ++ spec.path_text path.now) }
    ensures err { OnErr result (string_bytes text.new ≡ string_bytes text.old) }
{
    let mut entries = String::new(alloc);
    for step in path {
        write_step(alloc, &mut entries, *step)?;
    }
    text.push_str(&entries)
}

/// Appends the choices, with nothing between. After an error the text is as it was.
pub fn write_choices(alloc: Global, text: &mut String, choices: &[Choice]) -> Result<(), NoMemory>
    ensures ok { OnOk result (string_bytes text.new
        ≡ string_bytes text.old ++ spec.choices_text choices.now) }
    ensures err { OnErr result (string_bytes text.new ≡ string_bytes text.old) }
{
    let mut entries = String::new(alloc);
    for choice in choices {
        write_choice(alloc, &mut entries, *choice)?;
    }
    text.push_str(&entries)
}
