//! Reading the text of a leaf.

ghost use Rattle.std.specs.Prelude.{◌≡◌, IfErr, IfOk, Ok, option_map};
ghost use Rattle.fork_spec.specs.Leaves.{IsFull, Leaf};
ghost use Rattle.smt_text.specs.Grammar.{start, IsWhole};
ghost use Rattle.smt_text.specs.LeafLines.{leaf_text};
ghost use Rattle.smt_text.specs.Phases.{IsSoundReading};
ghost use Rattle.leaf_reader.specs.ReadingState.{IsNextLine, reading_of};
ghost use Rattle.leaf_reader.specs.Refusals.{IsRefusedAt};

use crate::leaf_reading::LeafReading;
use smt_text::{LeafText, Spot};
use std::alloc::{AllocError as NoMemory, Global};

/// Where a text is no leaf's.
#[derive(Clone, Copy, Debug, PartialEq, Eq)]
pub struct SmtRefused {
    /// The first line that may not stand after the lines before it, counted from 1. The end of the text
    /// counts as the line behind the last.
    pub line: usize,
}

impl LeafReading {
    /// The next line, whatever its kind, if it may stand.
    fn take_line<'a>(&mut self, alloc: Global, text: &'a [u8]) -> Result<Option<&'a [u8]>, NoMemory>
        requires { IsSoundReading (reading_of self.old) }
        ensures { IfOk result (λ found. IsNextLine (reading_of self.old) text.now
            (reading_of self.new) (option_map (λ rest. rest.now) found)) }
    {
        match self.place {
            Spot::AtFormat => Ok(self.take_format(text)),
            Spot::AtKind => Ok(self.take_kind(text)),
            Spot::AtChoices => self.take_choices(alloc, text),
            Spot::AtPath => self.take_path(alloc, text),
            Spot::AtSteps => Ok(self.take_steps(text)),
            Spot::AtEnd => Ok(self.take_end(text)),
            Spot::AtInputs => Ok(self.take_inputs(alloc, text)),
            Spot::AtNodes => Ok(self.take_nodes(text)),
            Spot::AtOutputs => Ok(self.take_outputs(text)),
            Spot::AtLogic => Ok(self.take_logic(text)),
            Spot::AmongInputs => Ok(self.take_input(text)),
            Spot::AtBase => Ok(self.take_base(text)),
            Spot::AmongNodes => self.take_node(text),
            Spot::AtStatus => Ok(self.take_status(text)),
            Spot::AmongOutputs => self.take_output(text),
            Spot::AmongAssertions => self.take_assertion(text),
            Spot::AtExit => Ok(self.take_exit(text)),
            Spot::Closed => Ok(None),
        }
    }
}

/// Reads all lines.
fn take_lines(
    alloc: Global,
    reading: &mut LeafReading,
    text: &[u8],
) -> Result<Result<(), SmtRefused>, NoMemory>
    requires { reading_of reading.old ≡ start }
    ensures whole { IfOk result (λ read. IfOk read
        (λ _. IsWhole text.now (reading_of reading.new))) }
    ensures refused { IfOk result (λ read. IfErr read
        (λ refused. IsRefusedAt text.now refused.line)) }
{
    let mut lines: usize = 0;
    let mut rest = text;
    'lines: while !rest.is_empty() {
        let Some(more) = reading.take_line(alloc, rest)? else {
            return Ok(Err(SmtRefused { line: lines + 1 }));
        };
        rest = more;
        lines += 1;
    }
    if reading.place != Spot::Closed {
        return Ok(Err(SmtRefused { line: lines + 1 }));
    }
    Ok(Ok(()))
}

/// Reads the text of a leaf, as `print_leaf` writes it, or says where it isn't one. One pass is made over
/// the bytes.
pub fn read_leaf(alloc: Global, text: &[u8]) -> Result<Result<LeafText, SmtRefused>, NoMemory>
    ensures is_its_text { IfOk result (λ read. IfOk read (λ leaf. text.now ≡ leaf_text leaf)) }
    ensures full { IfOk result (λ read. IfOk read (λ leaf. IsFull leaf)) }
    ensures only { (leaf : Leaf) → IsFull leaf → text.now ≡ leaf_text leaf
        → IfOk result (λ read. read ≡ Ok leaf) }
    ensures refused { IfOk result (λ read. IfErr read
        (λ refused. IsRefusedAt text.now refused.line)) }
{
    let mut reading = LeafReading::new(alloc);
    match take_lines(alloc, &mut reading, text)? {
        Ok(()) => Ok(Ok(reading.into_leaf())),
        Err(refused) => Ok(Err(refused)),
    }
}
