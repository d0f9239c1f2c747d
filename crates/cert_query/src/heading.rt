//! Taking the lines before a question's nodes: how many inputs and nodes there are, and the inputs.

ghost use Rattle.std.specs.Prelude.{◌≡◌, ◌++◌, ◌∷◌, ◌≤◌, IfOk, IfErr, length};
ghost use Rattle.cert_form.specs.declared.line.CertLine.TheVariants as line;
ghost use Rattle.cert_query.specs.QuestionFaults.{IsBaseFault, IsCountsFault, IsHeadingFault, IsInputFault, IsInputsFault};
ghost use Rattle.cert_query.specs.QuestionLines.{input_lines, heading_lines};

use crate::fault::{Fault, Reason};
use cert_form::CertLine;

// How many inputs and how many nodes are said, and the lines behind the logic.
fn take_counts(lines: &[CertLine]) -> Result<(u32, u64, &[CertLine]), Fault>
    ensures taken { IfOk result (λ taken.
        lines.now ≡ line.Inputs taken.0 ∷ line.Nodes taken.1 ∷ line.Logic ∷ taken.2.now) }
    ensures refused { IfErr result (λ fault. fault.left ≤ length lines.now) }
    ensures cause { IfErr result (IsCountsFault lines.now) }
{
    let [CertLine::Inputs(inputs), rest @ ..] = lines else {
        return Err(Fault::at(lines, Reason::Place));
    };
    let [CertLine::Nodes(nodes), rest @ ..] = rest else {
        return Err(Fault::at(rest, Reason::Place));
    };
    let [CertLine::Logic, rest @ ..] = rest else {
        return Err(Fault::at(rest, Reason::Place));
    };
    Ok((*inputs, *nodes, rest))
}

// The lines behind the input of this number.
fn take_input(number: u32, lines: &[CertLine]) -> Result<&[CertLine], Fault>
    ensures taken { IfOk result (λ rest. lines.now ≡ line.Input number ∷ rest.now) }
    ensures refused { IfErr result (λ fault. fault.left ≤ length lines.now) }
    ensures cause { IfErr result (IsInputFault number lines.now) }
{
    match lines {
        [CertLine::Input(found), rest @ ..] => {
            if *found == u64::from(number) {
                Ok(rest)
            } else {
                Err(Fault::at(lines, Reason::Text))
            }
        }
        _ => Err(Fault::at(lines, Reason::Place)),
    }
}

// The lines behind so many inputs.
fn take_inputs(count: u32, lines: &[CertLine]) -> Result<&[CertLine], Fault>
    ensures taken { IfOk result (λ rest. lines.now ≡ input_lines 0 count ++ rest.now) }
    ensures refused { IfErr result (λ fault. fault.left ≤ length lines.now) }
    ensures cause { IfErr result (IsInputsFault count lines.now) }
{
    let mut rest = lines;
    for number in 0..count {
        rest = take_input(number, rest)?;
    }
    Ok(rest)
}

// The lines behind the function that the inputs are of.
fn take_base(lines: &[CertLine]) -> Result<&[CertLine], Fault>
    ensures taken { IfOk result (λ rest. lines.now ≡ line.Base ∷ rest.now) }
    ensures refused { IfErr result (λ fault. fault.left ≤ length lines.now) }
    ensures cause { IfErr result (IsBaseFault lines.now) }
{
    match lines {
        [CertLine::Base, rest @ ..] => Ok(rest),
        _ => Err(Fault::at(lines, Reason::Place)),
    }
}

/// How many inputs and how many nodes are said, and the lines from the first node on.
pub(crate) fn take_heading(lines: &[CertLine]) -> Result<(u32, u64, &[CertLine]), Fault>
    ensures taken { IfOk result (λ taken. lines.now ≡ heading_lines taken.0 taken.1 ++ taken.2.now) }
    ensures refused { IfErr result (λ fault. fault.left ≤ length lines.now) }
    ensures cause { IfErr result (IsHeadingFault lines.now) }
{
    let (inputs, nodes, rest) = take_counts(lines)?;
    let rest = take_inputs(inputs, rest)?;
    let rest = take_base(rest)?;
    Ok((inputs, nodes, rest))
}
