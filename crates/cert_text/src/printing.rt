//! Printing a certificate. After an error a part of a line may stand in the text.

ghost use Rattle.std.specs.Prelude.{◌≡◌, ◌++◌, IfOk, OnOk, string_bytes};
ghost use Rattle.std.specs.List.{flat_map};
ghost use Rattle.cert_form.specs.declared.line.CertLine.TheVariants as walk;
ghost use Rattle.spent_text.specs.Sides.{sides_text};
ghost use Rattle.smt_text.specs.Lines as leaf;
ghost use Rattle.smt_text.specs.Lines.{AssertLine, InputLine, InputsLine, NodesLine};
ghost use Rattle.cert_text.specs.Texts.{BudgetsLine, FormatLine, RegionsLine, blank_region, cert_text, text_of};
ghost use Rattle.cert_text.specs.Lines.{input_text, line_defining, line_text};

use byte_list::Bytes;
use cert_form::{Cert, CertLine, DefinedNode, Limits, Side};
use elf_load::Region;
use fork_spec::Found;
use smt_text::{write_assert_line, write_input_line, write_node_line};
use spent_text::{found_line, write_learnt_line, write_side};
use std::alloc::{AllocError as NoMemory, Global};
use text_parts::{push_numbered, write_choice};
use tree_core::Choice;

/// Appends a region, behind a blank.
fn write_region(alloc: Global, text: &mut String, region: Region) -> Result<(), NoMemory>
    ensures { OnOk result (string_bytes text.new
        ≡ string_bytes text.old ++ blank_region region) }
{
    let start = hex::encode(alloc, &region.start.to_be_bytes())?;
    text.push_str(" ")?;
    text.push_str(&start)?;
    push_numbered(text, ":", region.count)
}

/// Appends the regions.
fn write_regions(alloc: Global, text: &mut String, regions: &[Region]) -> Result<(), NoMemory>
    ensures { OnOk result (string_bytes text.new
        ≡ string_bytes text.old ++ flat_map blank_region regions.now) }
{
    for region in regions {
        write_region(alloc, text, *region)?;
    }
    Ok(())
}

/// Appends the line of the budgets.
fn write_budgets(text: &mut String, budgets: Limits) -> Result<(), NoMemory>
    ensures { OnOk result (string_bytes text.new
        ≡ string_bytes text.old ++ text_of (BudgetsLine budgets)) }
{
    push_numbered(text, "budgets ", budgets.steps)?;
    push_numbered(text, " ", budgets.targets)?;
    push_numbered(text, " ", budgets.conflicts)?;
    push_numbered(text, " ", budgets.nodes)?;
    text.push_str("\n")
}

/// Appends the sides of a split.
fn write_sides(alloc: Global, text: &mut String, sides: &[Side]) -> Result<(), NoMemory>
    ensures { OnOk result (string_bytes text.new
        ≡ string_bytes text.old ++ sides_text sides.now) }
{
    for side in sides {
        write_side(alloc, text, side.choice, side.cut)?;
    }
    Ok(())
}

/// Appends the line of a choice with which alone the run goes on.
fn write_one(alloc: Global, text: &mut String, choice: Choice) -> Result<(), NoMemory>
    ensures { OnOk result (string_bytes text.new
        ≡ string_bytes text.old ++ line_text (walk.One choice)) }
{
    text.push_str("one ")?;
    write_choice(alloc, text, choice)?;
    text.push_str("\n")
}

/// Appends the line of a split.
fn write_split(alloc: Global, text: &mut String, sides: &[Side]) -> Result<(), NoMemory>
    ensures { OnOk result (string_bytes text.new
        ≡ string_bytes text.old ++ line_text (walk.Split sides.now)) }
{
    text.push_str("split")?;
    write_sides(alloc, text, sides)?;
    text.push_str("\n")
}

/// Appends how many inputs a question has.
fn write_inputs(text: &mut String, inputs: u32) -> Result<(), NoMemory>
    ensures { OnOk result (string_bytes text.new
        ≡ string_bytes text.old ++ leaf.line_text (InputsLine inputs)) }
{
    push_numbered(text, "; inputs ", inputs)?;
    text.push_str("\n")
}

/// Appends how many nodes a question has.
fn write_nodes(text: &mut String, nodes: u64) -> Result<(), NoMemory>
    ensures { OnOk result (string_bytes text.new
        ≡ string_bytes text.old ++ leaf.line_text (NodesLine nodes)) }
{
    push_numbered(text, "; nodes ", nodes)?;
    text.push_str("\n")
}

/// Appends the line of a node.
fn write_node(text: &mut String, defined: DefinedNode) -> Result<(), NoMemory>
    ensures { OnOk result (string_bytes text.new
        ≡ string_bytes text.old ++ leaf.line_text (line_defining defined)) }
{
    write_node_line(text, defined.id as usize, defined.width, defined.node)
}

/// Appends the line of a value.
fn write_value(alloc: Global, text: &mut String, found: &Found) -> Result<(), NoMemory>
    ensures { OnOk result (string_bytes text.new
        ≡ string_bytes text.old ++ line_text (walk.Value found.now)) }
{
    text.push_str(&found_line(alloc, found)?)
}

/// Appends a word and the bytes of an assignment, up to the end of the line.
fn write_input(alloc: Global, text: &mut String, word: &str, input: &Bytes) -> Result<(), NoMemory>
    ensures { OnOk result (string_bytes text.new
        ≡ string_bytes text.old ++ input_text word.now input.now) }
{
    let digits = hex::encode(alloc, input.as_slice())?;
    text.push_str(word)?;
    text.push_str(&digits)?;
    text.push_str("\n")
}

/// Appends a line of the walk.
fn write_line(alloc: Global, text: &mut String, line: &CertLine) -> Result<(), NoMemory>
    ensures { OnOk result (string_bytes text.new
        ≡ string_bytes text.old ++ line_text line.now) }
{
    match line {
        CertLine::One(choice) => write_one(alloc, text, *choice),
        CertLine::Split(sides) => write_split(alloc, text, sides.as_slice()),
        CertLine::Tried => text.push_str("tried\n"),
        CertLine::Inputs(inputs) => write_inputs(text, *inputs),
        CertLine::Nodes(nodes) => write_nodes(text, *nodes),
        CertLine::Logic => text.push_str("(set-logic QF_ABV)\n"),
        CertLine::Input(i) => write_input_line(text, *i as usize),
        CertLine::Base => {
            text.push_str("(declare-fun base () (Array (_ BitVec 8) (_ BitVec 8)))\n")
        }
        CertLine::Node(node) => write_node(text, node.defined()),
        CertLine::Assert(id) => write_assert_line(text, *id as usize),
        CertLine::Check => text.push_str("(check-sat)\n"),
        CertLine::Exit => text.push_str("(exit)\n"),
        CertLine::Clause(clause) => write_learnt_line(text, clause.step()),
        CertLine::Value(found) => write_value(alloc, text, found),
        CertLine::Witness(input) => write_input(alloc, text, "w ", input),
        CertLine::End(input) => write_input(alloc, text, "end ", input),
        CertLine::CutSteps(input) => write_input(alloc, text, "cut steps ", input),
        CertLine::CutNodes => text.push_str("cut nodes\n"),
    }
}

/// Appends the lines of the walk.
fn write_lines(alloc: Global, text: &mut String, lines: &[CertLine]) -> Result<(), NoMemory>
    ensures { OnOk result (string_bytes text.new
        ≡ string_bytes text.old ++ flat_map line_text lines.now) }
{
    for line in lines {
        write_line(alloc, text, line)?;
    }
    Ok(())
}

/// Appends the line of the regions.
fn write_regions_line(alloc: Global, text: &mut String, regions: &[Region]) -> Result<(), NoMemory>
    ensures { OnOk result (string_bytes text.new
        ≡ string_bytes text.old ++ text_of (RegionsLine regions.now)) }
{
    text.push_str("regions")?;
    write_regions(alloc, text, regions)?;
    text.push_str("\n")
}

/// Appends the heading.
fn write_heading(
    alloc: Global,
    text: &mut String,
    regions: &[Region],
    budgets: Limits,
) -> Result<(), NoMemory>
    ensures { OnOk result (string_bytes text.new ≡ string_bytes text.old
        ++ text_of FormatLine ++ text_of (RegionsLine regions.now) ++ text_of (BudgetsLine budgets)) }
{
    text.push_str("rvklee cert 1\n")?;
    write_regions_line(alloc, text, regions)?;
    write_budgets(text, budgets)
}

/// The text of lines of the walk.
pub fn print_lines(alloc: Global, lines: &[CertLine]) -> Result<Bytes, NoMemory>
    ensures { IfOk result (λ text. text ≡ flat_map line_text lines.now) }
{
    let mut text = String::new(alloc);
    write_lines(alloc, &mut text, lines)?;
    Ok(Bytes::from_vec(text.into_bytes()))
}

/// The text of a certificate.
pub fn print_cert(alloc: Global, cert: &Cert) -> Result<Bytes, NoMemory>
    ensures { IfOk result (λ text. text ≡ cert_text cert.now) }
{
    let mut text = String::new(alloc);
    write_heading(alloc, &mut text, cert.regions.as_slice(), cert.budgets)?;
    write_lines(alloc, &mut text, &cert.lines)?;
    Ok(Bytes::from_vec(text.into_bytes()))
}
