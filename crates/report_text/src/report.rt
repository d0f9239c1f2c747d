//! The report of a tree that is done: its files, and the line that is said.

ghost use Rattle.std.specs.Prelude.{◌≡◌, ◌<◌, ◌^◌, ◌++◌, ◌∷◌, [], All, IfOk, OnOk, Some, length, map};
ghost use Rattle.fork_tree.specs.Written.{lines_of, nodes_after};
ghost use Rattle.fork_tree.specs.Contents.{cut_in};
ghost use Rattle.fork_tree.specs.Drains.{IsDrained};
ghost use Rattle.report_text.specs.Entries.{AreReportable, IsPlacedByPart, IsReportOfTree, IsReportable, beside_of, entries_of, leaf_node_of};
ghost use Rattle.report_text.specs.Legible.{HasSmallLog};
ghost use Rattle.report_text.specs.Files.{beside_put, events_put, files_from, leaf_put, put_before, report_put};

use crate::event_lines::write_events;
use crate::file_names::{events_name, leaf_name, report_name, spent_name, test_name};
use crate::learnt::write_conflicts;
use crate::leaves::{HasPart, LeafAt, by_rank};
use crate::report_json::write_report;
use crate::sample_test::make_test;
use crate::spent::{write_nodes, write_targets};
use crate::summary::{summarize, summary_line};
use byte_list::Bytes;
use elf_load::Regions;
use fork_tree::{Tree, Work};
use leaf_part::{Evidence, LeafPart};
use smt_text::print_parts;
use std::alloc::{AllocError as NoMemory, Global};
use test_files::write_test;
use tool_io::NamedFile;
use tree_core::Budgets;

/// What is put and said of the leaves of a program.
pub struct Report {
    pub files: Vec<NamedFile>,
    pub summary: Bytes,
}

impl Drop for Report {
    fn drop(self) {
        let Self {
            files: _files,
            summary: _summary,
        } = self;
    }
}

impl Report {
    /// The files, and the line.
    pub fn into_parts(self) -> (Vec<NamedFile>, Bytes)
        ensures files { result.0.items ≡ self.files.items }
        ensures summary { result.1 ≡ self.summary }
    {
        let Self { files, summary } = self;
        (files, summary)
    }
}

// The file of the leaf.
fn leaf_file(alloc: Global, out: &str, rank: usize, part: &LeafPart) -> Result<NamedFile, NoMemory>
    ensures { IfOk result (λ file. file ≡ leaf_put out.now rank part.now.leaf) }
{
    let text = print_parts(
        alloc,
        part.choices(),
        part.path(),
        part.steps(),
        part.end(),
        part.condition(),
        part.outputs(),
    )?;
    Ok(NamedFile::new(leaf_name(alloc, out, rank)?, text))
}

// The file of what stands beside the leaf: what was spent on it, or its sample's test.
fn beside_file(
    alloc: Global,
    out: &str,
    regions: &Regions,
    rank: usize,
    part: &LeafPart,
) -> Result<NamedFile, NoMemory>
    requires { IsReportable part.now }
    ensures file { IfOk result (λ file. beside_put out.now rank
        (beside_of regions.now rank part.now.leaf part.now.sample part.now.evidence)
        ≡ Some file) }
    ensures small { IfOk result (λ file. HasSmallLog part.now.evidence) }
{
    match (part.evidence(), part.sample()) {
        (Some(Evidence::Targets(spent)), _) => {
            let text = write_targets(alloc, spent)?;
            Ok(NamedFile::new(spent_name(alloc, out, rank)?, text))
        }
        (Some(Evidence::Conflicts(learnt)), _) => {
            let text = write_conflicts(alloc, learnt)?;
            Ok(NamedFile::new(spent_name(alloc, out, rank)?, text))
        }
        (Some(Evidence::Nodes(nodes)), _) => {
            let text = write_nodes(alloc, *nodes)?;
            Ok(NamedFile::new(spent_name(alloc, out, rank)?, text))
        }
        (None, Some(sample)) => {
            let test = make_test(alloc, regions, rank, part, sample)?;
            let text = write_test(alloc, &test)?;
            Ok(NamedFile::new(test_name(alloc, out, rank)?, text))
        }
        (None, None) => unreachable!(),
    }
}

// Puts the files of a leaf behind the others.
fn push_files(
    alloc: Global,
    files: &mut Vec<NamedFile>,
    out: &str,
    regions: &Regions,
    rank: usize,
    part: &LeafPart,
) -> Result<(), NoMemory>
    requires { IsReportable part.now }
    ensures files { OnOk result (files.new.items
        ≡ files.old.items ++ leaf_put out.now rank part.now.leaf
        ∷ put_before (beside_put out.now rank
        (beside_of regions.now rank part.now.leaf part.now.sample part.now.evidence)) []) }
    ensures small { OnOk result (HasSmallLog part.now.evidence) }
{
    files.push(leaf_file(alloc, out, rank, part)?)?;
    files.push(beside_file(alloc, out, regions, rank, part)?)?;
    Ok(())
}

// Puts the files of these leaves behind the others.
fn push_leaves(
    alloc: Global,
    files: &mut Vec<NamedFile>,
    out: &str,
    regions: &Regions,
    leaves: &[LeafAt<'_>],
) -> Result<(), NoMemory>
    requires { All (λ l. IsReportable l.part.now) leaves.now }
    ensures files { OnOk result (files.new.items
        ≡ files.old.items ++ files_from out.now 0 (entries_of regions.now 0 leaves.now)) }
    ensures small { OnOk result (All (λ l. HasSmallLog l.part.now.evidence) leaves.now) }
{
    for (rank, leaf) in leaves.iter().enumerate() {
        push_files(alloc, files, out, regions, rank, leaf.part)?;
    }
    Ok(())
}

// The file of the events.
fn events_file<W: Work>(alloc: Global, out: &str, tree: &Tree<W>) -> Result<NamedFile, NoMemory>
    requires { nodes_after 1 tree.now.story.events ≡ length tree.now.story.nodes }
    ensures { IfOk result (λ file. file
        ≡ events_put out.now (lines_of (cut_in W.State.place W.Leaf.place) tree.now.story)) }
{
    let text = write_events(alloc, tree.nodes(), tree.events())?;
    Ok(NamedFile::new(events_name(alloc, out)?, text))
}

// The file of the report's JSON.
fn report_file(
    alloc: Global,
    out: &str,
    regions: &Regions,
    budgets: &Budgets,
    workers: u32,
    leaves: &[LeafAt<'_>],
) -> Result<NamedFile, NoMemory>
    requires { length leaves.now < 2 ^ 32 }
    ensures { IfOk result (λ file. file
        ≡ report_put out.now budgets.now workers regions.now (map leaf_node_of leaves.now)) }
{
    let text = write_report(alloc, budgets, workers, regions, leaves)?;
    Ok(NamedFile::new(report_name(alloc, out)?, text))
}

/// The report of a tree that is done, in the folder `out`: of a program with its input bytes in these regions, with the budgets
/// and the number of workers that were asked for.
pub fn make_report<W: Work>(
    alloc: Global,
    out: &str,
    regions: &Regions,
    budgets: &Budgets,
    workers: u32,
    tree: &Tree<W>,
) -> Result<Report, NoMemory>
where
    W::Leaf: HasPart,
    requires placed { IsPlacedByPart W.Leaf.part W.Leaf.place }
    requires done { IsDrained (W.rules tree.now.worker) W.State.place W.Leaf.place tree.now.story }
    requires reportable { AreReportable W.Leaf.part tree.now.story }
    ensures { IfOk result (λ report.
        IsReportOfTree W.Leaf.part W.State.place W.Leaf.place out.now regions.now budgets.now workers
        tree.now.story report.files.items report.summary) }
{
    let leaves = by_rank(alloc, tree)?;
    let summary = summarize(&leaves);
    let mut files = Vec::new(alloc);
    files.push(events_file(alloc, out, tree)?)?;
    push_leaves(alloc, &mut files, out, regions, &leaves)?;
    files.push(report_file(alloc, out, regions, budgets, workers, &leaves)?)?;
    Ok(Report {
        files,
        summary: summary_line(alloc, &summary)?,
    })
}
