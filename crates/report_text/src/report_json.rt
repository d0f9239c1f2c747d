//! The JSON text of a report.

ghost use Rattle.std.specs.Prelude.{◌≡◌, ◌<◌, ◌^◌, IfOk, length, map, string_bytes};
ghost use Rattle.serde_json.specs.View.{view};
ghost use Rattle.text_parts.specs.Names.{choices_text};
ghost use Rattle.report_text.specs.ReportData.{budgets_data, leaf_node_data, leaf_nodes_data, object_data, report_data, totals_data};
ghost use Rattle.report_text.specs.Reports.{order_text, report_text};

use crate::reported::Reported;
use crate::summary::{Summary, summarize};
use byte_list::Bytes;
use elf_load::Regions;
use serde_json::{Value, json};
use smt_text::{end_name, kind_name};
use std::alloc::{AllocError as NoMemory, Global};
use test_files::region_list;
use text_parts::write_choices;
use tree_core::{Budgets, Choice, Order};

/// The choices, with nothing between.
fn choices_string(alloc: Global, choices: &[Choice]) -> Result<String, NoMemory>
    ensures { IfOk result (λ text. string_bytes text ≡ choices_text choices.now) }
{
    let mut text = String::new(alloc);
    write_choices(alloc, &mut text, choices)?;
    Ok(text)
}

/// The object of a leaf.
fn leaf_value<E: Reported>(alloc: Global, leaf: &E) -> Result<Value, NoMemory>
    ensures { IfOk result (λ value. view value ≡ leaf_node_data (E.leaf_node leaf.now)) }
{
    let choices = choices_string(alloc, leaf.choices())?;
    json!(in alloc; {
        "choices": choices,
        "end": end_name(leaf.end()),
        "kind": kind_name(leaf.end()),
        "node": leaf.node(),
        "steps": leaf.steps()
    })
}

/// The objects of the leaves.
fn leaf_values<E: Reported>(alloc: Global, leaves: &[E]) -> Result<Vec<Value>, NoMemory>
    ensures { IfOk result (λ values. map view values.items
        ≡ map leaf_node_data (map E.leaf_node leaves.now)) }
{
    let mut values = Vec::with_capacity(alloc, leaves.len())?;
    for leaf in leaves {
        values.push(leaf_value(alloc, leaf)?)?;
    }
    Ok(values)
}

/// The name of an order of claims.
fn order_name(order: Order) -> &'static str
    ensures { result.now ≡ order_text order }
{
    match order {
        Order::Deepest => "deepest",
        Order::Oldest => "oldest",
        Order::Mixed => "mixed",
    }
}

/// The object of the budgets.
fn budgets_value(alloc: Global, budgets: &Budgets, workers: u32) -> Result<Value, NoMemory>
    ensures { IfOk result (λ value. view value ≡ budgets_data budgets.now workers) }
{
    json!(in alloc; {
        "conflicts": budgets.conflicts,
        "nodes": budgets.nodes,
        "order": order_name(budgets.order),
        "steps": budgets.steps,
        "targets": budgets.targets,
        "workers": workers
    })
}

/// The object of the summary.
fn totals_value(alloc: Global, summary: Summary) -> Result<Value, NoMemory>
    ensures { IfOk result (λ value. view value ≡ totals_data summary) }
{
    json!(in alloc; {
        "cut": summary.cut,
        "finished": summary.finished,
        "leaves": summary.leaves,
        "steps": summary.steps,
        "tests": summary.tests
    })
}

/// The leaves as a JSON list.
fn leaves_value<E: Reported>(alloc: Global, leaves: &[E]) -> Result<Value, NoMemory>
    ensures { IfOk result (λ value. view value ≡ leaf_nodes_data (map E.leaf_node leaves.now)) }
{
    Ok(Value::Array(leaf_values(alloc, leaves)?))
}

/// The object of these four.
fn object_value(
    alloc: Global,
    budgets: Value,
    leaves: Value,
    regions: Value,
    summary: Value,
) -> Result<Value, NoMemory>
    ensures { IfOk result (λ value. view value
        ≡ object_data (view budgets) (view leaves) (view regions) (view summary)) }
{
    json!(in alloc; {
        "budgets": budgets,
        "leaves": leaves,
        "regions": regions,
        "summary": summary
    })
}

/// The report as a JSON object.
fn report_value<E: Reported>(
    alloc: Global,
    budgets: &Budgets,
    workers: u32,
    regions: &Regions,
    leaves: &[E],
) -> Result<Value, NoMemory>
    requires { length leaves.now < 2 ^ 32 }
    ensures { IfOk result (λ value. view value
        ≡ report_data budgets.now workers regions.now (map E.leaf_node leaves.now)) }
{
    let budgets = budgets_value(alloc, budgets, workers)?;
    let summary = totals_value(alloc, summarize(leaves))?;
    let leaves = leaves_value(alloc, leaves)?;
    let regions = region_list(alloc, regions.as_slice())?;
    object_value(alloc, budgets, leaves, regions, summary)
}

/// The JSON text of a report of these leaves, which stand by rank, with the budgets and the number of workers that were
/// asked for and the regions of the input bytes.
pub fn write_report<E: Reported>(
    alloc: Global,
    budgets: &Budgets,
    workers: u32,
    regions: &Regions,
    leaves: &[E],
) -> Result<Bytes, NoMemory>
    requires { length leaves.now < 2 ^ 32 }
    ensures { IfOk result (λ text. text
        ≡ report_text budgets.now workers regions.now (map E.leaf_node leaves.now)) }
{
    let value = report_value(alloc, budgets, workers, regions, leaves)?;
    let mut text = value.to_string(alloc)?;
    text.push_str("\n")?;
    Ok(Bytes::from_vec(text.into_bytes()))
}
