//! The lines of events.

ghost use Rattle.std.specs.Prelude.{◌≡◌, ◌+◌, ◌≤◌, ◌++◌, IfOk, codes, decimal, if◌then◌else◌, length, map, None, string_bytes};
ghost use Rattle.fork_tree.specs.Written.{born_by, choice_in, lines_of, nodes_after, side_born, written_deed};
ghost use Rattle.report_text.specs.Entries.{cut_by_place};
ghost use Rattle.report_text.specs.Events as spec;
ghost use Rattle.spent_text.specs.Sides.{side_text, sides_text};

use byte_list::Bytes;
use fork_spec::Placed;
use itoa::Buffer;
use spent_text::write_side;
use std::alloc::{AllocError as NoMemory, Global};
use text_parts::cause_name;
use tree_core::{Cause, Choice, Deed, Node, Noted, Origin};

/// Why a leaf was cut; nothing where it was not.
fn cut_name(cut: Option<Cause>) -> &'static str
    ensures { result.now ≡ spec.cut_text cut }
{
    match cut {
        None => "",
        Some(cause) => cause_name(cause),
    }
}

/// On which side of its parent's fork a node is; the root is on none.
fn choice_of(origin: Option<Origin>) -> Choice
    ensures { result ≡ choice_in origin }
{
    match origin {
        None => Choice::Rest,
        Some(origin) => origin.choice,
    }
}

/// Why a node that is born as a leaf was cut.
fn cut_of<R: Placed>(node: &Node<R>) -> Option<Cause>
    ensures { result ≡ (if node.now.is_leaf then (R.place node.now.content).cut else None) }
{
    match node.leaf() {
        Some(leaf) => leaf.cut(),
        None => None,
    }
}

/// The side that a node was born as, behind a blank.
fn side_string<R: Placed>(alloc: Global, node: &Node<R>) -> Result<String, NoMemory>
    ensures { IfOk result (λ text. string_bytes text
        ≡ side_text (side_born (cut_by_place R.place) node.now)) }
{
    let mut text = String::new(alloc);
    write_side(alloc, &mut text, choice_of(node.origin()), cut_of(node))?;
    Ok(text)
}

/// The sides that these nodes were born as.
fn sides_string<R: Placed>(alloc: Global, nodes: &[Node<R>]) -> Result<String, NoMemory>
    ensures { IfOk result (λ text. string_bytes text
        ≡ sides_text (map (side_born (cut_by_place R.place)) nodes.now)) }
{
    let mut text = String::new(alloc);
    for node in nodes {
        let side = side_string(alloc, node)?;
        text.push_str(&side)?;
    }
    Ok(text)
}

/// The line of a deed that says no more than who did it, and to which node.
fn plain_line(alloc: Global, deed: &str, by: u32, node: usize) -> Result<String, NoMemory>
    ensures { IfOk result (λ line. string_bytes line
        ≡ deed.now ++ codes " " ++ spec.actors_text by node ++ codes "\n") }
{
    let (mut worker, mut place) = (Buffer::new(), Buffer::new());
    let (by, node) = (worker.format(by), place.format(node));
    format!(in alloc; "{deed} {by} {node}\n")
}

/// The line of a leaf that was cut.
fn cut_line(alloc: Global, by: u32, node: usize, cut: Option<Cause>) -> Result<String, NoMemory>
    ensures { IfOk result (λ line. string_bytes line
        ≡ codes "cut " ++ spec.actors_text by node ++ codes " " ++ spec.cut_text cut
        ++ codes "\n") }
{
    let (mut worker, mut place) = (Buffer::new(), Buffer::new());
    let (by, node) = (worker.format(by), place.format(node));
    let name = cut_name(cut);
    format!(in alloc; "cut {by} {node} {name}\n")
}

/// The line of a split into these nodes, of which the first has this number.
fn split_line<R: Placed>(
    alloc: Global,
    by: u32,
    node: usize,
    first: usize,
    nodes: &[Node<R>],
) -> Result<String, NoMemory>
    ensures { IfOk result (λ line. string_bytes line
        ≡ codes "split " ++ spec.actors_text by node ++ codes " " ++ decimal first
        ++ sides_text (map (side_born (cut_by_place R.place)) nodes.now) ++ codes "\n") }
{
    let (mut worker, mut place, mut kid) = (Buffer::new(), Buffer::new(), Buffer::new());
    let (by, node, first) = (worker.format(by), place.format(node), kid.format(first));
    let sides = sides_string(alloc, nodes)?;
    format!(in alloc; "split {by} {node} {first}{sides}\n")
}

/// The line of an event of a tree with these nodes, of which those before it have made so many.
fn event_line<R: Placed>(
    alloc: Global,
    nodes: &[Node<R>],
    first: usize,
    event: &Noted<R>,
) -> Result<String, NoMemory>
    requires { first + born_by event.now.deed ≤ length nodes.now }
    ensures { IfOk result (λ line. string_bytes line
        ≡ spec.deed_text event.now.by event.now.node
        (written_deed (cut_by_place R.place) nodes.now first event.now.deed)) }
{
    let (by, node) = (event.by, event.node);
    match &event.deed {
        Deed::Claim => plain_line(alloc, "claim", by, node),
        Deed::Split(count) => { split_line(alloc, by, node, first, &nodes[first..first + *count]) }
        Deed::Finish(_) => plain_line(alloc, "finish", by, node),
        Deed::Cut(leaf) => cut_line(alloc, by, node, leaf.cut()),
        Deed::Release => plain_line(alloc, "release", by, node),
    }
}

/// How many nodes an event makes.
fn born<R: Placed>(event: &Noted<R>) -> usize
    ensures { result ≡ born_by event.now.deed }
{
    match &event.deed {
        Deed::Split(count) => *count,
        Deed::Claim | Deed::Finish(_) | Deed::Cut(_) | Deed::Release => 0,
    }
}

/// The text of the events of a tree with these nodes, which the events have made behind the root.
pub fn write_events<R: Placed>(
    alloc: Global,
    nodes: &[Node<R>],
    events: &[Noted<R>],
) -> Result<Bytes, NoMemory>
    requires { nodes_after 1 events.now ≡ length nodes.now }
    ensures { IfOk result (λ text. text
        ≡ spec.events_text (lines_of (cut_by_place R.place)
        (record { nodes = nodes.now; events = events.now }))) }
{
    let mut text = String::new(alloc);
    let mut first = 1;
    for event in events {
        let line = event_line(alloc, nodes, first, event)?;
        text.push_str(&line)?;
        first += born(event);
    }
    Ok(Bytes::from_vec(text.into_bytes()))
}
