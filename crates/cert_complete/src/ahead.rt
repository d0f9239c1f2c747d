//! Assignments that lines ahead give for the leaves below a node. Nothing rests on them: of lines that are out of place some may be
//! another node's.

use byte_list::Bytes;
use cert_form::{CertLine, Side};

fn open_sides(sides: &[Side]) -> usize {
    sides.iter().filter(|side| side.cut.is_none()).count()
}

// How many nodes are ahead behind a line, where so many were before it.
fn nodes_behind(nodes: usize, line: &CertLine) -> usize {
    match line {
        CertLine::Split(sides) => nodes
            .saturating_add(open_sides(sides.as_slice()))
            .saturating_sub(1),
        CertLine::End(_) | CertLine::CutSteps(_) | CertLine::CutNodes => nodes.saturating_sub(1),
        _ => nodes,
    }
}

/// The first assignment of a leaf below the node that lines begin with.
pub(crate) fn input_ahead(lines: &[CertLine]) -> Option<&Bytes> {
    let mut nodes = 1;
    for line in lines {
        if let CertLine::End(input) | CertLine::CutSteps(input) = line {
            return Some(input);
        }
        nodes = nodes_behind(nodes, line);
        if nodes == 0 {
            return None;
        }
    }
    None
}

fn is_of_node(line: &CertLine) -> bool {
    matches!(
        line,
        CertLine::One(_)
            | CertLine::Split(_)
            | CertLine::End(_)
            | CertLine::CutSteps(_)
            | CertLine::CutNodes
    )
}

// The lines from a node's first on.
fn from_node(lines: &[CertLine]) -> &[CertLine] {
    for at in 0..lines.len() {
        if is_of_node(&lines[at]) {
            return &lines[at..];
        }
    }
    &[]
}

// The lines behind the leaves below the node that lines begin with, from the next node's on.
fn behind_node(lines: &[CertLine]) -> &[CertLine] {
    let mut nodes = 1;
    for at in 0..lines.len() {
        nodes = nodes_behind(nodes, &lines[at]);
        if nodes == 0 {
            return from_node(&lines[at + 1..]);
        }
    }
    &[]
}

/// The first assignment of a leaf below the second side of the split that lines begin with, if neither side before it is cut.
pub(crate) fn second_input(lines: &[CertLine]) -> Option<&Bytes> {
    let [CertLine::Split(sides), rest @ ..] = lines else {
        return None;
    };
    let [first, second, ..] = sides.as_slice() else {
        return None;
    };
    if first.cut.is_some() || second.cut.is_some() {
        return None;
    }
    input_ahead(behind_node(rest))
}
