//! Bits of a term.

ghost use Rattle.std.specs.Prelude.{◌≡◌, ◌<◌, ◌≤◌, ◌+◌, ◌==◌, ◌&&◌, true, IfSome, IfNone};
ghost use Rattle.bv_dag.specs.Graphs.{IsDag};
ghost use Rattle.bv_dag.specs.Nodes.{Fits, widths_of};
ghost use Rattle.term_trees.specs.Trees.{tree_of, tree_width};
ghost use Rattle.term_simplify.specs.Plans.{Follows, Makes, IsSpan, IsInner, rest_of, within_widened};
ghost use Rattle.term_simplify.specs.Plain.{inner_part, span_of};

use crate::known::Known;
use crate::plan::{Plan, number, number_at, under_zeros, zero};
use crate::recipe::{Above, Recipe, stacked};
use bv_dag::Node;

/// The bits of a term from `high` down to `low`.
#[derive(Clone, Copy, Debug)]
pub(crate) struct Span {
    pub high: u32,
    pub low: u32,
    pub operand: usize,
}

/// Bits of an operand, with `by` further bits above them: copies of the top one, or zeros.
#[derive(Clone, Copy, Debug)]
pub(crate) struct Inner {
    span: Span,
    by: u32,
    signed: bool,
}

/// Bits with no further ones above.
fn same(span: Span) -> Inner
    ensures { result ≡ record { span = span; by = 0; signed = true } }
{
    Inner {
        span,
        by: 0,
        signed: true,
    }
}

/// Bits of a term with `signed` above it, as those of the term, where they don't lie in zeros.
fn within_widened(high: u32, low: u32, signed: bool, width: u32, operand: usize) -> Option<Inner>
    requires not_empty { 0 < width }
    requires order { low ≤ high }
    requires at_most_64 { high < 64 }
    ensures { result ≡ within_widened high low signed width operand }
{
    if high < width {
        Some(same(Span { high, low, operand }))
    } else if low < width {
        let span = Span {
            high: width - 1,
            low,
            operand,
        };
        Some(Inner {
            span,
            by: high + 1 - width,
            signed,
        })
    } else if signed {
        let span = Span {
            high: width - 1,
            low: width - 1,
            operand,
        };
        Some(Inner {
            span,
            by: high - low,
            signed: true,
        })
    } else {
        None
    }
}

/// Whether they are all bits of the term.
fn is_whole(terms: &Known, span: Span) -> bool
    requires { IsSpan terms.now span }
    ensures { result ≡ (span.low == 0
        && span.high + 1 == tree_width (tree_of terms.now span.operand)) }
{
    let width = terms.width_of(span.operand);
    span.low == 0 && span.high + 1 == width
}

/// The same bits, as those of an operand in which they lie or begin.
fn within_operand(terms: &Known, span: Span) -> Option<Inner>
    requires { IsSpan terms.now span }
    ensures some { IfSome result (λ inner. IsInner terms.now span inner) }
    ensures none { IfNone result
        (inner_part span.high span.low (tree_of terms.now span.operand)
        ≡ rest_of span.high span.low (tree_of terms.now span.operand)) }
    ensures fit { IsDag terms.now }
{
    let Span { high, low, operand } = span;
    let node = terms.node(operand);
    if is_whole(terms, span) {
        return None;
    }
    match node {
        Node::Extract {
            low: below,
            operand,
            ..
        } => Some(same(Span {
            high: high + below,
            low: low + below,
            operand,
        })),
        Node::Extend {
            signed,
            operand,
            ..
        } => { within_widened(high, low, signed, terms.width_of(operand), operand) }
        Node::Concat {
            high: upper,
            low: lower,
        } => {
            let width = terms.width_of(lower);
            if high < width {
                Some(same(Span {
                    high,
                    low,
                    operand: lower,
                }))
            } else if width <= low {
                Some(same(Span {
                    high: high - width,
                    low: low - width,
                    operand: upper,
                }))
            } else {
                None
            }
        }
        _ => None,
    }
}

/// Bits that are not those of an operand alone.
fn span_plan(terms: &Known, span: Span) -> Plan
    requires { IsSpan terms.now span }
    ensures { Makes terms.now result (span_of span.high span.low (tree_of terms.now span.operand)) }
{
    let Span { high, low, operand } = span;
    match number_at(terms, operand) {
        Some(x) => number(x.extracted(high, low)),
        None => {
            if low == 0 && high + 1 == terms.width_of(operand) {
                Plan::Term(operand)
            } else {
                Plan::Push(Node::Extract { high, low, operand })
            }
        }
    }
}

/// Bits that are not those of an operand alone: zeros where they lie above one.
fn rest(terms: &Known, span: Span) -> Plan
    requires { IsSpan terms.now span }
    ensures makes { Makes terms.now result
        (rest_of span.high span.low (tree_of terms.now span.operand)) }
    ensures fit { IsDag terms.now }
{
    match under_zeros(terms, span.operand) {
        Some(narrow) => {
            if terms.width_of(narrow) <= span.low {
                number(zero(span.high - span.low + 1))
            } else {
                span_plan(terms, span)
            }
        }
        None => span_plan(terms, span),
    }
}

/// The bits of a term from `high` down to `low`.
pub(crate) fn part(terms: &Known, high: u32, low: u32, operand: usize) -> Recipe
    requires { Fits terms.now.inputs (widths_of terms.now.nodes) (Node.Extract high low operand) }
    ensures makes { Follows terms.now result (inner_part high low (tree_of terms.now operand)) }
    ensures fit { IsDag terms.now }
{
    let mut span = Span { high, low, operand };
    let mut above = Above { signs: 0, zeros: 0 };
    while let Some(inner) = within_operand(terms, span) {
        above = stacked(above, inner.by, inner.signed);
        span = inner.span;
    }
    Recipe {
        core: rest(terms, span),
        above,
    }
}
