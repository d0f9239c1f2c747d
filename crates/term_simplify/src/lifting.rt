//! Bits of a complement and of a choice, as the complement and a choice of bits of what these are made of.

ghost use Rattle.std.specs.Prelude.{◌≡◌, ◌<◌, ◌-◌, ◌+◌, ◌||◌, ℕ, is_some, IfNone, IfOk, IfSome, OnErr, length};
ghost use Rattle.bv_dag.specs.Graphs.{IsDag};
ghost use Rattle.bv_dag.specs.Nodes.{Fits, widths_of};
ghost use Rattle.term_trees.specs.Growth.{Continues};
ghost use Rattle.term_trees.specs.Trees.{tree_of, node_tree, IsTerm};
ghost use Rattle.term_simplify.specs.Builds.{BuildsAs};
ghost use Rattle.term_simplify.specs.Plain.{inner_part, lifted, plain, tree_number};
ghost use Rattle.term_simplify.specs.Plans.{IsSpan, RecipeFits, recipe_tree};
ghost use Rattle.term_simplify.specs.Lifting.{IsLifting, lifting_tree, node_span, part_tree};

use crate::builder::Builder;
use crate::choices::choice;
use crate::ends::part_told;
use crate::known::Known;
use crate::parts::{Span, part};
use crate::plan::{Plan, complement, number, number_at};
use crate::recipe::Recipe;
use bv_dag::Node;
use std::alloc::AllocError as NoMemory;

/// How many complements and choices bits are taken through.
const LEVELS: u32 = 8;

/// What bits of a complement or of a choice are made of.
#[derive(Clone, Copy, Debug)]
pub(crate) enum Lifting {
    OfComplement(Span),
    OfChoice {
        condition: usize,
        yes: Span,
        no: Span,
    },
}

/// The bits that a node is.
fn node_span(node: Node) -> Option<Span>
    ensures { result ≡ node_span node }
{
    match node {
        Node::Extract { high, low, operand } => Some(Span { high, low, operand }),
        _ => None,
    }
}

/// The bits that a recipe makes, if there are no further ones above.
fn span_made(terms: &Known, recipe: Recipe) -> Option<Span>
    requires { RecipeFits terms.now recipe }
    ensures some { IfSome result (λ span. IsSpan terms.now span) }
    ensures is { IfSome result (λ span. recipe_tree terms.now recipe ≡ part_tree terms.now span) }
    ensures none { IfNone result ((levels : ℕ) → lifted levels (recipe_tree terms.now recipe)
        ≡ recipe_tree terms.now recipe) }
{
    if recipe.above.signs > 0 || recipe.above.zeros > 0 {
        return None;
    }
    match recipe.core {
        Plan::Term(id) => node_span(terms.node(id)),
        Plan::Push(node) => node_span(node),
    }
}

/// Whether one of two terms is a number.
fn has_number(terms: &Known, a: usize, b: usize) -> bool
    requires first { a < length terms.now.nodes }
    requires second { b < length terms.now.nodes }
    ensures { result ≡ (is_some (tree_number (tree_of terms.now a))
        || is_some (tree_number (tree_of terms.now b))) }
{
    number_at(terms, a).is_some() || number_at(terms, b).is_some()
}

/// What bits are made of.
fn lifting_at(terms: &Known, span: Span) -> Option<Lifting>
    requires { IsSpan terms.now span }
    ensures some { IfSome result (λ m. IsLifting terms.now m) }
    ensures is { IfSome result (λ m. (levels : ℕ) → lifted (levels + 1) (part_tree terms.now span)
        ≡ lifting_tree terms.now levels m) }
    ensures none { IfNone result ((levels : ℕ) → lifted levels (part_tree terms.now span)
        ≡ part_tree terms.now span) }
    ensures fit { IsDag terms.now }
{
    let Span { high, low, operand } = span;
    match terms.node(operand) {
        Node::Not(operand) => Some(Lifting::OfComplement(Span { high, low, operand })),
        Node::Ite { condition, yes, no } => {
            if has_number(terms, yes, no) {
                Some(Lifting::OfChoice {
                    condition,
                    yes: Span {
                        high,
                        low,
                        operand: yes,
                    },
                    no: Span {
                        high,
                        low,
                        operand: no,
                    },
                })
            } else {
                None
            }
        }
        _ => None,
    }
}

/// What a recipe is made as, where so many levels may still be gone down.
fn lifting_of(terms: &Known, levels: u32, recipe: Recipe) -> Option<Lifting>
    requires { RecipeFits terms.now recipe }
    ensures some { IfSome result (λ m. IsLifting terms.now m) }
    ensures further { IfSome result (λ m. 0 < levels) }
    ensures is { IfSome result (λ m. lifted levels (recipe_tree terms.now recipe)
        ≡ lifting_tree terms.now (levels - 1) m) }
    ensures none { IfNone result (lifted levels (recipe_tree terms.now recipe)
        ≡ recipe_tree terms.now recipe) }
{
    if levels == 0 {
        return None;
    }
    match span_made(terms, recipe) {
        Some(span) => lifting_at(terms, span),
        None => None,
    }
}

impl Builder {
    /// Bits of a term, or only some of the terms that they stand on.
    fn lifted(&mut self, levels: u32, span: Span) -> Result<usize, NoMemory>
        requires { IsSpan self.old span }
        ensures continues { Continues self.old self.new }
        ensures there { IfOk result (λ id. id < length self.new.nodes) }
        ensures tree { IfOk result (λ id. tree_of self.new id
            ≡ lifted levels (inner_part span.high span.low (tree_of self.old span.operand))) }
        ensures fit { IsDag self.old }
    {
        let recipe = part(self.known(), span.high, span.low, span.operand);
        let Some(lifting) = lifting_of(self.known(), levels, recipe) else {
            return self.followed(recipe);
        };
        match lifting {
            Lifting::OfComplement(under) => {
                let bits = self.lifted(levels - 1, under)?;
                let plan = complement(self.known(), bits);
                self.stand(plan)
            }
            Lifting::OfChoice { condition, yes, no } => {
                let first = self.lifted(levels - 1, yes)?;
                let second = self.lifted(levels - 1, no)?;
                let plan = choice(self.known(), condition, first, second);
                self.stand(plan)
            }
        }
    }

    /// The bits of a term from `high` down to `low`.
    pub(crate) fn bits(&mut self, high: u32, low: u32, operand: usize) -> Result<usize, NoMemory>
        requires { Fits self.old.inputs (widths_of self.old.nodes) (Node.Extract high low operand) }
        ensures ok { IfOk result (BuildsAs (plain (tree_of self.old) (Node.Extract high low operand))
            self.old self.new (Node.Extract high low operand)) }
        ensures err { OnErr result (self.new ≡ self.old) }
        ensures term { IsTerm self.old.inputs
            (node_tree (tree_of self.old) (Node.Extract high low operand)) }
    {
        match part_told(high, low, self.known().ends_of(operand)) {
            Some(word) => self.stand(number(word)),
            None => {
                let len = self.len();
                let answer = self.lifted(LEVELS, Span { high, low, operand });
                self.settled(len, answer)
            }
        }
    }
}
