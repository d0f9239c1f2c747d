//! Terms, each with its ends, which are found where it is put: so what is known of a term is known however deep it is.

ghost use Rattle.std.specs.Prelude.{◌≡◌, ◌<◌, ◌≤◌, [], IfOk, OnOk, OnErr, Some, length, slice_get, take};
ghost use Rattle.bv_dag.specs.Graphs.{IsDag, width_of, with_node};
ghost use Rattle.bv_dag.specs.Nodes.{Fits, widths_of};
ghost use Rattle.term_trees.specs.Trees.{node_tree, tree_of};
ghost use Rattle.term_simplify.specs.Ends as ends;
ghost use Rattle.term_simplify.specs.Ends.{AreEnds};

use crate::ends::{Ends, any, complement, either, joined, only, part, two, widened};
use bv_dag::{Node, Word};
use cow_vec::CowVec;
use std::alloc::{AllocError as NoMemory, Global};
use std::marker::Model;
use term_table::Terms;

/// The ends of a term, as many bits wide as the term.
#[derive(Clone, Copy, Debug)]
struct Bounds {
    least: u64,
    greatest: u64,
}

/// A table of terms with their ends, in chunks that copies share.
#[derive(Drop)]
pub(crate) struct Known {
    terms: Terms,
    ends: CowVec<Bounds>,
}

impl Model for Known {
    ghost use Rattle.bv_dag.specs.Graphs.{Graph};
    ghost use Rattle.term_simplify.specs.Kept.{AreKept};

    ghost Value = { Graph };

    ghost view = { λ k. k.terms };

    ghost invariant = { λ k. AreKept k.terms k.ends };
}

impl Known {
    /// No terms yet, over so many input bytes.
    pub(crate) fn new(alloc: Global, inputs: usize) -> Known
        ensures { result ≡ record { inputs = inputs; nodes = [] } }
    {
        Known {
            terms: Terms::new(alloc, inputs),
            ends: CowVec::new(alloc),
        }
    }

    /// The terms alone.
    pub(crate) fn terms(&self) -> &Terms
        ensures { result.now ≡ self.now }
    {
        &self.terms
    }

    pub(crate) fn len(&self) -> usize
        ensures { result ≡ length self.now.nodes }
    {
        self.terms.len()
    }

    pub(crate) fn node(&self, id: usize) -> Node
        requires { id < length self.now.nodes }
        ensures is { slice_get self.now.nodes id ≡ Some result }
        ensures fit { IsDag self.now }
    {
        self.terms.node(id)
    }

    pub(crate) fn width_of(&self, id: usize) -> u32
        requires { id < length self.now.nodes }
        ensures value { result ≡ width_of self.now id }
        ensures not_empty { 0 < result }
        ensures at_most_64 { result ≤ 64 }
    {
        self.terms.width_of(id)
    }

    /// The least and the greatest value of a term.
    pub(crate) fn ends_of(&self, id: usize) -> Ends
        requires { id < length self.now.nodes }
        ensures is { result ≡ ends.ends_of (tree_of self.now id) }
        ensures wide { AreEnds (width_of self.now id) result }
        ensures fit { IsDag self.now }
    {
        let width = self.terms.width_of(id);
        let kept = self.ends.get(id).unwrap();
        Ends {
            least: Word::new(width, kept.least),
            greatest: Word::new(width, kept.greatest),
        }
    }

    // The least and the greatest value of the term that a node is.
    fn node_ends(&self, node: Node) -> Ends
        requires { Fits self.now.inputs (widths_of self.now.nodes) node }
        ensures { result ≡ ends.ends_of (node_tree (tree_of self.now) node) }
    {
        match node {
            Node::Num { width, value } => only(Word::new(width, value)),
            Node::Not(a) => complement(self.ends_of(a)),
            Node::Binary(op, a, b) => two(op, self.ends_of(a), self.ends_of(b)),
            Node::Ite { yes, no, .. } => either(self.ends_of(yes), self.ends_of(no)),
            Node::Extract { high, low, operand } => part(high, low, self.ends_of(operand)),
            Node::Extend {
                by,
                signed,
                operand,
            } => widened(by, signed, self.ends_of(operand)),
            Node::Concat { high, low } => joined(self.ends_of(high), self.ends_of(low)),
            Node::Input(_) => any(8),
            Node::Neg(a) => any(self.width_of(a)),
            Node::Compare(..) => any(1),
        }
    }

    /// Puts the node behind the others, and answers its place.
    pub(crate) fn push(&mut self, node: Node) -> Result<usize, NoMemory>
        requires { Fits self.old.inputs (widths_of self.old.nodes) node }
        ensures place { IfOk result (λ id. id ≡ length self.old.nodes) }
        ensures ok { OnOk result (self.new ≡ with_node self.old node) }
        ensures err { OnErr result (self.new ≡ self.old) }
    {
        let len = self.terms.len();
        let ends = self.node_ends(node);
        self.ends.push(Bounds {
            least: ends.least.number(),
            greatest: ends.greatest.number(),
        })?;
        match self.terms.push(node) {
            Ok(id) => Ok(id),
            Err(error) => {
                self.ends.truncate(len);
                Err(error)
            }
        }
    }

    /// Keeps the first `len` terms, or all where there are no more. It takes no memory.
    pub(crate) fn truncate(&mut self, len: usize)
        ensures { self.new ≡ record { inputs = self.old.inputs; nodes = take len self.old.nodes } }
    {
        self.terms.truncate(len);
        self.ends.truncate(len);
    }

    /// An equal table, which shares the chunks. It takes memory for the tables of references alone.
    pub(crate) fn share(&self) -> Result<Known, NoMemory>
        ensures { IfOk result (λ other. other ≡ self.now) }
    {
        Ok(Known {
            terms: self.terms.share()?,
            ends: self.ends.share()?,
        })
    }
}
