//! The table.

ghost use Rattle.std.specs.Prelude.{◌≡◌, ◌↔◌, ◌<◌, ◌≤◌, [], IsTrue, IfOk, OnOk, OnErr, Some, length, slice_get, take};
ghost use Rattle.bv_dag.specs.Nodes.{Fits, widths_of};

use crate::entry::{TableEntry, entry_at, width_at};
use crate::values::words_of_first;
use bv_dag::{Node, Table, Widths};
use cow_vec::CowVec;
use std::alloc::{AllocError as NoMemory, Global};
use std::marker::Model;

/// Terms over bit-vectors, each built of earlier ones, in chunks that copies share.
pub struct Terms {
    inputs: usize,
    entries: CowVec<TableEntry>,
}

impl Drop for Terms {
    fn drop(self) {
        let Self {
            inputs: _inputs,
            entries: _entries,
        } = self;
    }
}

impl Model for Terms {
    ghost use Rattle.std.specs.Prelude.{◌≡◌};
    ghost use Rattle.bv_dag.specs.Graphs.{Graph, IsDag};
    ghost use Rattle.bv_dag.specs.Nodes.{widths_of};
    ghost use Rattle.term_table.specs.Entries.{nodes_of, kept_widths};

    ghost Value = { Graph };

    ghost view = { λ t. record { inputs = t.inputs; nodes = nodes_of t.entries } };

    ghost invariant = { λ t. IsDag (record { inputs = t.inputs; nodes = nodes_of t.entries })
        × (kept_widths t.entries ≡ widths_of (nodes_of t.entries)) };
}

impl Widths for Terms {
    ghost use Rattle.bv_dag.specs.Nodes.{widths_of};

    ghost widths = { λ t. widths_of t.nodes };

    fn width_at(&self, id: usize) -> u32 {
        width_at(&self.entries, id)
    }
}

impl Table for Terms {
    ghost graph = { λ t. t };

    fn inputs(&self) -> usize {
        self.inputs
    }

    fn node(&self, id: usize) -> Node {
        entry_at(&self.entries, id).node
    }
}

impl Terms {
    ghost use Rattle.bv_dag.specs.Graphs.{IsDag, with_node, number_of, width_of};

    /// No terms yet, over so many input bytes.
    pub fn new(alloc: Global, inputs: usize) -> Terms
        ensures { result ≡ record { inputs = inputs; nodes = [] } }
    {
        Terms {
            inputs,
            entries: CowVec::new(alloc),
        }
    }

    pub fn inputs(&self) -> usize
        ensures { result ≡ self.now.inputs }
    {
        self.inputs
    }

    pub fn len(&self) -> usize
        ensures { result ≡ length self.now.nodes }
    {
        self.entries.len()
    }

    pub fn is_empty(&self) -> bool
        ensures { IsTrue result ↔ (length self.now.nodes ≡ 0) }
    {
        self.entries.is_empty()
    }

    pub fn node(&self, id: usize) -> Node
        requires { id < length self.now.nodes }
        ensures is { slice_get self.now.nodes id ≡ Some result }
        ensures fit { IsDag self.now }
    {
        entry_at(&self.entries, id).node
    }

    pub fn width_of(&self, id: usize) -> u32
        requires { id < length self.now.nodes }
        ensures value { result ≡ width_of self.now id }
        ensures not_empty { 0 < result }
        ensures at_most_64 { result ≤ 64 }
    {
        entry_at(&self.entries, id).width
    }

    /// Whether the node may be pushed.
    pub fn fits(&self, node: &Node) -> bool
        ensures { IsTrue result ↔ Fits self.now.inputs (widths_of self.now.nodes) node.now }
    {
        node.fits(self.inputs, self)
    }

    /// Puts the node behind the others, and answers its place.
    pub fn push(&mut self, node: Node) -> Result<usize, NoMemory>
        requires { Fits self.old.inputs (widths_of self.old.nodes) node }
        ensures place { IfOk result (λ id. id ≡ length self.old.nodes) }
        ensures ok { OnOk result (self.new ≡ with_node self.old node) }
        ensures err { OnErr result (self.new ≡ self.old) }
    {
        let width = node.width(&*self);
        let id = self.entries.len();
        self.entries.push(TableEntry { node, width })?;
        Ok(id)
    }

    /// Keeps the first `len` terms, or all where there are no more. It takes no memory.
    pub fn truncate(&mut self, len: usize)
        ensures { self.new ≡ record { inputs = self.old.inputs; nodes = take len self.old.nodes } }
    {
        self.entries.truncate(len);
    }

    /// An equal table, which shares the chunks. It takes memory for the table of references alone.
    pub fn share(&self) -> Result<Terms, NoMemory>
        ensures { IfOk result (λ other. other ≡ self.now) }
    {
        Ok(Terms {
            inputs: self.inputs,
            entries: self.entries.share()?,
        })
    }

    /// What the term at a place is worth, given one byte for each input. It evaluates the terms up
    /// to that place.
    pub fn value_of(&self, alloc: Global, id: usize, input: &[u8]) -> Result<u64, NoMemory>
        requires there { id < length self.now.nodes }
        requires each_input { length input.now ≡ self.now.inputs }
        ensures { IfOk result (λ number. number ≡ number_of self.now id input.now) }
    {
        let words = words_of_first(alloc, &self.entries, id, input)?;
        let word = entry_at(&self.entries, id).node.value(&words, input);
        Ok(word.number())
    }
}
