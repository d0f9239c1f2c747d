//! Reading the lines of inputs, nodes, outputs and assertions. Each function takes a line that stands at its place.

ghost use Rattle.std.specs.Prelude.{◌≡◌, ◌<◌, ◌^◌, IfOk, None, option_map};
ghost use Rattle.smt_text.specs.LineReading as spec;
ghost use Rattle.leaf_reader.specs.ReadingState.{IsNextLine, IsPushed, line_said, reading_of};
ghost use Rattle.smt_text.specs.declared.spot.Spot.TheVariants as spot;

use crate::cursor::{behind, one, two};
use crate::leaf_reading::LeafReading;
use crate::term::take_term;
use bv_dag::Node;
use fork_spec::LeafEnd;
use smt_text::Spot;
use std::alloc::AllocError as NoMemory;

/// A node with its number and its width.
#[derive(Clone, Copy, Debug, PartialEq, Eq)]
pub struct NodeSaid {
    pub id: u64,
    pub width: u64,
    pub node: Node,
}

/// The line of a node, whatever its number and its width.
#[tactic(auto, unfolding(smt_text::specs::LineReading::node_line))]
pub fn node_said(text: &[u8]) -> Option<(NodeSaid, &[u8])>
    ensures { option_map (λ found. (line_said found.0, found.1.now)) result
        ≡ spec.node_line text.now }
{
    let rest = behind(text, "(define-fun n")?;
    let ((id, width), rest) = two(rest, " () (_ BitVec ", ") ")?;
    let (node, rest) = take_term(rest)?;
    let rest = behind(rest, ")\n")?;
    Some((NodeSaid { id, width, node }, rest))
}

/// The line of a byte of output: its number, and that of its term.
fn output_said(text: &[u8]) -> Option<((u64, u64), &[u8])>
    ensures { option_map (λ found. (found.0, found.1.now)) result ≡ spec.output_said text.now }
{
    two(
        behind(text, "(define-fun out")?,
        " () (_ BitVec 8) n",
        ")\n",
    )
}

/// The line of an assertion: the number of its term.
pub fn assertion_said(text: &[u8]) -> Option<(u64, &[u8])>
    ensures { option_map (λ found. (found.0, found.1.now)) result ≡ spec.assertion_said text.now }
{
    one(behind(text, "(assert (= n")?, " (_ bv1 1)))\n")
}

impl LeafReading {
    /// The next input.
    #[tactic(auto, unfolding(smt_text::specs::LineReading::next_line, smt_text::specs::Grammar::next_state))]
    pub(crate) fn take_input<'a>(&mut self, text: &'a [u8]) -> Option<&'a [u8]>
        requires here { self.old.place ≡ spot.AmongInputs }
        requires more { self.old.declared < self.old.dag.inputs }
        requires few { self.old.dag.inputs < 2 ^ 32 }
        ensures { IsNextLine (reading_of self.old) text.now (reading_of self.new)
            (option_map (λ rest. rest.now) result) }
    {
        let (i, rest) = one(behind(text, "(declare-fun b")?, " () (_ BitVec 8))\n")?;
        if i as usize != self.declared {
            return None;
        }
        self.declared += 1;
        self.place = self.behind_inputs();
        Some(rest)
    }

    /// Puts the node behind the others, if it is the next and fits, and answers whether it is that wide.
    fn push_node(&mut self, said: NodeSaid) -> Result<bool, NoMemory>
        ensures { IfOk result (λ yes. IsPushed (reading_of self.old) (line_said said)
            (reading_of self.new) yes) }
    {
        let id = self.dag.len();
        if said.id as usize != id || !self.dag.fits(&said.node) {
            return Ok(false);
        }
        self.dag.push(said.node)?;
        Ok(u64::from(self.dag.width_of(id)) == said.width)
    }

    /// The next node.
    pub(crate) fn take_node<'a>(&mut self, text: &'a [u8]) -> Result<Option<&'a [u8]>, NoMemory>
        requires { self.old.place ≡ spot.AmongNodes }
        ensures { IfOk result (λ found. IsNextLine (reading_of self.old) text.now
            (reading_of self.new) (option_map (λ rest. rest.now) found)) }
    {
        let Some((said, rest)) = node_said(text) else {
            return Ok(None);
        };
        if !self.push_node(said)? {
            return Ok(None);
        }
        self.place = self.behind_nodes();
        Ok(Some(rest))
    }

    /// The status.
    #[tactic(auto, unfolding(smt_text::specs::LineReading::next_line, smt_text::specs::Grammar::next_state))]
    pub(crate) fn take_status<'a>(&mut self, text: &'a [u8]) -> Option<&'a [u8]>
        requires { self.old.place ≡ spot.AtStatus }
        ensures { IsNextLine (reading_of self.old) text.now (reading_of self.new)
            (option_map (λ rest. rest.now) result) }
    {
        let (id, rest) = one(behind(text, "(define-fun status () (_ BitVec 8) n")?, ")\n")?;
        let status = id as usize;
        if !self.is_wide(status, 8) {
            return None;
        }
        self.end = LeafEnd::Exits { status };
        self.place = self.behind_outputs();
        Some(rest)
    }

    /// The next byte of output.
    #[tactic(auto, unfolding(smt_text::specs::LineReading::next_line, smt_text::specs::Grammar::next_state))]
    pub(crate) fn take_output<'a>(&mut self, text: &'a [u8]) -> Result<Option<&'a [u8]>, NoMemory>
        requires { self.old.place ≡ spot.AmongOutputs }
        ensures { IfOk result (λ found. IsNextLine (reading_of self.old) text.now
            (reading_of self.new) (option_map (λ rest. rest.now) found)) }
    {
        let Some(((i, id), rest)) = output_said(text) else {
            return Ok(None);
        };
        if i as usize != self.outputs.len() || !self.is_wide(id as usize, 8) {
            return Ok(None);
        }
        self.outputs.push(id as usize)?;
        self.place = self.behind_outputs();
        Ok(Some(rest))
    }

    /// The check, where no assertion stands.
    #[tactic(auto, unfolding(smt_text::specs::LineReading::next_line, smt_text::specs::Grammar::next_state))]
    fn take_check<'a>(&mut self, text: &'a [u8]) -> Option<&'a [u8]>
        requires here { self.old.place ≡ spot.AmongAssertions }
        requires no_assertion { spec.assertion_said text.now ≡ None }
        ensures { IsNextLine (reading_of self.old) text.now (reading_of self.new)
            (option_map (λ rest. rest.now) result) }
    {
        let rest = behind(text, "(check-sat)\n")?;
        self.place = Spot::AtExit;
        Some(rest)
    }

    /// An assertion, or the check.
    #[tactic(auto, unfolding(smt_text::specs::LineReading::next_line, smt_text::specs::Grammar::next_state))]
    pub(crate) fn take_assertion<'a>(
        &mut self,
        text: &'a [u8],
    ) -> Result<Option<&'a [u8]>, NoMemory>
        requires { self.old.place ≡ spot.AmongAssertions }
        ensures { IfOk result (λ found. IsNextLine (reading_of self.old) text.now
            (reading_of self.new) (option_map (λ rest. rest.now) found)) }
    {
        let Some((id, rest)) = assertion_said(text) else {
            return Ok(self.take_check(text));
        };
        if !self.is_wide(id as usize, 1) {
            return Ok(None);
        }
        self.asserted.push(id as usize)?;
        Ok(Some(rest))
    }
}
