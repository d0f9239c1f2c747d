//! Reading the lines that announce inputs, nodes and outputs, and those that say nothing of their own. Each function takes the line that stands at its place.

ghost use Rattle.std.specs.Prelude.{◌≡◌, [], option_map};
ghost use Rattle.smt_text.specs.LineReading as spec;
ghost use Rattle.leaf_reader.specs.ReadingState.{IsNextLine, reading_of};
ghost use Rattle.smt_text.specs.declared.spot.Spot.TheVariants as spot;

use crate::cursor::{behind, one};
use crate::leaf_reading::LeafReading;
use bv_dag::Dag;
use smt_text::Spot;
use std::alloc::Global;

/// A number below 2^32 before the end of the line.
pub fn take_count(text: &[u8]) -> Option<(u32, &[u8])>
    ensures { option_map (λ found. (found.0, found.1.now)) result ≡ spec.count_to_end text.now }
{
    let (count, rest) = one(text, "\n")?;
    Some((u32::try_from(count).ok()?, rest))
}

impl LeafReading {
    /// How many inputs there are.
    #[tactic(auto, unfolding(smt_text::specs::LineReading::next_line, smt_text::specs::Grammar::next_state))]
    pub(crate) fn take_inputs<'a>(&mut self, alloc: Global, text: &'a [u8]) -> Option<&'a [u8]>
        requires here { self.old.place ≡ spot.AtInputs }
        requires no_nodes { self.old.dag.nodes ≡ [] }
        ensures { IsNextLine (reading_of self.old) text.now (reading_of self.new)
            (option_map (λ rest. rest.now) result) }
    {
        let (count, rest) = take_count(behind(text, "; inputs ")?)?;
        self.dag = Dag::new(alloc, count as usize);
        self.place = Spot::AtNodes;
        Some(rest)
    }

    /// How many nodes there are.
    #[tactic(auto, unfolding(smt_text::specs::LineReading::next_line, smt_text::specs::Grammar::next_state))]
    pub(crate) fn take_nodes<'a>(&mut self, text: &'a [u8]) -> Option<&'a [u8]>
        requires { self.old.place ≡ spot.AtNodes }
        ensures { IsNextLine (reading_of self.old) text.now (reading_of self.new)
            (option_map (λ rest. rest.now) result) }
    {
        let (count, rest) = one(behind(text, "; nodes ")?, "\n")?;
        self.node_count = count as usize;
        self.place = Spot::AtOutputs;
        Some(rest)
    }

    /// How many bytes of output there are.
    #[tactic(auto, unfolding(smt_text::specs::LineReading::next_line, smt_text::specs::Grammar::next_state))]
    pub(crate) fn take_outputs<'a>(&mut self, text: &'a [u8]) -> Option<&'a [u8]>
        requires { self.old.place ≡ spot.AtOutputs }
        ensures { IsNextLine (reading_of self.old) text.now (reading_of self.new)
            (option_map (λ rest. rest.now) result) }
    {
        let (count, rest) = take_count(behind(text, "; outputs ")?)?;
        self.output_count = count as usize;
        self.place = Spot::AtLogic;
        Some(rest)
    }

    /// The logic.
    #[tactic(auto, unfolding(smt_text::specs::LineReading::next_line, smt_text::specs::Grammar::next_state))]
    pub(crate) fn take_logic<'a>(&mut self, text: &'a [u8]) -> Option<&'a [u8]>
        requires { self.old.place ≡ spot.AtLogic }
        ensures { IsNextLine (reading_of self.old) text.now (reading_of self.new)
            (option_map (λ rest. rest.now) result) }
    {
        let rest = behind(text, "(set-logic QF_ABV)\n")?;
        self.place = self.behind_inputs();
        Some(rest)
    }

    /// The function that the bytes are of.
    #[tactic(auto, unfolding(smt_text::specs::LineReading::next_line, smt_text::specs::Grammar::next_state))]
    pub(crate) fn take_base<'a>(&mut self, text: &'a [u8]) -> Option<&'a [u8]>
        requires { self.old.place ≡ spot.AtBase }
        ensures { IsNextLine (reading_of self.old) text.now (reading_of self.new)
            (option_map (λ rest. rest.now) result) }
    {
        let rest = behind(
            text,
            "(declare-fun base () (Array (_ BitVec 8) (_ BitVec 8)))\n",
        )?;
        self.place = self.behind_nodes();
        Some(rest)
    }

    /// The exit.
    #[tactic(auto, unfolding(smt_text::specs::LineReading::next_line, smt_text::specs::Grammar::next_state))]
    pub(crate) fn take_exit<'a>(&mut self, text: &'a [u8]) -> Option<&'a [u8]>
        requires { self.old.place ≡ spot.AtExit }
        ensures { IsNextLine (reading_of self.old) text.now (reading_of self.new)
            (option_map (λ rest. rest.now) result) }
    {
        let rest = behind(text, "(exit)\n")?;
        self.place = Spot::Closed;
        Some(rest)
    }
}
