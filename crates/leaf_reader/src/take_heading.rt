//! Reading the lines that say what runs a leaf is about. Each function takes the line that stands at its place.

ghost use Rattle.std.specs.Prelude.{◌≡◌, IfOk, option_map};
ghost use Rattle.smt_text.specs.LineReading as spec;
ghost use Rattle.leaf_reader.specs.ReadingState.{IsNextLine, reading_of};
ghost use Rattle.smt_text.specs.declared.spot.Spot.TheVariants as spot;

use crate::cursor::{behind, named, one};
use crate::leaf_reading::LeafReading;
use crate::lists::{take_choices, take_path};
use fork_spec::LeafEnd;
use rv_decode::Trap;
use smt_text::{Ending, Spot};
use std::alloc::{AllocError as NoMemory, Global};
use tree_core::Cause;

const KINDS: [(&str, Option<Cause>); 5] = [
    ("finished\n", None),
    ("steps\n", Some(Cause::Steps)),
    ("targets\n", Some(Cause::Targets)),
    ("conflicts\n", Some(Cause::Conflicts)),
    ("nodes\n", Some(Cause::Nodes)),
];

const ENDINGS: [(&str, Ending); 11] = [
    ("exit\n", Ending::Exit),
    ("running\n", Ending::Running),
    ("Illegal\n", Ending::Trapped(Trap::Illegal)),
    ("FetchMisaligned\n", Ending::Trapped(Trap::FetchMisaligned)),
    ("FetchAccess\n", Ending::Trapped(Trap::FetchAccess)),
    ("LoadMisaligned\n", Ending::Trapped(Trap::LoadMisaligned)),
    ("LoadAccess\n", Ending::Trapped(Trap::LoadAccess)),
    ("StoreMisaligned\n", Ending::Trapped(Trap::StoreMisaligned)),
    ("StoreAccess\n", Ending::Trapped(Trap::StoreAccess)),
    ("Break\n", Ending::Trapped(Trap::Break)),
    ("Call\n", Ending::Trapped(Trap::Call)),
];

/// The budget that was spent, where one was.
fn kind_word(text: &[u8]) -> Option<(Option<Cause>, &[u8])>
    ensures { option_map (λ found. (found.0, found.1.now)) result ≡ spec.kind_word text.now }
{
    named(text, &KINDS)
}

/// How the runs end.
fn end_word(text: &[u8]) -> Option<(Ending, &[u8])>
    ensures { option_map (λ found. (found.0, found.1.now)) result ≡ spec.end_word text.now }
{
    named(text, &ENDINGS)
}

/// The end that a kind and a word stand for, if they agree.
fn end_said(kind: Option<Cause>, said: Ending) -> Option<LeafEnd>
    ensures { result ≡ spec.end_said kind said }
{
    match (kind, said) {
        (None, Ending::Exit) => Some(LeafEnd::Exits { status: 0 }),
        (None, Ending::Trapped(trap)) => Some(LeafEnd::Traps(trap)),
        (Some(cause), Ending::Running) => Some(LeafEnd::Cut(cause)),
        _ => None,
    }
}

impl LeafReading {
    /// The format.
    #[tactic(auto, unfolding(smt_text::specs::LineReading::next_line, smt_text::specs::Grammar::next_state))]
    pub(crate) fn take_format<'a>(&mut self, text: &'a [u8]) -> Option<&'a [u8]>
        requires { self.old.place ≡ spot.AtFormat }
        ensures { IsNextLine (reading_of self.old) text.now (reading_of self.new)
            (option_map (λ rest. rest.now) result) }
    {
        let rest = behind(text, "; rvklee leaf 1\n")?;
        self.place = Spot::AtKind;
        Some(rest)
    }

    /// The kind of the leaf.
    #[tactic(auto, unfolding(smt_text::specs::LineReading::next_line, smt_text::specs::Grammar::next_state))]
    pub(crate) fn take_kind<'a>(&mut self, text: &'a [u8]) -> Option<&'a [u8]>
        requires { self.old.place ≡ spot.AtKind }
        ensures { IsNextLine (reading_of self.old) text.now (reading_of self.new)
            (option_map (λ rest. rest.now) result) }
    {
        let (kind, rest) = kind_word(behind(text, "; kind ")?)?;
        self.kind = kind;
        self.place = Spot::AtChoices;
        Some(rest)
    }

    /// The sides taken at the forks.
    #[tactic(auto, unfolding(smt_text::specs::LineReading::next_line, smt_text::specs::Grammar::next_state))]
    pub(crate) fn take_choices<'a>(
        &mut self,
        alloc: Global,
        text: &'a [u8],
    ) -> Result<Option<&'a [u8]>, NoMemory>
        requires { self.old.place ≡ spot.AtChoices }
        ensures { IfOk result (λ found. IsNextLine (reading_of self.old) text.now
            (reading_of self.new) (option_map (λ rest. rest.now) found)) }
    {
        let Some(list) = behind(text, "; choices ") else {
            return Ok(None);
        };
        let Some((choices, rest)) = take_choices(alloc, list)? else {
            return Ok(None);
        };
        self.choices = choices;
        self.place = Spot::AtPath;
        Ok(Some(rest))
    }

    /// What the branches and the JALRs of the runs do.
    #[tactic(auto, unfolding(smt_text::specs::LineReading::next_line, smt_text::specs::Grammar::next_state))]
    pub(crate) fn take_path<'a>(
        &mut self,
        alloc: Global,
        text: &'a [u8],
    ) -> Result<Option<&'a [u8]>, NoMemory>
        requires { self.old.place ≡ spot.AtPath }
        ensures { IfOk result (λ found. IsNextLine (reading_of self.old) text.now
            (reading_of self.new) (option_map (λ rest. rest.now) found)) }
    {
        let Some(list) = behind(text, "; path ") else {
            return Ok(None);
        };
        let Some((path, rest)) = take_path(alloc, list)? else {
            return Ok(None);
        };
        self.path = path;
        self.place = Spot::AtSteps;
        Ok(Some(rest))
    }

    /// The steps of the runs.
    #[tactic(auto, unfolding(smt_text::specs::LineReading::next_line, smt_text::specs::Grammar::next_state))]
    pub(crate) fn take_steps<'a>(&mut self, text: &'a [u8]) -> Option<&'a [u8]>
        requires { self.old.place ≡ spot.AtSteps }
        ensures { IsNextLine (reading_of self.old) text.now (reading_of self.new)
            (option_map (λ rest. rest.now) result) }
    {
        let (steps, rest) = one(behind(text, "; steps ")?, "\n")?;
        self.steps = u32::try_from(steps).ok()?;
        self.place = Spot::AtEnd;
        Some(rest)
    }

    /// How the runs end.
    #[tactic(auto, unfolding(smt_text::specs::LineReading::next_line, smt_text::specs::Grammar::next_state))]
    pub(crate) fn take_end<'a>(&mut self, text: &'a [u8]) -> Option<&'a [u8]>
        requires { self.old.place ≡ spot.AtEnd }
        ensures { IsNextLine (reading_of self.old) text.now (reading_of self.new)
            (option_map (λ rest. rest.now) result) }
    {
        let (said, rest) = end_word(behind(text, "; end ")?)?;
        self.end = end_said(self.kind, said)?;
        self.place = Spot::AtInputs;
        Some(rest)
    }
}
