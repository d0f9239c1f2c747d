//! The values of variables while a clause is checked.

ghost use Rattle.std.specs.Prelude.{◌≡◌, ◌<◌, ◌+◌, ◌-◌, ◌^◌, ◌++◌, [], OnOk, OnErr, replicate, vec_len};
ghost use Rattle.cnf_form.specs.Propagation.{unassigned, assign};
ghost use Rattle.proof_check.specs.Marking.{marked};

use cnf_form::Lit;
use std::alloc::{AllocError as NoMemory, Global};
use std::marker::Model;

/// The last value of a variable, and the round in which it was given.
#[derive(Clone, Copy, Debug)]
pub struct Mark {
    pub round: usize,
    pub positive: bool,
}

/// The value of each variable, by its number. A value counts in the round in which it was given, so that a new round
/// begins without a walk over the marks. No value is given in round 0.
#[derive(Debug)]
pub struct Marks {
    marks: Vec<Mark>,
    round: usize,
}

impl Drop for Marks {
    fn drop(self) {
        let Self {
            marks: _marks,
            round: _round,
        } = self;
    }
}

impl Model for Marks {
    ghost use Rattle.std.specs.Prelude.{List, Option, Bool, map};
    ghost use Rattle.proof_check.specs.Marking.{value_in, AreMarks};

    ghost Value = { List (Option Bool) };

    ghost view = { λ m. map (value_in m.round) m.marks.items };

    ghost invariant = { λ m. AreMarks m.round m.marks.items };
}

const UNMARKED: Mark = Mark {
    round: 0,
    positive: false,
};

// Makes room for a mark at this place.
fn reach(marks: &mut Vec<Mark>, place: usize) -> Result<(), NoMemory>
    requires { place < 2 ^ 32 }
    ensures there { OnOk result (place < vec_len marks.new) }
    ensures items { OnOk result (marks.new.items
        ≡ marks.old.items ++ replicate (place + 1 - vec_len marks.old) UNMARKED) }
    ensures err { OnErr result (marks.new.items ≡ marks.old.items) }
{
    if marks.len() <= place {
        marks.resize(place + 1, UNMARKED)?;
    }
    Ok(())
}

impl Marks {
    /// No variable has a value.
    pub fn new(alloc: Global) -> Marks
        ensures { result ≡ [] }
    {
        Marks {
            marks: Vec::new(alloc),
            round: 1,
        }
    }

    /// Takes every value away. Behind the last round that can be counted the marks themselves go.
    pub fn clear(&mut self)
        ensures { marked self.new ≡ unassigned }
    {
        match self.round.checked_add(1) {
            Some(next) => self.round = next,
            None => {
                self.marks.clear();
                self.round = 1;
            }
        }
    }

    /// Makes a literal true.
    pub(crate) fn assign(&mut self, literal: Lit) -> Result<(), NoMemory>
        ensures ok { OnOk result (marked self.new ≡ assign (marked self.old) literal) }
        ensures err { OnErr result (self.new ≡ self.old) }
    {
        let place = literal.variable() as usize;
        reach(&mut self.marks, place)?;
        self.marks[place] = Mark {
            round: self.round,
            positive: literal.is_positive(),
        };
        Ok(())
    }

    /// The value of a variable, if it has one.
    pub fn value(&self, variable: u32) -> Option<bool>
        ensures { result ≡ marked self.now variable }
    {
        match self.marks.get(variable as usize) {
            Some(mark) if mark.round == self.round => Some(mark.positive),
            _ => None,
        }
    }
}
