//! The trail: the literals that are true, in the order in which they became so.

ghost use Rattle.std.specs.Prelude.{◌≡◌, ℕ, ◌+◌, ◌-◌, ◌<◌, ◌↔◌, [], ◌++◌, IfOk, OnOk, OnErr, None, true, false, replicate, length, map, take, unwrap_or, option_to_list, slice_get, slice_index_or, IsTrue, Some};
ghost use Rattle.cnf_form.specs.Literals.{Literal};
ghost use Rattle.cnf_form.specs.Valuations.{literal_value, valuation};
ghost use Rattle.cnf_form.specs.Propagation.{is_true, is_false};
ghost use Rattle.cdcl_core.specs.Trails.{trail_values, with_entry, free_count};
ghost use Rattle.cdcl_core.specs.Passes.{IsFree};
ghost use Rattle.cdcl_core.specs.declared.trail.Entry.{Entry};

use cnf_form::{Lit, Val};
use std::alloc::{AllocError as NoMemory, Global};
use std::marker::Model;

/// A literal that is true, and the number of the clause that forced it, or none if it was decided.
#[derive(Clone, Copy, Debug)]
pub struct Entry {
    pub literal: Lit,
    pub reason: Option<usize>,
}

/// Entries in their order, with the values of the variables and the numbers of their entries, by the variables' numbers.
#[derive(Debug)]
pub struct Trail {
    marks: Vec<Option<bool>>,
    numbers: Vec<usize>,
    entries: Vec<Entry>,
}

impl Drop for Trail {
    fn drop(self) {
        let Self {
            marks: _marks,
            numbers: _numbers,
            entries: _entries,
        } = self;
    }
}

impl Model for Trail {
    ghost use Rattle.cdcl_core.specs.Trails.{Assignment, IsKept};

    ghost Value = { Assignment };

    ghost view = { λ t. record { marks = t.marks.items; entries = t.entries.items } };

    ghost invariant = { λ t. IsKept t.marks.items t.numbers.items t.entries.items };
}

impl Trail {
    /// No variable of those below `size` has a value.
    pub fn new(alloc: Global, size: usize) -> Result<Trail, NoMemory>
        ensures { IfOk result (λ t. t ≡ record { marks = replicate size None; entries = [] }) }
    {
        Ok(Trail {
            marks: vec![in alloc; None; size]?,
            numbers: vec![in alloc; 0; size]?,
            entries: Vec::new(alloc),
        })
    }

    pub fn entries(&self) -> &[Entry]
        ensures value { result.now ≡ self.now.entries }
    {
        self.entries.as_slice()
    }

    /// How many variables may have a value: those with a smaller number.
    pub fn size(&self) -> usize
        ensures { result ≡ length self.now.marks }
    {
        self.marks.len()
    }

    /// The value of a variable, if it has one.
    pub fn value(&self, variable: u32) -> Option<bool>
        ensures { result ≡ trail_values self.now.entries variable }
    {
        match self.marks.get(variable as usize) {
            Some(value) => *value,
            None => None,
        }
    }

    pub fn is_true(&self, literal: Lit) -> bool
        ensures { result ≡ is_true (trail_values self.now.entries) literal }
    {
        match self.value(literal.variable()) {
            Some(value) => value == literal.is_positive(),
            None => false,
        }
    }

    pub fn is_false(&self, literal: Lit) -> bool
        ensures { result ≡ is_false (trail_values self.now.entries) literal }
    {
        match self.value(literal.variable()) {
            Some(value) => value == !literal.is_positive(),
            None => false,
        }
    }

    /// The number, from 1, of the entry that gave the literal's variable its value.
    pub fn number(&self, literal: Lit) -> usize
        ensures after { (n : ℕ) → n < result
            → trail_values (take n self.now.entries) literal.variable ≡ None }
        ensures of_its_entry { (p : ℕ) (e : Entry) → slice_get self.now.entries p ≡ Some e
            → e.literal.variable ≡ literal.variable → result ≡ p + 1 }
    {
        number_of(&self.numbers, literal.variable())
    }

    /// Makes a literal true.
    pub fn push(&mut self, entry: Entry) -> Result<(), NoMemory>
        requires { IsFree (trail_values self.old.entries) (length self.old.marks) entry.literal }
        ensures ok { OnOk result (self.new ≡ with_entry self.old entry) }
        ensures err { OnErr result (self.new ≡ self.old) }
        ensures fewer { OnOk result (free_count self.new.marks < free_count self.old.marks) }
    {
        let place = entry.literal.variable() as usize;
        let value = Some(entry.literal.is_positive());
        self.entries.push(entry)?;
        self.marks[place] = value;
        self.numbers[place] = self.entries.len();
        Ok(())
    }

    /// Takes the last entry away, if there is one.
    pub fn pop(&mut self) -> Option<Entry>
        ensures entries { self.old.entries ≡ self.new.entries ++ option_to_list result }
        ensures one_less { length self.new.entries ≡ length self.old.entries - 1 }
        ensures size { length self.new.marks ≡ length self.old.marks }
    {
        let entry = self.entries.pop()?;
        let place = entry.literal.variable() as usize;
        self.marks[place] = None;
        Some(entry)
    }

    /// Keeps the first `len` entries.
    pub fn cut(&mut self, len: usize)
        ensures entries { self.new.entries ≡ take len self.old.entries }
        ensures size { length self.new.marks ≡ length self.old.marks }
    {
        while self.entries().len() > len {
            self.pop();
        }
    }

    /// Whether the literal's variable may have a value, and has none.
    pub(crate) fn is_free(&self, literal: Lit) -> bool
        ensures { IsTrue result
            ↔ IsFree (trail_values self.now.entries) (length self.now.marks) literal }
    {
        (literal.variable() as usize) < self.size() && self.value(literal.variable()).is_none()
    }

    /// A valuation in which each literal is true that is true here.
    pub fn valuation(&self, alloc: Global) -> Result<Val, NoMemory>
        ensures { IfOk result (λ v. (l : Literal) → is_true (trail_values self.now.entries) l ≡ true
            → literal_value (valuation v) l ≡ true) }
    {
        Ok(Val::new(values(alloc, &self.marks)?))
    }
}

fn number_of(numbers: &[usize], variable: u32) -> usize
    ensures { result ≡ slice_index_or numbers.now variable 0 }
{
    match numbers.get(variable as usize) {
        Some(number) => *number,
        None => 0,
    }
}

fn values(alloc: Global, marks: &[Option<bool>]) -> Result<Vec<bool>, NoMemory>
    ensures { IfOk result (λ v. v.items ≡ map (λ m. unwrap_or m false) marks.now) }
{
    marks.iter().map(|m| m.unwrap_or(false)).collect(alloc)
}
