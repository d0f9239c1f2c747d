//! The values of literals, what made each true, and the trail: the literals that are true, in their order.

use crate::code::Code;
use cnf_form::Val;
use std::alloc::{AllocError as NoMemory, Global};

/// No clause: the reason of a decision.
pub(crate) const DECIDED: u32 = 0;

/// Why a variable has its value.
#[derive(Clone, Copy, Debug)]
pub(crate) struct Cause {
    /// How many decisions were made before, itself included.
    pub(crate) level: u32,
    /// Its place on the trail.
    pub(crate) place: u32,
    /// The number of the clause that forced it.
    pub(crate) reason: u32,
}

// That of a variable that never had a value.
const NONE: Cause = Cause {
    level: 0,
    place: 0,
    reason: DECIDED,
};

/// Values and trail.
#[derive(Debug)]
pub(crate) struct Assignment {
    /// Whether each literal is true, by its code.
    values: Vec<Option<bool>>,
    /// By variable.
    causes: Vec<Cause>,
    trail: Vec<Code>,
    /// The place on the trail of each decision.
    decisions: Vec<usize>,
    /// The first place on the trail from which nothing was followed yet.
    next: usize,
}

impl Drop for Assignment {
    fn drop(self) {
        let Self {
            values: _values,
            causes: _causes,
            trail: _trail,
            decisions: _decisions,
            next: _next,
        } = self;
    }
}

impl Assignment {
    /// No values of variables up to this one.
    pub(crate) fn new(alloc: Global, last: u32) -> Result<Assignment, NoMemory> {
        let count = last as usize + 1;
        Ok(Assignment {
            values: vec![in alloc; None; count.saturating_mul(2)]?,
            causes: vec![in alloc; NONE; count]?,
            trail: Vec::with_capacity(alloc, count)?,
            decisions: Vec::new(alloc),
            next: 0,
        })
    }

    pub(crate) fn value(&self, literal: Code) -> Option<bool> {
        self.values.get(literal.index()).copied().flatten()
    }

    pub(crate) fn is_true(&self, literal: Code) -> bool {
        matches!(self.value(literal), Some(true))
    }

    pub(crate) fn is_false(&self, literal: Code) -> bool {
        matches!(self.value(literal), Some(false))
    }

    pub(crate) fn cause(&self, literal: Code) -> Cause {
        self.causes.get(literal.place()).copied().unwrap_or(NONE)
    }

    /// The literals that are true, in their order.
    pub(crate) fn trail(&self) -> &[Code] {
        self.trail.as_slice()
    }

    /// How many decisions were made.
    pub(crate) fn level(&self) -> u32 {
        u32::try_from(self.decisions.len()).unwrap_or(u32::MAX)
    }

    fn set(&mut self, literal: Code, value: Option<bool>) {
        if let Some(slot) = self.values.get_mut(literal.index()) {
            *slot = value;
        }
    }

    /// Makes a literal true that this clause forces.
    pub(crate) fn enqueue(&mut self, literal: Code, reason: u32) -> Result<(), NoMemory> {
        let cause = Cause {
            level: self.level(),
            place: u32::try_from(self.trail.len()).unwrap_or(u32::MAX),
            reason,
        };
        self.trail.push(literal)?;
        self.set(literal, Some(true));
        self.set(literal.negated(), Some(false));
        if let Some(slot) = self.causes.get_mut(literal.place()) {
            *slot = cause;
        }
        Ok(())
    }

    /// Makes a literal true by a decision.
    pub(crate) fn decide(&mut self, literal: Code) -> Result<(), NoMemory> {
        self.decisions.push(self.trail.len())?;
        self.enqueue(literal, DECIDED)
    }

    /// The next literal from which nothing was followed yet.
    pub(crate) fn take_next(&mut self) -> Option<Code> {
        let literal = self.trail.get(self.next).copied()?;
        self.next = self.next.saturating_add(1);
        Some(literal)
    }

    /// Where the trail ends once only so many decisions stay.
    pub(crate) fn end_of(&self, level: u32) -> usize {
        match self.decisions.get(level as usize) {
            Some(place) => *place,
            None => self.trail.len(),
        }
    }

    // Takes the last literal from the trail.
    fn pop(&mut self) {
        if let Some(literal) = self.trail.pop() {
            self.set(literal, None);
            self.set(literal.negated(), None);
        }
    }

    /// Goes back to where so many decisions were made.
    pub(crate) fn backjump(&mut self, level: u32) {
        let end = self.end_of(level);
        for _ in end..self.trail.len() {
            self.pop();
        }
        self.decisions.truncate(level as usize);
        self.next = end;
    }

    /// The values of all variables; one with none is false.
    pub(crate) fn valuation(&self, alloc: Global) -> Result<Val, NoMemory> {
        let mut values = Vec::with_capacity(alloc, self.causes.len())?;
        for place in 0..self.causes.len() {
            let is_true = match u32::try_from(place) {
                Ok(variable) => self.is_true(Code::new(variable, true)),
                Err(_) => false,
            };
            values.push(is_true)?;
        }
        Ok(Val::new(values))
    }
}
