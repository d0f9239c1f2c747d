//! Literals as numbers: 2 v + 1 for the variable v, and 2 v for its negation.

use cnf_form::Lit;

/// A literal, by which tables are read.
#[derive(Clone, Copy, Debug, PartialEq, Eq)]
pub(crate) struct Code(u32);

impl Code {
    /// Of a variable below 2^31.
    pub(crate) fn new(variable: u32, positive: bool) -> Code {
        Code(variable.wrapping_mul(2) | u32::from(positive))
    }

    pub(crate) fn of(literal: Lit) -> Code {
        Code::new(literal.variable(), literal.is_positive())
    }

    pub(crate) fn negated(self) -> Code {
        Code(self.0 ^ 1)
    }

    pub(crate) fn is_positive(self) -> bool {
        self.0 % 2 == 1
    }

    pub(crate) fn variable(self) -> u32 {
        self.0 / 2
    }

    /// The literal's place in a table of literals.
    pub(crate) fn index(self) -> usize {
        self.0 as usize
    }

    /// The place of its variable in a table of variables.
    pub(crate) fn place(self) -> usize {
        self.variable() as usize
    }

    /// None of no variable, which there is none.
    pub(crate) fn literal(self) -> Option<Lit> {
        let variable = self.variable();
        if variable == 0 {
            return None;
        }
        Some(Lit::new(variable, self.is_positive()))
    }
}
