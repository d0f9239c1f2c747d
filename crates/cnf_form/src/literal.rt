//! Literals: variables and their negations.

ghost use Rattle.std.specs.Prelude.{◌≡◌, ◌<◌};
ghost use Rattle.cnf_form.specs.Literals.{negation};

use std::marker::Model;

/// A variable, numbered from 1, or its negation.
#[derive(Clone, Copy, Debug, PartialEq, Eq)]
pub struct Lit {
    variable: u32,
    positive: bool,
}

impl Model for Lit {
    ghost use Rattle.std.specs.Prelude.{◌<◌};
    ghost use Rattle.cnf_form.specs.Literals.{Literal};

    ghost Value = { Literal };

    ghost view = { λ l. record { variable = l.variable; positive = l.positive } };

    ghost invariant = { λ l. 0 < l.variable };

    ghost inverse = { λ l. record { variable = l.variable; positive = l.positive } };
}

impl Lit {
    pub fn new(variable: u32, positive: bool) -> Lit
        requires { 0 < variable }
        ensures { result ≡ record { variable = variable; positive = positive } }
    {
        Lit { variable, positive }
    }

    pub fn variable(self) -> u32
        ensures value { result ≡ self.variable }
        ensures from_one { 0 < result }
    {
        self.variable
    }

    /// Whether this is the variable itself.
    pub fn is_positive(self) -> bool
        ensures { result ≡ self.positive }
    {
        self.positive
    }

    /// The literal that is true where this one is false.
    pub fn negated(self) -> Lit
        ensures { result ≡ negation self }
    {
        Lit {
            variable: self.variable,
            positive: !self.positive,
        }
    }
}
