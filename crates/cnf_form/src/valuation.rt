//! Valuations: a truth value for each variable.

ghost use Rattle.std.specs.Prelude.{◌≡◌};
ghost use Rattle.cnf_form.specs.Valuations.{literal_value, satisfies_clause, satisfies, valuation};

use crate::clause::Clause;
use crate::clauses::Clauses;
use crate::formula::Cnf;
use crate::literal::Lit;
use std::marker::Model;

/// Truth values: that of variable k at place k. The variables past the end are false.
#[derive(Clone, Debug, Drop)]
pub struct Val {
    values: Vec<bool>,
}

impl Model for Val {
    ghost use Rattle.std.specs.Prelude.{List, Bool};

    ghost Value = { List Bool };

    ghost view = { λ v. v.values.items };
}

fn value_at(values: &[bool], variable: u32) -> bool
    ensures { result ≡ valuation values.now variable }
{
    match values.get(variable as usize) {
        Some(value) => *value,
        None => false,
    }
}

fn literal_value(values: &[bool], literal: Lit) -> bool
    ensures { result ≡ literal_value (valuation values.now) literal }
{
    value_at(values, literal.variable()) == literal.is_positive()
}

#[tactic(auto, unfolding(crate::specs::Valuations::satisfies_clause))]
fn satisfies_clause(values: &[bool], literals: &[Lit]) -> bool
    ensures { result ≡ satisfies_clause (valuation values.now) literals.now }
{
    literals.iter().any(|l| literal_value(values, *l))
}

fn satisfies(values: &[bool], clauses: &Clauses) -> bool
    ensures { result ≡ satisfies (valuation values.now) clauses.now }
{
    for place in 0..clauses.len() {
        if !satisfies_clause(values, clauses.at(place)) {
            return false;
        }
    }
    true
}

impl Val {
    pub fn new(values: Vec<bool>) -> Val
        ensures { result ≡ values.items }
    {
        Val { values }
    }

    /// The truth value of a variable.
    pub fn value(&self, variable: u32) -> bool
        ensures { result ≡ valuation self.now variable }
    {
        value_at(&self.values, variable)
    }

    /// Whether one of the clause's literals is true.
    pub(crate) fn satisfies_clause(&self, clause: &Clause) -> bool
        ensures { result ≡ satisfies_clause (valuation self.now) clause.now }
    {
        satisfies_clause(&self.values, clause.literals())
    }

    /// Whether each clause is satisfied.
    pub fn satisfies(&self, formula: &Cnf) -> bool
        ensures { result ≡ satisfies (valuation self.now) formula.now }
    {
        satisfies(&self.values, formula.clauses())
    }
}
