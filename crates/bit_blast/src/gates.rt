//! Formulas that grow by the clauses of gates.

ghost use Rattle.std.specs.Prelude.{◌≡◌, ◌∷◌, [], IfOk, OnOk};
ghost use Rattle.circuit_spec.specs.Formulas.{constant, next_variable, with_variable, with_clause, only_truth};
ghost use Rattle.circuit_spec.specs.Gates.{and_gate, or_gate, xor_gate, mux_gate, xor3_gate, majority_gate, gate_of};

use circuit_spec::Gate;
use cnf_form::{Cnf, Lit};
use std::alloc::{AllocError as NoMemory, Global};
use std::marker::Model;

/// The literal of variable 1, which the first clause makes true, or its negation.
pub(crate) fn constant(value: bool) -> Lit
    ensures { result ≡ constant value }
{
    Lit::new(1, value)
}

/// A formula, and how many variables it has.
#[derive(Debug)]
pub struct Gates {
    alloc: Global,
    variables: u32,
    formula: Cnf,
}

impl Drop for Gates {
    fn drop(self) {
        let Self {
            alloc: _alloc,
            variables: _variables,
            formula: _formula,
        } = self;
    }
}

impl Model for Gates {
    ghost use Rattle.circuit_spec.specs.Formulas.{Formula};

    ghost Value = { Formula };

    ghost view = { λ g. record { variables = g.variables; clauses = g.formula } };
}

impl Gates {
    /// Variable 1, and the clause that makes it true.
    #[tactic(auto, unfolding(circuit_spec::specs::Formulas::only_truth))]
    pub fn new(alloc: Global) -> Result<Gates, NoMemory>
        ensures { IfOk result (λ g. g ≡ only_truth) }
    {
        let mut gates = Gates {
            alloc,
            variables: 1,
            formula: Cnf::new(alloc),
        };
        gates.clause(&[constant(true)])?;
        Ok(gates)
    }

    pub fn alloc(&self) -> Global {
        self.alloc
    }

    /// The clauses.
    pub(crate) fn into_formula(self) -> Cnf
        ensures { result ≡ self.clauses }
    {
        let Self {
            alloc: _alloc,
            variables: _variables,
            formula,
        } = self;
        formula
    }

    /// A new variable.
    pub fn variable(&mut self) -> Result<Lit, NoMemory>
        ensures literal { IfOk result (λ o. o ≡ next_variable self.old) }
        ensures formula { OnOk result (self.new ≡ with_variable self.old) }
    {
        self.variables = self.variables.checked_add(1).ok_or(NoMemory)?;
        Ok(Lit::new(self.variables, true))
    }

    /// One more clause, unless it is always true.
    #[tactic(auto, unfolding(circuit_spec::specs::Formulas::with_clause))]
    pub fn clause(&mut self, literals: &[Lit]) -> Result<(), NoMemory>
        ensures { OnOk result (self.new ≡ with_clause literals.now self.old) }
    {
        self.formula.push(literals)
    }

    /// A literal that is true where both are.
    #[tactic(auto, unfolding(circuit_spec::specs::Gates::and_gate))]
    pub fn and(&mut self, a: Lit, b: Lit) -> Result<Lit, NoMemory>
        ensures { IfOk result (λ o. (o, self.new) ≡ and_gate a b self.old) }
    {
        let o = self.variable()?;
        self.clause(&[o.negated(), a])?;
        self.clause(&[o.negated(), b])?;
        self.clause(&[o, a.negated(), b.negated()])?;
        Ok(o)
    }

    /// A literal that is true where one of them is, or both.
    #[tactic(auto, unfolding(circuit_spec::specs::Gates::or_gate))]
    pub fn or(&mut self, a: Lit, b: Lit) -> Result<Lit, NoMemory>
        ensures { IfOk result (λ o. (o, self.new) ≡ or_gate a b self.old) }
    {
        let neither = self.and(a.negated(), b.negated())?;
        Ok(neither.negated())
    }

    /// A literal that is true where just one of them is.
    #[tactic(auto, unfolding(circuit_spec::specs::Gates::xor_gate))]
    pub fn xor(&mut self, a: Lit, b: Lit) -> Result<Lit, NoMemory>
        ensures { IfOk result (λ o. (o, self.new) ≡ xor_gate a b self.old) }
    {
        let o = self.variable()?;
        self.clause(&[o.negated(), a, b])?;
        self.clause(&[o.negated(), a.negated(), b.negated()])?;
        self.clause(&[o, a.negated(), b])?;
        self.clause(&[o, a, b.negated()])?;
        Ok(o)
    }

    /// A literal that is as the second where the first is true, else as the third.
    #[tactic(auto, unfolding(circuit_spec::specs::Gates::mux_gate))]
    pub(crate) fn mux(&mut self, c: Lit, a: Lit, b: Lit) -> Result<Lit, NoMemory>
        ensures { IfOk result (λ o. (o, self.new) ≡ mux_gate c a b self.old) }
    {
        let o = self.variable()?;
        self.clause(&[c.negated(), a.negated(), o])?;
        self.clause(&[c.negated(), a, o.negated()])?;
        self.clause(&[c, b.negated(), o])?;
        self.clause(&[c, b, o.negated()])?;
        Ok(o)
    }

    /// A literal that is true where an odd number of the three is.
    #[tactic(auto, unfolding(circuit_spec::specs::Gates::xor3_gate))]
    pub(crate) fn xor3(&mut self, a: Lit, b: Lit, c: Lit) -> Result<Lit, NoMemory>
        ensures { IfOk result (λ o. (o, self.new) ≡ xor3_gate a b c self.old) }
    {
        let o = self.variable()?;
        self.clause(&[a, b, c, o.negated()])?;
        self.clause(&[a, b, c.negated(), o])?;
        self.clause(&[a, b.negated(), c, o])?;
        self.clause(&[a, b.negated(), c.negated(), o.negated()])?;
        self.clause(&[a.negated(), b, c, o])?;
        self.clause(&[a.negated(), b, c.negated(), o.negated()])?;
        self.clause(&[a.negated(), b.negated(), c, o.negated()])?;
        self.clause(&[a.negated(), b.negated(), c.negated(), o])?;
        Ok(o)
    }

    /// A literal that is true where two or three of the three are.
    #[tactic(auto, unfolding(circuit_spec::specs::Gates::majority_gate))]
    pub(crate) fn majority(&mut self, a: Lit, b: Lit, c: Lit) -> Result<Lit, NoMemory>
        ensures { IfOk result (λ o. (o, self.new) ≡ majority_gate a b c self.old) }
    {
        let o = self.variable()?;
        self.clause(&[a.negated(), b.negated(), o])?;
        self.clause(&[a.negated(), c.negated(), o])?;
        self.clause(&[b.negated(), c.negated(), o])?;
        self.clause(&[a, b, o.negated()])?;
        self.clause(&[a, c, o.negated()])?;
        self.clause(&[b, c, o.negated()])?;
        Ok(o)
    }

    pub fn gate(&mut self, gate: &Gate, a: Lit, b: Lit) -> Result<Lit, NoMemory>
        ensures { IfOk result (λ o. (o, self.new) ≡ gate_of gate.now a b self.old) }
    {
        match gate {
            Gate::And => self.and(a, b),
            Gate::Or => self.or(a, b),
            Gate::Xor => self.xor(a, b),
            Gate::Mux(c) => self.mux(*c, a, b),
        }
    }
}
