//! Rows of literals, the lowest first, and what is made of them with few gates.

ghost use Rattle.std.specs.Prelude.{◌≡◌, ◌++◌, ◌∷◌, IfOk, replicate, take, drop};
ghost use Rattle.circuit_spec.specs.Formulas.{constant};
ghost use Rattle.circuit_spec.specs.Gates.{gate_of};
ghost use Rattle.circuit_spec.specs.Rows.{negations, number_row, zeros, top_of, with_top_negated, fresh_row, each};

use crate::gates::{Gates, constant};
use circuit_spec::Gate;
use cnf_form::Lit;
use std::alloc::{AllocError as NoMemory, Global};

/// The negation of each literal.
pub fn negations(alloc: Global, row: &[Lit]) -> Result<Vec<Lit>, NoMemory>
    ensures { IfOk result (λ r. r.items ≡ negations row.now) }
{
    row.iter().map(|l| l.negated()).collect(alloc)
}

/// The lowest `width` bits of a number.
pub(crate) fn number_row(alloc: Global, width: usize, number: u64) -> Result<Vec<Lit>, NoMemory>
    ensures { IfOk result (λ r. r.items ≡ number_row width number) }
{
    let mut row = Vec::with_capacity(alloc, width)?;
    let mut rest = number;
    for _place in 0..width {
        row.push(constant(rest % 2 == 1))?;
        rest /= 2;
    }
    Ok(row)
}

/// So many copies of a literal.
pub(crate) fn copies(alloc: Global, width: usize, literal: Lit) -> Result<Vec<Lit>, NoMemory>
    ensures { IfOk result (λ r. r.items ≡ replicate width literal) }
{
    vec![in alloc; literal; width]
}

/// The last literal, and false where there is none.
pub(crate) fn top_of(row: &[Lit]) -> Lit
    ensures { result ≡ top_of row.now }
{
    if row.is_empty() {
        return constant(false);
    }
    row[row.len() - 1]
}

/// The row with its last literal negated.
pub(crate) fn with_top_negated(alloc: Global, row: &[Lit]) -> Result<Vec<Lit>, NoMemory>
    ensures { IfOk result (λ r. r.items ≡ with_top_negated row.now) }
{
    let mut negated = Vec::from_slice(alloc, row)?;
    if !row.is_empty() {
        negated[row.len() - 1] = top_of(row).negated();
    }
    Ok(negated)
}

/// One row, and another above it.
pub fn joined(alloc: Global, low: &[Lit], high: &[Lit]) -> Result<Vec<Lit>, NoMemory>
    ensures { IfOk result (λ r. r.items ≡ low.now ++ high.now) }
{
    let mut row = Vec::with_capacity(alloc, low.len())?;
    row.extend_from_slice(low)?;
    row.extend_from_slice(high)?;
    Ok(row)
}

impl Gates {
    /// So many new variables.
    pub(crate) fn fresh_row(&mut self, width: usize) -> Result<Vec<Lit>, NoMemory>
        ensures { IfOk result (λ r. (r.items, self.new) ≡ fresh_row width self.old) }
    {
        let mut row = Vec::with_capacity(self.alloc(), width)?;
        for _place in 0..width {
            row.push(self.variable()?)?;
        }
        Ok(row)
    }

    /// One gate for each place of two rows, from the low end.
    pub fn each(&mut self, gate: &Gate, a: &[Lit], b: &[Lit]) -> Result<Vec<Lit>, NoMemory>
        ensures { IfOk result (λ r. (r.items, self.new)
            ≡ each (gate_of gate.now) a.now b.now self.old) }
    {
        let width = a.len().min(b.len());
        let mut row = Vec::with_capacity(self.alloc(), width)?;
        for i in 0..width {
            let literal = self.gate(gate, a[i], b[i])?;
            row.push(literal)?;
        }
        Ok(row)
    }
}
