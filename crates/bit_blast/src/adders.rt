//! Sums, differences and comparisons.

ghost use Rattle.std.specs.Prelude.{◌≡◌, IfOk};
ghost use Rattle.circuit_spec.specs.Formulas.{constant};
ghost use Rattle.circuit_spec.specs.Rows.{adder, add_row, sub_row, neg_row, ult_gate, slt_gate, equal_gate};

use crate::gates::{Gates, constant};
use crate::rows::{copies, negations, with_top_negated};
use cnf_form::Lit;
use std::alloc::AllocError as NoMemory;

impl Gates {
    /// The sums of two rows and a carry, and the last carry.
    pub(crate) fn adder(
        &mut self,
        a: &[Lit],
        b: &[Lit],
        carry: Lit,
    ) -> Result<(Vec<Lit>, Lit), NoMemory>
        ensures { IfOk result (λ r. record { sums = r.0.items; carry = r.1; formula = self.new }
            ≡ adder a.now b.now carry self.old) }
    {
        let width = a.len().min(b.len());
        let mut carry = carry;
        let mut sums = Vec::with_capacity(self.alloc(), width)?;
        for i in 0..width {
            let (x, y) = (a[i], b[i]);
            let sum = self.xor3(x, y, carry)?;
            sums.push(sum)?;
            carry = self.majority(x, y, carry)?;
        }
        Ok((sums, carry))
    }

    pub fn add(&mut self, a: &[Lit], b: &[Lit]) -> Result<Vec<Lit>, NoMemory>
        ensures { IfOk result (λ r. (r.items, self.new) ≡ add_row a.now b.now self.old) }
    {
        let (sums, _) = self.adder(a, b, constant(false))?;
        Ok(sums)
    }

    pub fn sub(&mut self, a: &[Lit], b: &[Lit]) -> Result<Vec<Lit>, NoMemory>
        ensures { IfOk result (λ r. (r.items, self.new) ≡ sub_row a.now b.now self.old) }
    {
        let complement = negations(self.alloc(), b)?;
        let (sums, _) = self.adder(a, &complement, constant(true))?;
        Ok(sums)
    }

    pub fn neg(&mut self, a: &[Lit]) -> Result<Vec<Lit>, NoMemory>
        ensures { IfOk result (λ r. (r.items, self.new) ≡ neg_row a.now self.old) }
    {
        let zeros = copies(self.alloc(), a.len(), constant(false))?;
        self.sub(&zeros, a)
    }

    /// Whether one number is less than another.
    pub fn ult(&mut self, a: &[Lit], b: &[Lit]) -> Result<Lit, NoMemory>
        ensures { IfOk result (λ o. (o, self.new) ≡ ult_gate a.now b.now self.old) }
    {
        let complement = negations(self.alloc(), b)?;
        let (_sums, carry) = self.adder(a, &complement, constant(true))?;
        Ok(carry.negated())
    }

    /// The same with sign.
    pub fn slt(&mut self, a: &[Lit], b: &[Lit]) -> Result<Lit, NoMemory>
        ensures { IfOk result (λ o. (o, self.new) ≡ slt_gate a.now b.now self.old) }
    {
        let left = with_top_negated(self.alloc(), a)?;
        let right = with_top_negated(self.alloc(), b)?;
        self.ult(&left, &right)
    }

    /// Whether two rows are equal.
    pub fn equal(&mut self, a: &[Lit], b: &[Lit]) -> Result<Lit, NoMemory>
        ensures { IfOk result (λ o. (o, self.new) ≡ equal_gate a.now b.now self.old) }
    {
        let mut same = constant(true);
        for i in 0..a.len().min(b.len()) {
            let differs = self.xor(a[i], b[i])?;
            same = self.and(same, differs.negated())?;
        }
        Ok(same)
    }
}
