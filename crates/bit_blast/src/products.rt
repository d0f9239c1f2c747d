//! Products, quotients and remainders.

ghost use Rattle.std.specs.Prelude.{◌≡◌, ◌∷◌, [], ◌++◌, false, IfOk};
ghost use Rattle.circuit_spec.specs.Formulas.{constant};
ghost use Rattle.circuit_spec.specs.Rows.{negations};
ghost use Rattle.circuit_spec.specs.Products.{partial_row, mul_row, brought_down, division_step, divided, udiv_row, urem_row};

use crate::gates::{Gates, constant};
use crate::rows::{copies, joined, negations};
use circuit_spec::Gate;
use cnf_form::Lit;
use std::alloc::{AllocError as NoMemory, Global};

// The row above one more literal, with its highest dropped.
fn brought_down(alloc: Global, literal: Lit, row: &[Lit]) -> Result<Vec<Lit>, NoMemory>
    ensures { IfOk result (λ r. r.items ≡ brought_down literal row.now) }
{
    let kept = row.len().saturating_sub(1);
    joined(alloc, &[literal], &row[..kept])
}

// The negations of a divisor's bits and of a zero above them.
fn negated_divisor(alloc: Global, row: &[Lit]) -> Result<Vec<Lit>, NoMemory>
    ensures { IfOk result (λ r. r.items ≡ negations (row.now ++ constant false ∷ [])) }
{
    let above = joined(alloc, row, &[constant(false)])?;
    negations(alloc, &above)
}

impl Gates {
    // What the bit at place `low` of one factor adds to the product.
    #[tactic(auto, unfolding(circuit_spec::specs::Products::partial_row))]
    fn partial(&mut self, a: &[Lit], low: usize, bit: Lit) -> Result<Vec<Lit>, NoMemory>
        ensures { IfOk result (λ r. (r.items, self.new) ≡ partial_row a.now low bit self.old) }
    {
        let zeros = copies(self.alloc(), low, constant(false))?;
        let width = a.len().saturating_sub(low);
        let bits = copies(self.alloc(), width, bit)?;
        let high = self.each(&Gate::And, &a[..width], &bits)?;
        let row = joined(self.alloc(), &zeros, &high)?;
        Ok(row)
    }

    pub fn mul(&mut self, a: &[Lit], b: &[Lit]) -> Result<Vec<Lit>, NoMemory>
        ensures { IfOk result (λ r. (r.items, self.new) ≡ mul_row a.now b.now self.old) }
    {
        let mut total = copies(self.alloc(), a.len(), constant(false))?;
        for i in 0..b.len() {
            let partial = self.partial(a, i, b[i])?;
            total = self.add(&total, &partial)?;
        }
        Ok(total)
    }

    // The next bit of the quotient, and the rest that is left.
    #[tactic(auto, unfolding(circuit_spec::specs::Products::division_step))]
    fn division_step(
        &mut self,
        a: Lit,
        divisor: &[Lit],
        rest: &[Lit],
    ) -> Result<(Lit, Vec<Lit>), NoMemory>
        ensures { IfOk result (λ r. record { bit = r.0; rest = r.1.items; formula = self.new }
            ≡ division_step a divisor.now rest.now self.old) }
    {
        let shifted = brought_down(self.alloc(), a, rest)?;
        let (difference, carry) = self.adder(&shifted, divisor, constant(true))?;
        let left = self.each(&Gate::Mux(carry), &difference, &shifted)?;
        Ok((carry, left))
    }

    // The quotient, and the remainder with a zero above it.
    fn divide(&mut self, a: &[Lit], b: &[Lit]) -> Result<(Vec<Lit>, Vec<Lit>), NoMemory>
        ensures { IfOk result (λ r.
            record { quotient = r.0.items; rest = r.1.items; formula = self.new }
            ≡ divided a.now b.now self.old) }
    {
        let divisor = negated_divisor(self.alloc(), b)?;
        let mut rest = copies(self.alloc(), b.len(), constant(false))?;
        rest.push(constant(false))?;
        let mut quotient = Vec::with_capacity(self.alloc(), a.len())?;
        for i in (0..a.len()).rev() {
            let (bit, left) = self.division_step(a[i], &divisor, &rest)?;
            quotient.push(bit)?;
            rest = left;
        }
        quotient.reverse();
        Ok((quotient, rest))
    }

    /// All ones where the divisor is 0.
    pub fn udiv(&mut self, a: &[Lit], b: &[Lit]) -> Result<Vec<Lit>, NoMemory>
        ensures { IfOk result (λ r. (r.items, self.new) ≡ udiv_row a.now b.now self.old) }
    {
        let (quotient, _) = self.divide(a, b)?;
        Ok(quotient)
    }

    /// The dividend where the divisor is 0.
    pub fn urem(&mut self, a: &[Lit], b: &[Lit]) -> Result<Vec<Lit>, NoMemory>
        ensures { IfOk result (λ r. (r.items, self.new) ≡ urem_row a.now b.now self.old) }
    {
        let (_, mut rest) = self.divide(a, b)?;
        rest.truncate(a.len());
        Ok(rest)
    }
}
