//! Shifts by a row's number.

ghost use Rattle.std.specs.Prelude.{◌≡◌, IfOk, drop};
ghost use Rattle.circuit_spec.specs.Shifts.{moved, next_stage, shift_end, shift_row};
ghost use Rattle.bit_blast.specs.Staging.{stage_of};

use crate::gates::{Gates, constant};
use crate::rows::{copies, joined};
use circuit_spec::{Direction, Gate};
use cnf_form::Lit;
use std::alloc::{AllocError as NoMemory, Global};

// A row on its way through the shifter.
#[derive(Drop)]
struct Stage {
    row: Vec<Lit>,
    // What the next bit of the distance is worth.
    unit: u128,
    // Whether the distance is the width or more.
    big: Lit,
}

// The row without its lowest places.
fn without_low(alloc: Global, count: usize, row: &[Lit]) -> Result<Vec<Lit>, NoMemory>
    ensures { IfOk result (λ r. r.items ≡ drop count row.now) }
{
    row.iter().skip(count).copied().collect(alloc)
}

// The row moved by so many places.
fn moved(
    alloc: Global,
    direction: Direction,
    fill: Lit,
    by: usize,
    row: &[Lit],
) -> Result<Vec<Lit>, NoMemory>
    ensures { IfOk result (λ r. r.items ≡ moved direction fill by row.now) }
{
    let free = copies(alloc, by, fill)?;
    match direction {
        Direction::Up => joined(alloc, &free, &row[..row.len().saturating_sub(by)]),
        Direction::Down => joined(alloc, &without_low(alloc, by, row)?, &free),
    }
}

impl Gates {
    #[tactic(auto, unfolding(circuit_spec::specs::Shifts::next_stage))]
    fn next_stage(
        &mut self,
        direction: Direction,
        fill: Lit,
        width: usize,
        stage: Stage,
        bit: Lit,
    ) -> Result<Stage, NoMemory>
        ensures { IfOk result (λ s. stage_of s self.new
            ≡ next_stage direction fill width (stage_of stage self.old) bit) }
    {
        let Stage { row, unit, big } = stage;
        if unit < width as u128 {
            let other = moved(self.alloc(), direction, fill, unit as usize, &row)?;
            let row = self.each(&Gate::Mux(bit), &other, &row)?;
            return Ok(Stage {
                row,
                unit: unit * 2,
                big,
            });
        }
        let big = self.or(big, bit)?;
        Ok(Stage { row, unit, big })
    }

    #[tactic(auto, unfolding(circuit_spec::specs::Shifts::shift_end))]
    fn shift_end(&mut self, fill: Lit, stage: &Stage) -> Result<Vec<Lit>, NoMemory>
        ensures { IfOk result (λ r. (r.items, self.new)
            ≡ shift_end fill (stage_of stage.now self.old)) }
    {
        let free = copies(self.alloc(), stage.row.len(), fill)?;
        self.each(&Gate::Mux(stage.big), &free, &stage.row)
    }

    /// A row shifted by the number of another: the places that come free have the literal `fill`.
    #[tactic(auto, unfolding(circuit_spec::specs::Shifts::shift_row))]
    pub fn shift(
        &mut self,
        direction: Direction,
        fill: Lit,
        a: &[Lit],
        b: &[Lit],
    ) -> Result<Vec<Lit>, NoMemory>
        ensures { IfOk result (λ r. (r.items, self.new)
            ≡ shift_row direction fill a.now b.now self.old) }
    {
        let mut stage = Stage {
            row: Vec::from_slice(self.alloc(), a)?,
            unit: 1,
            big: constant(false),
        };
        for i in 0..b.len() {
            stage = self.next_stage(direction, fill, a.len(), stage, b[i])?;
        }
        let shifted = self.shift_end(fill, &stage)?;
        Ok(shifted)
    }
}
