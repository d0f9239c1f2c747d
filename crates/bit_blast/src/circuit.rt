//! The literals of terms, each from those of earlier ones.

ghost use Rattle.std.specs.Prelude.{◌≡◌, ◌+◌, ◌∷◌, [], IfOk, OnOk, take, drop, replicate, None, slice_index_or};
ghost use Rattle.circuit_spec.specs.Circuits.{row_at, lowest_of, binary_row, compare_gate, extension_of, with_row, with_input, circuit_with, no_terms, with_asserted};
ghost use Rattle.circuit_spec.specs.Gates.{mux_gate};
ghost use Rattle.circuit_spec.specs.Rows.{each};

use crate::encoding::Encoding;
use crate::gates::{Gates, constant};
use crate::row::Row;
use crate::rows::{copies, joined, negations, number_row, top_of};
use bv_dag::{BinaryOp, Comparison, Node};
use circuit_spec::{Direction, Gate};
use cnf_form::Lit;
use std::alloc::{AllocError as NoMemory, Global};
use std::marker::Model;

/// A formula, the literals of each input byte that has occurred, and those of each term so far.
#[derive(Debug)]
pub struct Circuit {
    gates: Gates,
    inputs: Vec<Option<Row>>,
    rows: Vec<Row>,
}

impl Drop for Circuit {
    fn drop(self) {
        let Self {
            gates: _gates,
            inputs: _inputs,
            rows: _rows,
        } = self;
    }
}

impl Model for Circuit {
    ghost use Rattle.circuit_spec.specs.Circuits.{Circuit as CircuitValue};

    ghost Value = { CircuitValue };

    ghost view = { λ c. record { formula = c.gates; inputs = c.inputs.items; rows = c.rows.items } };
}

// The literals of the term at a place, and none past the end.
fn row_at(rows: &[Row], id: usize) -> &[Lit]
    ensures { result.now ≡ row_at rows.now id }
{
    match rows.get(id) {
        Some(row) => &row.literals,
        None => &[],
    }
}

// The first literal, and false where there is none.
fn lowest_of(row: &[Lit]) -> Lit
    ensures { result ≡ lowest_of row.now }
{
    match row.first() {
        Some(literal) => *literal,
        None => constant(false),
    }
}

// What stands above the top of an extended row.
fn extension_of(signed: bool, row: &[Lit]) -> Lit
    ensures { result ≡ extension_of signed row.now }
{
    if signed { top_of(row) } else { constant(false) }
}

// The places from `low` to `high`.
fn extracted(alloc: Global, high: u32, low: u32, row: &[Lit]) -> Result<Vec<Lit>, NoMemory>
    ensures { IfOk result (λ r. r.items ≡ drop low (take (high + 1) row.now)) }
{
    let places = row.iter().take(high as usize + 1);
    places.skip(low as usize).copied().collect(alloc)
}

#[tactic(auto, unfolding(circuit_spec::specs::Circuits::binary_row))]
fn binary_row(gates: &mut Gates, op: BinaryOp, a: &[Lit], b: &[Lit]) -> Result<Vec<Lit>, NoMemory>
    ensures { IfOk result (λ r. (r.items, gates.new) ≡ binary_row op a.now b.now gates.old) }
{
    match op {
        BinaryOp::Add => gates.add(a, b),
        BinaryOp::Sub => gates.sub(a, b),
        BinaryOp::Mul => gates.mul(a, b),
        BinaryOp::Udiv => gates.udiv(a, b),
        BinaryOp::Urem => gates.urem(a, b),
        BinaryOp::And => gates.each(&Gate::And, a, b),
        BinaryOp::Or => gates.each(&Gate::Or, a, b),
        BinaryOp::Xor => gates.each(&Gate::Xor, a, b),
        BinaryOp::Shl => gates.shift(Direction::Up, constant(false), a, b),
        BinaryOp::Lshr => gates.shift(Direction::Down, constant(false), a, b),
        BinaryOp::Ashr => gates.shift(Direction::Down, top_of(a), a, b),
    }
}

#[tactic(auto, unfolding(circuit_spec::specs::Circuits::compare_gate))]
fn compare_gate(gates: &mut Gates, op: Comparison, a: &[Lit], b: &[Lit]) -> Result<Lit, NoMemory>
    ensures { IfOk result (λ o. (o, gates.new) ≡ compare_gate op a.now b.now gates.old) }
{
    match op {
        Comparison::Ult => gates.ult(a, b),
        Comparison::Slt => gates.slt(a, b),
        Comparison::Eq => gates.equal(a, b),
    }
}

fn choice_row(
    gates: &mut Gates,
    condition: Lit,
    yes: &[Lit],
    no: &[Lit],
) -> Result<Vec<Lit>, NoMemory>
    ensures { IfOk result (λ r. (r.items, gates.new)
        ≡ each (mux_gate condition) yes.now no.now gates.old) }
{
    gates.each(&Gate::Mux(condition), yes, no)
}

// A clause for each term that is asserted.
#[tactic(auto, unfolding(circuit_spec::specs::Circuits::with_asserted))]
fn assert_each(gates: &mut Gates, rows: &[Row], asserted: &[usize]) -> Result<(), NoMemory>
    ensures { OnOk result (gates.new ≡ with_asserted rows.now asserted.now gates.old) }
{
    for id in asserted {
        gates.clause(&[lowest_of(row_at(rows, *id))])?;
    }
    Ok(())
}

// No input byte has literals yet.
fn no_inputs(alloc: Global, inputs: usize) -> Result<Vec<Option<Row>>, NoMemory>
    ensures { IfOk result (λ v. v.items ≡ replicate inputs None) }
{
    let mut none = Vec::with_capacity(alloc, inputs)?;
    for _input in 0..inputs {
        none.push(None)?;
    }
    Ok(none)
}

impl Circuit {
    /// No terms yet, over so many input bytes.
    pub fn new(alloc: Global, inputs: usize) -> Result<Circuit, NoMemory>
        ensures { IfOk result (λ c. c ≡ no_terms inputs) }
    {
        Ok(Circuit {
            gates: Gates::new(alloc)?,
            inputs: no_inputs(alloc, inputs)?,
            rows: Vec::new(alloc),
        })
    }

    fn push(&mut self, literals: Vec<Lit>) -> Result<(), NoMemory>
        ensures { OnOk result (self.new ≡ with_row self.old (literals.items, self.old.formula)) }
    {
        self.rows.push(Row { literals })?;
        Ok(())
    }

    // The literals of an input byte: eight new variables where it occurs for the first time.
    fn push_input(&mut self, alloc: Global, index: usize) -> Result<(), NoMemory>
        ensures { OnOk result (self.new
            ≡ with_input (slice_index_or self.old.inputs index None) self.old index) }
    {
        if let Some(Some(row)) = self.inputs.get(index) {
            let same = Vec::from_slice(alloc, &row.literals)?;
            return self.push(same);
        }
        let literals = self.gates.fresh_row(8)?;
        let same = Vec::from_slice(alloc, &literals)?;
        if index < self.inputs.len() {
            self.inputs[index] = Some(Row { literals });
        }
        self.push(same)
    }

    /// The literals of one more term.
    #[tactic(auto, unfolding(circuit_spec::specs::Circuits::circuit_with))]
    pub fn push_node(&mut self, alloc: Global, node: &Node) -> Result<(), NoMemory>
        ensures { OnOk result (self.new ≡ circuit_with self.old node.now) }
    {
        match *node {
            Node::Num { width, value } => {
                let row = number_row(alloc, width as usize, value)?;
                self.push(row)
            }
            Node::Input(index) => self.push_input(alloc, index),
            Node::Not(a) => {
                let row = negations(alloc, row_at(&self.rows, a))?;
                self.push(row)
            }
            Node::Neg(a) => {
                let row = self.gates.neg(row_at(&self.rows, a))?;
                self.push(row)
            }
            Node::Binary(op, a, b) => {
                let (a, b) = (row_at(&self.rows, a), row_at(&self.rows, b));
                let row = binary_row(&mut self.gates, op, a, b)?;
                self.push(row)
            }
            Node::Compare(op, a, b) => {
                let (a, b) = (row_at(&self.rows, a), row_at(&self.rows, b));
                let literal = compare_gate(&mut self.gates, op, a, b)?;
                let row = copies(alloc, 1, literal)?;
                self.push(row)
            }
            Node::Ite { condition, yes, no } => {
                let condition = lowest_of(row_at(&self.rows, condition));
                let (yes, no) = (row_at(&self.rows, yes), row_at(&self.rows, no));
                let row = choice_row(&mut self.gates, condition, yes, no)?;
                self.push(row)
            }
            Node::Extract { high, low, operand } => {
                let operand = row_at(&self.rows, operand);
                let row = extracted(alloc, high, low, operand)?;
                self.push(row)
            }
            Node::Extend {
                by,
                signed,
                operand,
            } => {
                let operand = row_at(&self.rows, operand);
                let extension = copies(alloc, by as usize, extension_of(signed, operand))?;
                let row = joined(alloc, operand, &extension)?;
                self.push(row)
            }
            Node::Concat { high, low } => {
                let row = joined(alloc, row_at(&self.rows, low), row_at(&self.rows, high))?;
                self.push(row)
            }
        }
    }

    /// The formula, with a clause for each term that is asserted, and the literals of each input byte that has occurred.
    pub fn encoding(self, asserted: &[usize]) -> Result<Encoding, NoMemory>
        ensures formula { IfOk result (λ e. e.formula
            ≡ (with_asserted self.rows asserted.now self.formula).clauses) }
        ensures inputs { IfOk result (λ e. e.inputs ≡ self.inputs) }
    {
        let Circuit {
            mut gates,
            inputs,
            rows,
        } = self;
        assert_each(&mut gates, &rows, asserted)?;
        Ok(Encoding::new(gates.into_formula(), inputs))
    }
}
