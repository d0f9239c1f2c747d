//! What a condition comes to: its clauses, and which of their literals its input bytes are.

ghost use Rattle.std.specs.Prelude.{◌≡◌, IfOk, map};
ghost use Rattle.cnf_form.specs.Valuations.{valuation};
ghost use Rattle.circuit_spec.specs.Bytes.{input_byte};

use crate::row::Row;
use crate::values::{low_eight, number_of};
use byte_list::Bytes;
use cnf_form::{Cnf, Val};
use std::alloc::{AllocError as NoMemory, Global};
use std::marker::Model;

/// The clauses of a condition, and the literals of each of its input bytes that occurs.
#[derive(Debug)]
pub struct Encoding {
    formula: Cnf,
    inputs: Vec<Option<Row>>,
}

impl Drop for Encoding {
    fn drop(self) {
        let Self {
            formula: _formula,
            inputs: _inputs,
        } = self;
    }
}

impl Model for Encoding {
    ghost use Rattle.circuit_spec.specs.Bytes.{Encoding as EncodingValue};

    ghost Value = { EncodingValue };

    ghost view = { λ e. record { formula = e.formula; inputs = e.inputs.items } };
}

// What an input byte is, and 0 where it doesn't occur.
fn byte_of(input: &Option<Row>, values: &Val) -> u8
    ensures { result ≡ input_byte (valuation values.now) input.now }
{
    match input {
        Some(row) => number_of(low_eight(&row.literals), values),
        None => 0,
    }
}

impl Encoding {
    pub(crate) fn new(formula: Cnf, inputs: Vec<Option<Row>>) -> Encoding
        ensures { result ≡ record { formula = formula; inputs = inputs.items } }
    {
        Encoding { formula, inputs }
    }

    /// The clauses.
    pub fn formula(&self) -> &Cnf
        ensures { result.now ≡ self.now.formula }
    {
        &self.formula
    }

    /// The input bytes that a valuation of the clauses means: 0 for a byte that doesn't occur.
    pub fn bytes(&self, alloc: Global, values: &Val) -> Result<Bytes, NoMemory>
        ensures { IfOk result (λ bytes. bytes
            ≡ map (input_byte (valuation values.now)) self.now.inputs) }
    {
        let bytes = self
            .inputs
            .iter()
            .map(|i| byte_of(i, values))
            .collect(alloc)?;
        Ok(Bytes::from_vec(bytes))
    }
}
