//! A value that a term takes.

use byte_list::Bytes;
use std::marker::Model;

/// A value, and an assignment on which a term has it.
#[derive(Debug)]
pub struct Found {
    pub value: u32,
    /// One byte for each input.
    pub input: Bytes,
}

impl Drop for Found {
    fn drop(self) {
        let Self {
            value: _value,
            input: _input,
        } = self;
    }
}

impl Model for Found {
    ghost use Rattle.fork_spec.specs.Evidence as spec;

    ghost Value = { spec.Found };

    ghost view = { λ f. record { value = f.value; input = f.input } };
}
