//! The numbers of the machine's registers.

ghost use Rattle.std.specs.Prelude.{◌≡◌, ◌<◌};

use std::marker::Model;

/// A register's number, from 0 to 31.
#[derive(Clone, Copy, Debug, PartialEq, Eq)]
pub struct Register {
    number: u32,
}

impl Model for Register {
    ghost use Rattle.std.specs.Prelude.{ℕ, ◌<◌};

    ghost Value = { ℕ };

    ghost view = { λ r. r.number };

    ghost invariant = { λ r. r.number < 32 };

    ghost inverse = { λ n. record { number = n } };
}

impl Register {
    /// The register of this number.
    pub fn new(number: u32) -> Register
        requires { number < 32 }
        ensures { result ≡ number }
    {
        Register { number }
    }

    /// Its place among the registers.
    pub fn index(self) -> usize
        ensures value { result ≡ self }
        ensures below { result < 32 }
    {
        self.number as usize
    }

    /// Its number.
    pub fn number(self) -> u32
        ensures value { result ≡ self }
        ensures below { result < 32 }
    {
        self.number
    }
}
