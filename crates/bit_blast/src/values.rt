//! What rows are under a valuation.

ghost use Rattle.std.specs.Prelude.{◌≡◌, ◌≤◌, ◌<◌, ◌*◌, ◌+◌, take, length};
ghost use Rattle.cnf_form.specs.Valuations.{valuation, literal_value};
ghost use Rattle.circuit_spec.specs.Bytes.{bit_of, number_of_row};

use cnf_form::{Lit, Val};

fn literal_value(values: &Val, literal: Lit) -> bool
    ensures { result ≡ literal_value (valuation values.now) literal }
{
    values.value(literal.variable()) == literal.is_positive()
}

// The number with one more bit below the others.
fn with_low_bit(number: u8, bit: bool) -> u8
    requires { number < 128 }
    ensures { result ≡ bit_of bit + 2 * number }
{
    u8::from(bit) + 2 * number
}

/// The lowest eight of a row.
pub(crate) fn low_eight(row: &[Lit]) -> &[Lit]
    ensures value { result.now ≡ take 8 row.now }
    ensures at_most_eight { length result.now ≤ 8 }
{
    if row.len() > 8 { &row[..8] } else { row }
}

/// The number whose bits are the values of these literals.
pub fn number_of(row: &[Lit], values: &Val) -> u8
    requires { length row.now ≤ 8 }
    ensures { result ≡ number_of_row (valuation values.now) row.now }
{
    let mut number: u8 = 0;
    for i in (0..row.len()).rev() {
        let bit = literal_value(values, row[i]);
        number = with_low_bit(number, bit);
    }
    number
}
