//! The digits of numbers: whether a zero leads, and eight hexadecimal digits.

ghost use Rattle.std.specs.Prelude.{◌≡◌};
ghost use Rattle.text_parts.specs.Digits as spec;

use hex::FromHex;

/// Whether a zero stands before other digits.
pub fn has_leading_zero(digits: &[u8]) -> bool
    ensures { result ≡ spec.has_leading_zero digits.now }
{
    1 < digits.len() && digits[0] == b'0'
}

fn has_upper_case(text: &[u8]) -> bool
    ensures { result ≡ spec.has_upper_case text.now }
{
    text.iter().any(|byte| byte.is_ascii_uppercase())
}

/// Reads a number: eight hexadecimal digits, none of them in upper case.
#[tactic(auto, unfolding(crate::specs::Digits::hex_number))]
pub fn hex_number(digits: &[u8]) -> Option<u32>
    ensures { result ≡ spec.hex_number digits.now }
{
    if has_upper_case(digits) {
        return None;
    }
    match <[u8; 4] as FromHex>::from_hex(digits) {
        Ok(bytes) => Some(u32::from_be_bytes(bytes)),
        Err(_) => None,
    }
}
