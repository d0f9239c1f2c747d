//! A region of input bytes, as a word names it.

ghost use Rattle.std.specs.Prelude.{◌≡◌, ◌≤◌, length};
ghost use Rattle.tool_words.specs.Region.{digits_number, region_said};

use elf_load::Region;

/// Reads `hhhhhhhh:n`, an address of eight hexadecimal digits and a count of one to four decimal
/// digits.
pub(crate) fn read_region(word: &str) -> Option<Region>
    ensures { result ≡ region_said word.now }
{
    let word = word.as_bytes();
    if word.len() < 10 || 13 < word.len() || word[8] != b':' {
        return None;
    }
    let start = read_number(&word[..8], 16)?;
    let count = read_number(&word[9..], 10)?;
    Some(Region { start, count })
}

/// The number that the digits write in the base, or none where one of them is no digit of it.
fn read_number(digits: &[u8], base: u32) -> Option<u32>
    requires least { 2 ≤ base }
    requires most { base ≤ 16 }
    requires short { length digits.now ≤ 8 }
    ensures { result ≡ digits_number base digits.now }
{
    let mut value = 0;
    for digit in digits {
        value = value * base + char::from(*digit).to_digit(base)?;
    }
    Some(value)
}
