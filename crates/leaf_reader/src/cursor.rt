//! What a text begins with: words, numbers and eight digits. Each function gives what it read and what
//! stands behind it.

ghost use Rattle.std.specs.Prelude.{◌≡◌, map, option_map};
ghost use Rattle.std.specs.Str.Parse.{AllDigits};
ghost use Rattle.text_parts.specs.Pieces as spec;

use text_parts::{has_leading_zero, hex_number};

/// What stands behind a word.
pub fn behind<'a>(text: &'a [u8], word: &str) -> Option<&'a [u8]>
    ensures { option_map (λ rest. rest.now) result ≡ spec.behind word.now text.now }
{
    text.strip_prefix(word.as_bytes())
}

/// What the first of the words that the text begins with means.
pub fn named<'a, X: Copy>(text: &'a [u8], table: &[(&str, X)]) -> Option<(X, &'a [u8])>
    ensures { option_map (λ found. (found.0, found.1.now)) result
        ≡ spec.named (map (λ entry. (entry.0.now, entry.1)) table.now) text.now }
{
    for entry in table {
        let (word, meaning) = *entry;
        if let Some(rest) = behind(text, word) {
            return Some((meaning, rest));
        }
    }
    None
}

/// How many decimal digits the text begins with.
fn digit_count(text: &[u8]) -> usize
    ensures { result ≡ spec.digit_count text.now }
{
    text.iter().take_while(|byte| byte.is_ascii_digit()).count()
}

/// The number that the digits say, if no zero leads and it fits.
fn plain_number(digits: &[u8]) -> Option<u64>
    requires { AllDigits 10 digits.now }
    ensures { result ≡ spec.plain_number digits.now }
{
    if digits.is_empty() || has_leading_zero(digits) {
        return None;
    }
    let mut value: u64 = 0;
    for digit in digits {
        value = value
            .checked_mul(10)?
            .checked_add(u64::from(*digit - b'0'))?;
    }
    Some(value)
}

/// The number that all digits at the beginning say.
#[tactic(auto, unfolding(text_parts::specs::Pieces::number))]
pub fn number(text: &[u8]) -> Option<(u64, &[u8])>
    ensures { option_map (λ found. (found.0, found.1.now)) result ≡ spec.number text.now }
{
    let (digits, rest) = text.split_at(digit_count(text));
    Some((plain_number(digits)?, rest))
}

/// A number before a word.
#[tactic(auto, unfolding(text_parts::specs::Pieces::one))]
pub fn one<'a>(text: &'a [u8], word: &str) -> Option<(u64, &'a [u8])>
    ensures { option_map (λ found. (found.0, found.1.now)) result ≡ spec.one word.now text.now }
{
    let (n, rest) = number(text)?;
    Some((n, behind(rest, word)?))
}

/// Two numbers, each before a word.
#[tactic(auto, unfolding(text_parts::specs::Pieces::two))]
pub fn two<'a>(text: &'a [u8], word: &str, other: &str) -> Option<((u64, u64), &'a [u8])>
    ensures { option_map (λ found. (found.0, found.1.now)) result
        ≡ spec.two word.now other.now text.now }
{
    let (a, rest) = one(text, word)?;
    let (b, rest) = one(rest, other)?;
    Some(((a, b), rest))
}

/// Three numbers, each before a word.
#[tactic(auto, unfolding(text_parts::specs::Pieces::three))]
pub fn three<'a>(
    text: &'a [u8],
    word: &str,
    other: &str,
    third: &str,
) -> Option<((u64, u64, u64), &'a [u8])>
    ensures { option_map (λ found. (found.0, found.1.now)) result
        ≡ spec.three word.now other.now third.now text.now }
{
    let (a, rest) = one(text, word)?;
    let ((b, c), rest) = two(rest, other, third)?;
    Some(((a, b, c), rest))
}

/// The number that the first eight bytes say in hexadecimal digits.
#[tactic(auto, unfolding(text_parts::specs::Pieces::eight))]
pub fn eight(text: &[u8]) -> Option<(u32, &[u8])>
    ensures { option_map (λ found. (found.0, found.1.now)) result ≡ spec.eight text.now }
{
    if text.len() < 8 {
        return None;
    }
    let (digits, rest) = text.split_at(8);
    Some((hex_number(digits)?, rest))
}
