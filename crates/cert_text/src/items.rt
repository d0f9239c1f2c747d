//! Items of lists: bytes, sides, literals, hints and regions.

ghost use Rattle.std.specs.Prelude.{◌≡◌, option_and_then, option_map};
ghost use Rattle.spent_text.specs.LineReading as spent;
ghost use Rattle.cert_text.specs.LineReading as spec;

use crate::lists::Item;
use cert_form::Side;
use cnf_form::Lit;
use elf_load::Region;
use leaf_reader::{behind, eight, named, number, take_choice};
use tree_core::Cause;

const CAUSES: [(&str, Cause); 4] = [
    ("steps", Cause::Steps),
    ("targets", Cause::Targets),
    ("conflicts", Cause::Conflicts),
    ("nodes", Cause::Nodes),
];

/// What a digit is worth.
fn digit_worth(digit: u8) -> Option<u8>
    ensures { result ≡ spec.digit_worth digit }
{
    match digit {
        b'0'..=b'9' => Some(digit - b'0'),
        b'a'..=b'f' => Some(digit - b'a' + 10),
        _ => None,
    }
}

/// A byte in two digits.
#[tactic(auto, unfolding(crate::specs::LineReading::byte))]
fn take_byte(text: &[u8]) -> Option<(u8, &[u8])>
    ensures { option_map (λ found. (found.0, found.1.now)) result ≡ spec.byte text.now }
{
    let [high, low, rest @ ..] = text else {
        return None;
    };
    let high = digit_worth(*high)?;
    let low = digit_worth(*low)?;
    Some((high * 16 + low, rest))
}

impl Item for u8 {
    ghost read = { spec.byte };

    fn take(text: &[u8]) -> Option<(u8, &[u8])> {
        take_byte(text)
    }
}

/// The budget behind an exclamation mark.
fn take_marked(text: &[u8]) -> Option<(Cause, &[u8])>
    ensures { option_map (λ found. (found.0, found.1.now)) result ≡ spent.marked text.now }
{
    named(behind(text, "!")?, &CAUSES)
}

/// The budget that was spent on a side that is a leaf at once, if it is one.
fn take_mark(text: &[u8]) -> (Option<Cause>, &[u8])
    ensures { Some (result.0, result.1.now) ≡ spent.mark text.now }
{
    match take_marked(text) {
        Some((cause, rest)) => (Some(cause), rest),
        None => (None, text),
    }
}

/// A side of a split, behind a blank.
#[tactic(auto, unfolding(spent_text::specs::LineReading::side))]
fn take_side(text: &[u8]) -> Option<(Side, &[u8])>
    ensures { option_map (λ found. (found.0, found.1.now)) result ≡ spent.side text.now }
{
    let (choice, rest) = take_choice(behind(text, " ")?)?;
    let (cut, rest) = take_mark(rest);
    Some((Side { choice, cut }, rest))
}

impl Item for Side {
    ghost read = { spent.side };

    fn take(text: &[u8]) -> Option<(Side, &[u8])> {
        take_side(text)
    }
}

/// The literal of a variable, if it has 32 bits and is from 1 on.
fn literal_of(positive: bool, variable: u64) -> Option<Lit>
    ensures { result ≡ spent.literal_of positive variable }
{
    let variable = u32::try_from(variable).ok()?;
    if variable == 0 {
        return None;
    }
    Some(Lit::new(variable, positive))
}

/// A literal that isn't negated.
fn take_plain_literal(text: &[u8]) -> Option<(Lit, &[u8])>
    ensures { option_map (λ found. (found.0, found.1.now)) result ≡ spent.plain_literal text.now }
{
    let (variable, rest) = number(text)?;
    Some((literal_of(true, variable)?, rest))
}

/// A literal that is.
fn take_negated_literal(text: &[u8]) -> Option<(Lit, &[u8])>
    ensures { option_map (λ found. (found.0, found.1.now)) result
        ≡ spent.negated_literal text.now }
{
    let (variable, rest) = number(behind(text, "-")?)?;
    Some((literal_of(false, variable)?, rest))
}

/// A literal, behind a blank.
#[tactic(auto, unfolding(spent_text::specs::LineReading::literal))]
fn take_literal(text: &[u8]) -> Option<(Lit, &[u8])>
    ensures { option_map (λ found. (found.0, found.1.now)) result ≡ spent.literal text.now }
{
    let rest = behind(text, " ")?;
    match take_plain_literal(rest) {
        Some(found) => Some(found),
        None => take_negated_literal(rest),
    }
}

impl Item for Lit {
    ghost read = { spent.literal };

    fn take(text: &[u8]) -> Option<(Lit, &[u8])> {
        take_literal(text)
    }
}

/// The number of a clause, behind a blank and before one.
#[tactic(auto, unfolding(spent_text::specs::LineReading::hint))]
fn take_hint(text: &[u8]) -> Option<(usize, &[u8])>
    ensures { option_map (λ found. (found.0, found.1.now)) result ≡ spent.hint text.now }
{
    let (clause, rest) = number(behind(text, " ")?)?;
    let _ = behind(rest, " ")?;
    Some((clause as usize, rest))
}

impl Item for usize {
    ghost read = { spent.hint };

    fn take(text: &[u8]) -> Option<(usize, &[u8])> {
        take_hint(text)
    }
}

/// How many bytes a region has that begins at this address.
fn take_region_from(start: u32, text: &[u8]) -> Option<(Region, &[u8])>
    ensures { option_map (λ found. (found.0, found.1.now)) result
        ≡ spec.region_from start text.now }
{
    let (count, rest) = number(text)?;
    let count = u32::try_from(count).ok()?;
    Some((Region { start, count }, rest))
}

/// A region, behind a blank.
#[tactic(auto, unfolding(crate::specs::LineReading::region))]
fn take_region(text: &[u8]) -> Option<(Region, &[u8])>
    ensures { option_map (λ found. (found.0, found.1.now)) result ≡ spec.region text.now }
{
    let (start, rest) = eight(behind(text, " ")?)?;
    take_region_from(start, behind(rest, ":")?)
}

impl Item for Region {
    ghost read = { spec.region };

    fn take(text: &[u8]) -> Option<(Region, &[u8])> {
        take_region(text)
    }
}
