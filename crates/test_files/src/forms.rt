//! What the texts in a test say.

ghost use Rattle.std.specs.Prelude.{◌≡◌};
ghost use Rattle.std.specs.List.{find};
ghost use Rattle.std.specs.Str.{bytes_eq};
ghost use Rattle.rv_decode.specs.Ends.{trap_name};
ghost use Rattle.test_files.specs.Forms.{end_said, exit_with, region_of, short_number, trap_named};

use elf_load::Region;
use rv_decode::{End, Trap};
use text_parts::{has_leading_zero, hex_number};

/// The most digits of a short number.
const MOST_DIGITS: usize = 4;

/// The traps.
const TRAPS: [Trap; 9] = [
    Trap::Illegal,
    Trap::FetchMisaligned,
    Trap::FetchAccess,
    Trap::LoadMisaligned,
    Trap::LoadAccess,
    Trap::StoreMisaligned,
    Trap::StoreAccess,
    Trap::Break,
    Trap::Call,
];

/// Reads one to four decimal digits with no leading zero.
pub(crate) fn read_short_number(digits: &[u8]) -> Option<u32>
    ensures { result ≡ short_number digits.now }
{
    if digits.is_empty() || MOST_DIGITS < digits.len() || has_leading_zero(digits) {
        return None;
    }
    let mut value = 0;
    for digit in digits {
        value = value * 10 + char::from(*digit).to_digit(10)?;
    }
    Some(value)
}

/// Reads `hhhhhhhh:n`: an address, and how many bytes.
pub(crate) fn read_region(text: &[u8]) -> Option<Region>
    ensures { result ≡ region_of text.now }
{
    if text.len() < 9 || text[8] != b':' {
        return None;
    }
    let start = hex_number(&text[..8])?;
    let count = read_short_number(&text[9..])?;
    Some(Region { start, count })
}

/// The first of the traps that has this name.
fn trap_among(traps: &[Trap], name: &[u8]) -> Option<Trap>
    ensures { result ≡ find (λ trap. bytes_eq (trap_name trap) name.now) traps.now }
{
    traps
        .iter()
        .copied()
        .find(|trap| trap.name().as_bytes() == name)
}

/// The trap of this name.
fn trap_of(name: &[u8]) -> Option<Trap>
    ensures { result ≡ trap_named name.now }
{
    trap_among(&TRAPS, name)
}

/// Reads the status of an exit: a number below 256.
fn read_exit(digits: &[u8]) -> Option<End>
    ensures { result ≡ exit_with (short_number digits.now) }
{
    let status = u8::try_from(read_short_number(digits)?).ok()?;
    Some(End::Exit(status))
}

/// Reads how a run ends: `exit N`, `trap NAME` or `running`, which is no end.
#[tactic(auto, unfolding(crate::specs::Forms::end_said))]
pub(crate) fn read_end(text: &[u8]) -> Option<Option<End>>
    ensures { result ≡ end_said text.now }
{
    if text == b"running".as_slice() {
        return Some(None);
    }
    if let Some(digits) = text.strip_prefix(b"exit ") {
        return Some(Some(read_exit(digits)?));
    }
    let trap = trap_of(text.strip_prefix(b"trap ")?)?;
    Some(Some(End::Trapped(trap)))
}
