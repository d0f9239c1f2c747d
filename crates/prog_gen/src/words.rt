//! The words of a generated program.

ghost use Rattle.std.specs.Prelude.{◌≡◌, ◌≤◌, ◌<◌, ◌++◌, IfOk, OnOk};
ghost use Rattle.prog_gen.specs.Words.{begin_words, byte_words, end_words, program_words};

use std::alloc::{AllocError as NoMemory, Global};

/// The lowest bit of an immediate of the I-type, in a word.
const I_IMMEDIATE: u32 = 0x0010_0000;

/// The lowest bit of an immediate of the S-type, in a word.
const S_IMMEDIATE: u32 = 0x80;

/// The words of the program of this number.
pub(crate) fn program_words(alloc: Global, number: u32) -> Result<Vec<u32>, NoMemory>
    requires { number ≤ 12 }
    ensures { IfOk result (λ words. words.items ≡ program_words number) }
{
    let mut words = Vec::new(alloc);
    words.extend_from_slice(&[0x0001_12B7, 0x0000_0313])?;
    for place in 0..number {
        push_byte_words(&mut words, number, place)?;
    }
    push_end_words(&mut words, number)?;
    Ok(words)
}

/// What is done with the input byte at this place.
fn push_byte_words(words: &mut Vec<u32>, number: u32, place: u32) -> Result<(), NoMemory>
    requires few { number ≤ 12 }
    requires within { place < number }
    ensures { OnOk result (words.new.items ≡ words.old.items ++ byte_words number place) }
{
    let bound = 1 + (37 * place + 11 * number) % 255;
    words.extend_from_slice(&[
        0x0002_C383 + place * I_IMMEDIATE,
        0x0003_B393 + bound * I_IMMEDIATE,
        0x0003_8463,
        0x0003_0313 + (place + 1) * I_IMMEDIATE,
        0x1062_8023 + place * S_IMMEDIATE,
    ])
}

/// What is done when all bytes were looked at.
fn push_end_words(words: &mut Vec<u32>, number: u32) -> Result<(), NoMemory>
    requires { number ≤ 12 }
    ensures { OnOk result (words.new.items ≡ words.old.items ++ end_words number) }
{
    words.extend_from_slice(&[
        0x0010_0513,
        0x1002_8593,
        0x0000_0613 + number * I_IMMEDIATE,
        0x0400_0893,
        0x0000_0073,
        0x0003_0513,
        0x05D0_0893,
        0x0000_0073,
    ])
}
