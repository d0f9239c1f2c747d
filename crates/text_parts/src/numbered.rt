//! Appending a word and the number behind it. After an error a part of them may stand there.

ghost use Rattle.std.specs.Prelude.{◌≡◌, ◌⊎◌, ◌++◌, OnErr, OnOk, codes, string_bytes};

use itoa::{Buffer, Integer};
use std::alloc::AllocError as NoMemory;

/// Appends a word and the digits of a number. After an error none of it, or the word alone, stands there.
pub fn push_numbered<I: Integer>(text: &mut String, word: &str, number: I) -> Result<(), NoMemory>
    ensures ok { OnOk result (string_bytes text.new
        ≡ string_bytes text.old ++ word.now ++ I.text number) }
    ensures err { OnErr result ((string_bytes text.new ≡ string_bytes text.old)
        ⊎ (string_bytes text.new ≡ string_bytes text.old ++ word.now)) }
{
    let mut buffer = Buffer::new();
    text.push_str(word)?;
    text.push_str(buffer.format(number))
}

/// Appends a word, the digits of a number and a closing parenthesis.
pub fn push_closed<I: Integer>(text: &mut String, word: &str, number: I) -> Result<(), NoMemory>
    ensures ok { OnOk result (string_bytes text.new
        ≡ string_bytes text.old ++ word.now ++ I.text number ++ codes ")") }
{
    push_numbered(text, word, number)?;
    text.push_str(")")
}
