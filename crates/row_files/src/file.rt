//! The file of a list of words.

ghost use Rattle.std.specs.Prelude.{◌≡◌, ◌<◌, ◌^◌, ◌++◌, IfOk, OnOk, length};
ghost use Rattle.row_files.specs.RowFiles.{elf_header, row_file, words_bytes};

use byte_list::Bytes;
use std::alloc::{AllocError as NoMemory, Global};

// An executable of RISC-V whose entry is 0x10000, with two program headers right behind.
const ELF_HEADER: [u8; 52] = [
    0x7F, 0x45, 0x4C, 0x46, 1, 1, 1, 0, 0, 0, 0, 0, 0, 0, 0, 0, 2, 0, 243, 0, 1, 0, 0, 0, 0, 0, 1,
    0, 52, 0, 0, 0, 0, 0, 0, 0, 0, 0, 0, 0, 52, 0, 32, 0, 2, 0, 0, 0, 0, 0, 0, 0,
];

// The data from 0x11000 on.
const DATA_SEGMENT: [u32; 8] = [1, 0, 0x11000, 0x11000, 0, 512, 6, 4];

// Puts the words behind the bytes, each with its low byte first.
fn push_words(bytes: &mut Vec<u8>, words: &[u32]) -> Result<(), NoMemory>
    ensures { OnOk result (bytes.new.items ≡ bytes.old.items ++ words_bytes words.now) }
{
    for word in words {
        bytes.extend_from_slice(&word.to_le_bytes())?;
    }
    Ok(())
}

/// The ELF file of a program of these words, at 0x10000, with 512 bytes of data at 0x11000.
pub fn row_file(alloc: Global, words: &[u32]) -> Result<Bytes, NoMemory>
    requires few { length words.now < 2 ^ 30 }
    ensures { IfOk result (λ file. file ≡ row_file words.now) }
{
    let size = 4 * words.len() as u32;
    let mut bytes = Vec::new(alloc);
    bytes.extend_from_slice(&ELF_HEADER)?;
    push_words(&mut bytes, &[1, 116, 0x10000, 0x10000, size, size, 5, 4])?;
    push_words(&mut bytes, &DATA_SEGMENT)?;
    push_words(&mut bytes, words)?;
    Ok(Bytes::from_vec(bytes))
}
