//! A generated program: its file, and where its input bytes stand.

ghost use Rattle.std.specs.Prelude.{◌≡◌, ◌≤◌, ◌++◌, IfOk, drop, length, take};
ghost use Rattle.prog_gen.specs.Generated.{generated_file, generated_regions};
ghost use Rattle.row_files.specs.RowFiles.{word};

use crate::words::program_words;
use byte_list::Bytes;
use elf_load::{Region, Regions};
use row_files::row_file;
use std::alloc::{AllocError as NoMemory, Global};

/// A program and its input bytes.
#[derive(Debug, Drop)]
pub struct Generated {
    /// The program's ELF file.
    pub file: Bytes,
    /// Where its input bytes stand.
    pub regions: Regions,
}

/// The program of this number: it reads as many input bytes, compares each with a bound of its own and
/// adds up the places, from 1 on, of those that are below, writes the sums so far, and exits with the last.
pub fn generate(alloc: Global, number: u32) -> Result<Generated, NoMemory>
    requires least { 1 ≤ number }
    requires most { number ≤ 12 }
    ensures file { IfOk result (λ generated. generated.file ≡ generated_file number) }
    ensures regions { IfOk result (λ generated. generated.regions ≡ generated_regions number) }
{
    let words = program_words(alloc, number)?;
    let mut file = row_file(alloc, &words)?.into_vec();
    enlarge_data(&mut file);
    let mut regions = Vec::new(alloc);
    regions.push(Region {
        start: 0x11000,
        count: number,
    })?;
    Ok(Generated {
        file: Bytes::from_vec(file),
        regions: Regions::from_vec(regions),
    })
}

/// Makes the data a mebibyte: p_memsz of the second program header.
fn enlarge_data(file: &mut [u8])
    requires { 108 ≤ length file.old }
    ensures { file.new ≡ take 104 file.old ++ word 1048576 ++ drop 108 file.old }
{
    file[104..108].copy_from_slice(&0x0010_0000_u32.to_le_bytes());
}
