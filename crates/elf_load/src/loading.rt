//! Loading a program from a file.

ghost use Rattle.std.specs.Prelude.{◌≡◌, ◌≤◌, length, None, IfOk, OnOk, IfErr};
ghost use Rattle.std.specs.List.{All};
ghost use Rattle.elf_load.specs.Areas.{IsPlaced};
ghost use Rattle.elf_load.specs.Fields.{header_of, segments};
ghost use Rattle.elf_load.specs.Images.{Loads};
ghost use Rattle.elf_load.specs.Refusals.{refusal, MayFail};

use crate::header::ProgramHeader;
use crate::header_check::check_header;
use crate::image::Image;
use crate::load_error::LoadError;
use crate::pages::make_pages;
use crate::program_check::{check_program_headers, keep_segments, read_program_headers};
use crate::segment_check::check_segments;
use std::alloc::Global;

/// The stack, to be read and written.
const STACK: ProgramHeader = ProgramHeader {
    kind: 1,
    offset: 0,
    address: 0x7FFF_0000,
    file_size: 0,
    memory_size: 0x1_0000,
    flags: 6,
};

/// Reads where a program begins, and its segments, unless the file is refused.
#[tactic(auto, unfolding(crate::specs::Fields::segments))]
fn read_segments(alloc: Global, bytes: &[u8]) -> Result<(u32, Vec<ProgramHeader>), LoadError>
    ensures entry { IfOk result (λ found. found.0 ≡ (header_of bytes.now).entry) }
    ensures segments { IfOk result (λ found. found.1.items ≡ segments bytes.now) }
    ensures placed { IfOk result (λ found. All (IsPlaced (length bytes.now)) found.1.items) }
    ensures fine { OnOk result (refusal bytes.now ≡ None) }
    ensures refused { IfErr result (MayFail (refusal bytes.now)) }
{
    let header = check_header(bytes)?;
    let mut rows = read_program_headers(alloc, bytes, &header)?;
    check_program_headers(&rows, bytes.len())?;
    keep_segments(&mut rows);
    check_segments(alloc, &rows)?;
    Ok((header.entry, rows))
}

/// Loads a static RV32 program from the bytes of an ELF32 file.
#[tactic(auto, unfolding(crate::specs::Images::areas))]
pub fn load(alloc: Global, bytes: &[u8]) -> Result<Image, LoadError>
    ensures loaded { IfOk result (Loads bytes.now) }
    // Refused so, unless memory runs out.
    ensures refused { IfErr result (MayFail (refusal bytes.now)) }
{
    let (entry, mut areas) = read_segments(alloc, bytes)?;
    areas.push(STACK)?;
    let pages = make_pages(alloc, &areas, bytes)?;
    Ok(Image::new(entry, pages))
}
