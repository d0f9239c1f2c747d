//! Pages of memory.

ghost use Rattle.std.specs.Prelude.{◌≡◌, ◌≤◌, ◌<◌, ◌+◌, ◌*◌, ◌-◌, ◌^◌, ℕ, length, slice_index, if◌then◌else◌};
ghost use Rattle.std.specs.Int.RustNames.{bit_and, bit_or};
ghost use Rattle.elf_load.specs.Images.{gives_byte};

use crate::header::ProgramHeader;

/// The bytes of a page.
pub const PAGE_SIZE: usize = 256;

/// A page of memory.
#[derive(Clone, Copy, Debug, PartialEq, Eq)]
pub struct Page {
    /// What may be done there: bit 0 to execute, bit 1 to write, bit 2 to read.
    pub flags: u8,
    pub bytes: [u8; PAGE_SIZE],
}

/// A page of zeros, on which nothing may be done.
pub(crate) fn blank_page() -> Page
    ensures flags { result.flags ≡ 0 }
    ensures bytes { (i : ℕ) → slice_index result.bytes i ≡ 0 }
{
    Page {
        flags: 0,
        bytes: [0; PAGE_SIZE],
    }
}

/// Puts onto the bytes of a page, which begins at this address, those that the file gives of an area.
fn put_bytes(page: &mut [u8], start: usize, area: &ProgramHeader, bytes: &[u8])
    requires size { length page.old ≡ 256 }
    requires in_memory { start < 2 ^ 32 }
    requires given { 0 < area.now.file_size
        → area.now.offset + area.now.file_size ≤ length bytes.now }
    ensures { (i : ℕ) → i < 256 →
        slice_index page.new i ≡ (if gives_byte area.now (start + i)
        then slice_index bytes.now (area.now.offset + (start + i - area.now.address))
        else slice_index page.old i) }
{
    let address = area.address as usize;
    let from = start.max(address);
    let past = (start + PAGE_SIZE).min(address + area.file_size as usize);
    if from < past {
        let source = area.offset as usize + (from - address);
        page[from - start..past - start].copy_from_slice(&bytes[source..source + (past - from)]);
    }
}

/// Adds what an area puts onto the page of this number.
pub(crate) fn add_area(page: &mut Page, number: u32, area: &ProgramHeader, bytes: &[u8])
    requires in_memory { number < 2 ^ 24 }
    requires given { 0 < area.now.file_size
        → area.now.offset + area.now.file_size ≤ length bytes.now }
    ensures flags { page.new.flags ≡ bit_or (bit_and area.now.flags 7) page.old.flags }
    ensures content { (i : ℕ) → i < 256 →
        slice_index page.new.bytes i
        ≡ (if gives_byte area.now (256 * number + i)
        then slice_index bytes.now (area.now.offset + (256 * number + i - area.now.address))
        else slice_index page.old.bytes i) }
    ensures size { length page.new.bytes ≡ 256 }
{
    page.flags = (area.flags & 7) as u8 | page.flags;
    put_bytes(&mut page.bytes, number as usize * PAGE_SIZE, area, bytes);
}
