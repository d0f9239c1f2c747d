//! The headers of an ELF32 file (Tool Interface Standard, ELF).

ghost use Rattle.std.specs.Prelude.{◌≡◌, ◌≤◌, ◌+◌, length};
ghost use Rattle.elf_load.specs.Fields.{half_field, word_field, header_of, program_header_at};

use byteorder::{ByteOrder, LittleEndian};

/// The header, as far as loading reads it.
#[derive(Clone, Copy, Debug, PartialEq, Eq)]
pub struct Header {
    /// What kind of file it is: 2 for an executable program.
    pub file_type: u16,
    /// The machine it is made for: 243 for RISC-V.
    pub machine: u16,
    pub version: u32,
    /// The address of the first instruction.
    pub entry: u32,
    /// Where the table of program headers begins in the file.
    pub table_offset: u32,
    /// The machine's flags.
    pub flags: u32,
    /// The size of this header.
    pub header_size: u16,
    /// The size of a program header.
    pub row_size: u16,
    /// How many program headers there are.
    pub row_count: u16,
}

/// A program header, as far as loading reads it.
#[derive(Clone, Copy, Debug, PartialEq, Eq)]
pub struct ProgramHeader {
    /// What it is for: 1 for what is loaded.
    pub kind: u32,
    /// Where its bytes begin in the file.
    pub offset: u32,
    /// Where it begins in memory.
    pub address: u32,
    /// How many bytes the file gives.
    pub file_size: u32,
    /// How many bytes it takes in memory.
    pub memory_size: u32,
    /// What may be done there: bit 0 to execute, bit 1 to write, bit 2 to read.
    pub flags: u32,
}

#[tactic(auto, unfolding(crate::specs::Fields::half_field))]
fn half(bytes: &[u8], at: usize) -> u16
    requires { at + 2 ≤ length bytes.now }
    ensures { result ≡ half_field bytes.now at }
{
    LittleEndian::read_u16(&bytes[at..])
}

#[tactic(auto, unfolding(crate::specs::Fields::word_field))]
fn word(bytes: &[u8], at: usize) -> u32
    requires { at + 4 ≤ length bytes.now }
    ensures { result ≡ word_field bytes.now at }
{
    LittleEndian::read_u32(&bytes[at..])
}

/// The header of a file that is long enough for one.
pub(crate) fn read_header(bytes: &[u8]) -> Header
    requires { 52 ≤ length bytes.now }
    ensures { result ≡ header_of bytes.now }
{
    Header {
        file_type: half(bytes, 16),
        machine: half(bytes, 18),
        version: word(bytes, 20),
        entry: word(bytes, 24),
        table_offset: word(bytes, 28),
        flags: word(bytes, 36),
        header_size: half(bytes, 40),
        row_size: half(bytes, 42),
        row_count: half(bytes, 44),
    }
}

/// The program header at this place.
pub(crate) fn read_program_header(bytes: &[u8], at: usize) -> ProgramHeader
    requires { at + 32 ≤ length bytes.now }
    ensures { result ≡ program_header_at bytes.now at }
{
    ProgramHeader {
        kind: word(bytes, at),
        offset: word(bytes, at + 4),
        address: word(bytes, at + 8),
        file_size: word(bytes, at + 16),
        memory_size: word(bytes, at + 20),
        flags: word(bytes, at + 24),
    }
}

impl ProgramHeader {
    ghost use Rattle.std.specs.Prelude.{◌==◌, ◌||◌, ◌&&◌, ◌<◌, ◌^◌, nat_lt};
    ghost use Rattle.elf_load.specs.Fields.{is_loaded, is_segment};
    ghost use Rattle.elf_load.specs.Areas.{end_of, first_page, last_page, touches_stack};

    /// It asks for linking when the program runs.
    pub(crate) fn is_dynamic(&self) -> bool
        ensures { result ≡ (self.now.kind == 2 || self.now.kind == 3) }
    {
        self.kind == 2 || self.kind == 3
    }

    /// It is for loading.
    pub(crate) fn is_loaded(&self) -> bool
        ensures { result ≡ is_loaded self.now }
    {
        self.kind == 1
    }

    /// It is for loading, and takes memory.
    pub(crate) fn is_segment(&self) -> bool
        ensures { result ≡ is_segment self.now }
    {
        self.is_loaded() && self.memory_size > 0
    }

    /// It is for loading, and has more bytes in the file than in memory.
    pub(crate) fn has_file_over_memory(&self) -> bool
        ensures { result ≡ (is_loaded self.now && nat_lt self.now.memory_size self.now.file_size) }
    {
        self.is_loaded() && self.file_size > self.memory_size
    }

    /// It is for loading, and has bytes past the end of a file of this length.
    pub(crate) fn has_bytes_past(&self, file_length: usize) -> bool
        ensures { result ≡ (is_loaded self.now
            && (nat_lt 0 self.now.file_size
            && nat_lt file_length (self.now.offset + self.now.file_size))) }
    {
        self.is_loaded()
            && self.file_size > 0
            && self.offset as u64 + self.file_size as u64 > file_length as u64
    }

    /// The address past its last.
    pub fn end(&self) -> u64
        ensures { result ≡ end_of self.now }
    {
        self.address as u64 + self.memory_size as u64
    }

    /// The page of its first address.
    pub(crate) fn first_page(&self) -> u32
        ensures { result ≡ first_page self.now }
    {
        self.address / 256
    }

    /// The page of its last address.
    pub(crate) fn last_page(&self) -> u32
        requires { 0 < self.now.memory_size }
        ensures { result ≡ last_page self.now }
    {
        ((self.address as u64 + self.memory_size as u64 - 1) / 256) as u32
    }

    /// It passes the end of memory, or touches the stack's pages.
    pub(crate) fn is_out_of_range(&self) -> bool
        requires { 0 < self.now.memory_size }
        ensures { result ≡ (nat_lt 4294967296 (end_of self.now) || touches_stack self.now) }
    {
        self.end() > 1 << 32 || (self.first_page() <= 0x7FFFFF && self.last_page() >= 0x7FFF00)
    }
}
