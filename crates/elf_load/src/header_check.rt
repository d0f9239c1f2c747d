//! What a file's header must be.

ghost use Rattle.std.specs.Prelude.{◌≡◌, ◌≤◌, ◌+◌, ◌*◌, length, IfOk, OnOk, IfErr};
ghost use Rattle.elf_load.specs.Fields.{header_of};
ghost use Rattle.elf_load.specs.Refusals.{refused_magic, refused_version, refused_flags, refused_header_size, refused_headers_past_end, header_refusal};

use crate::header::{Header, read_header};
use crate::refused::Refused;

/// The most bytes that a file may have.
const MOST_BYTES: usize = 1_048_576;

/// The bytes of the header.
const HEADER_SIZE: u16 = 52;

/// The bytes of a program header.
pub const ROW_SIZE: u16 = 32;

/// The machine's number.
const RISC_V: u16 = 243;

/// The kind of executable programs.
const EXECUTABLE: u16 = 2;

/// The flags of compressed instructions and of half of the registers.
const OTHER_INSTRUCTIONS: u32 = 0x9;

fn has_other_magic(bytes: &[u8]) -> bool
    requires { 52 ≤ length bytes.now }
    ensures { result ≡ refused_magic bytes.now }
{
    !(bytes[0] == 0x7f && bytes[1] == b'E' && bytes[2] == b'L' && bytes[3] == b'F')
}

fn has_other_version(bytes: &[u8], header: &Header) -> bool
    requires long { 52 ≤ length bytes.now }
    requires read { header.now ≡ header_of bytes.now }
    ensures { result ≡ refused_version bytes.now }
{
    bytes[6] != 1 || header.version != 1
}

fn has_other_sizes(bytes: &[u8], header: &Header) -> bool
    requires { header.now ≡ header_of bytes.now }
    ensures { result ≡ refused_header_size bytes.now }
{
    header.header_size != HEADER_SIZE || (header.row_count != 0 && header.row_size != ROW_SIZE)
}

fn has_headers_past_end(bytes: &[u8], header: &Header) -> bool
    requires { header.now ≡ header_of bytes.now }
    ensures { result ≡ refused_headers_past_end bytes.now }
{
    let end = header.table_offset as u64 + ROW_SIZE as u64 * header.row_count as u64;
    end > bytes.len() as u64
}

/// Reads the header, unless it has a fault, of which the first is answered.
#[tactic(auto, unfolding(crate::specs::Refusals::header_refusal))]
pub(crate) fn check_header(bytes: &[u8]) -> Result<Header, Refused>
    ensures header { IfOk result (λ header. header ≡ header_of bytes.now) }
    ensures whole { OnOk result (52 ≤ length bytes.now) }
    ensures table { IfOk result (λ header. header.table_offset + 32 * header.row_count
        ≤ length bytes.now) }
    ensures fine { OnOk result (header_refusal bytes.now ≡ None) }
    ensures refused { IfErr result (λ refused. header_refusal bytes.now ≡ Some refused) }
{
    if bytes.len() > MOST_BYTES {
        return Err(Refused::TooBig);
    }
    if bytes.len() < HEADER_SIZE as usize {
        return Err(Refused::Short);
    }
    if has_other_magic(bytes) {
        return Err(Refused::Magic);
    }
    if bytes[4] != 1 {
        return Err(Refused::Class);
    }
    if bytes[5] != 1 {
        return Err(Refused::ByteOrder);
    }
    let header = read_header(bytes);
    if has_other_version(bytes, &header) {
        return Err(Refused::Version);
    }
    if header.file_type != EXECUTABLE {
        return Err(Refused::FileType);
    }
    if header.machine != RISC_V {
        return Err(Refused::Machine);
    }
    if header.flags & OTHER_INSTRUCTIONS != 0 {
        return Err(Refused::Flags);
    }
    if has_other_sizes(bytes, &header) {
        return Err(Refused::HeaderSize);
    }
    if has_headers_past_end(bytes, &header) {
        return Err(Refused::HeadersPastEnd);
    }
    Ok(header)
}
