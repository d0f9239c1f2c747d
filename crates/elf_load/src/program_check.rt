//! What a file's program headers must be.

ghost use Rattle.std.specs.Prelude.{◌≡◌, ◌≤◌, ◌+◌, ◌*◌, false, length, IfOk, OnOk, IfErr};
ghost use Rattle.std.specs.List.{filter};
ghost use Rattle.elf_load.specs.Fields.{header_of, headers, is_segment};
ghost use Rattle.elf_load.specs.Refusals.{refused_dynamic, refused_file_over_memory, refused_bytes_past_end, program_refusal};

use crate::header::{Header, ProgramHeader, read_program_header};
use crate::header_check::ROW_SIZE;
use crate::refused::Refused;
use std::alloc::{AllocError as NoMemory, Global};

/// The program headers of a file that has this header.
#[tactic(auto, unfolding(crate::specs::Fields::headers))]
pub(crate) fn read_program_headers(
    alloc: Global,
    bytes: &[u8],
    header: &Header,
) -> Result<Vec<ProgramHeader>, NoMemory>
    requires read { header.now ≡ header_of bytes.now }
    requires table { header.now.table_offset + 32 * header.now.row_count ≤ length bytes.now }
    ensures { IfOk result (λ rows. rows.items ≡ headers bytes.now) }
{
    let mut rows = Vec::new(alloc);
    for i in 0..header.row_count {
        let at = header.table_offset as usize + ROW_SIZE as usize * i as usize;
        rows.push(read_program_header(bytes, at))?;
    }
    Ok(rows)
}

fn any_dynamic(rows: &[ProgramHeader]) -> bool
    ensures { result ≡ refused_dynamic rows.now }
{
    rows.iter().any(|row| row.is_dynamic())
}

fn any_file_over_memory(rows: &[ProgramHeader]) -> bool
    ensures { result ≡ refused_file_over_memory rows.now }
{
    rows.iter().any(|row| row.has_file_over_memory())
}

fn any_bytes_past(rows: &[ProgramHeader], file_length: usize) -> bool
    ensures { result ≡ refused_bytes_past_end file_length rows.now }
{
    rows.iter().any(|row| row.has_bytes_past(file_length))
}

/// Finds the first fault of the program headers of a file of this length, if they have one.
#[tactic(auto, unfolding(crate::specs::Refusals::program_refusal))]
pub(crate) fn check_program_headers(
    rows: &[ProgramHeader],
    file_length: usize,
) -> Result<(), Refused>
    ensures fine { OnOk result (program_refusal file_length rows.now ≡ None) }
    ensures over_none { OnOk result (refused_file_over_memory rows.now ≡ false) }
    ensures past_none { OnOk result (refused_bytes_past_end file_length rows.now ≡ false) }
    ensures refused { IfErr result (λ refused. program_refusal file_length rows.now
        ≡ Some refused) }
{
    if any_dynamic(rows) {
        return Err(Refused::Dynamic);
    }
    if any_file_over_memory(rows) {
        return Err(Refused::FileOverMemory);
    }
    if any_bytes_past(rows, file_length) {
        return Err(Refused::BytesPastEnd);
    }
    Ok(())
}

/// Leaves of program headers those that are loaded and take memory.
pub(crate) fn keep_segments(rows: &mut Vec<ProgramHeader>)
    ensures { rows.new.items ≡ filter is_segment rows.old.items }
{
    rows.retain(|row| row.is_segment());
}
