//! The lines that are said of files that are no programs, and of inputs and tests that aren't taken.

ghost use Rattle.std.specs.Prelude.{◌≡◌, IfOk};
ghost use Rattle.tool_top.specs.Lines.{program_refused, inputs_refused, refused_line, test_refused, unfit_line};

use elf_load::{Refused, Unfit};
use itoa::Buffer;
use std::alloc::{AllocError as NoMemory, Global};
use test_files::TestRefused;

fn program_refused(alloc: Global, number: u8, name: &str) -> Result<Vec<u8>, NoMemory>
    ensures { IfOk result (λ line. line.items ≡ program_refused number name.now) }
{
    let mut buffer = Buffer::new();
    let number = buffer.format(number);
    let line = format!(in alloc; "program refused {number} {name}\n")?;
    Ok(line.into_bytes())
}

fn inputs_refused(alloc: Global, number: u8, name: &str) -> Result<Vec<u8>, NoMemory>
    ensures { IfOk result (λ line. line.items ≡ inputs_refused number name.now) }
{
    let mut buffer = Buffer::new();
    let number = buffer.format(number);
    let line = format!(in alloc; "inputs refused {number} {name}\n")?;
    Ok(line.into_bytes())
}

/// Why a file is that of no program.
pub(crate) fn say_refused(alloc: Global, why: Refused) -> Result<Vec<u8>, NoMemory>
    ensures { IfOk result (λ line. line.items ≡ refused_line why) }
{
    program_refused(alloc, why.number(), why.name())
}

/// Why an input isn't taken.
pub(crate) fn say_unfit(alloc: Global, why: Unfit) -> Result<Vec<u8>, NoMemory>
    ensures { IfOk result (λ line. line.items ≡ unfit_line why) }
{
    inputs_refused(alloc, why.number(), why.name())
}

/// Why a text is no test.
pub(crate) fn say_test_refused(alloc: Global, why: TestRefused) -> Result<Vec<u8>, NoMemory>
    ensures { IfOk result (λ line. line.items ≡ test_refused why) }
{
    let mut buffer = Buffer::new();
    let (number, name) = (buffer.format(why.number()), why.name());
    let line = format!(in alloc; "test refused {number} {name}\n")?;
    Ok(line.into_bytes())
}
