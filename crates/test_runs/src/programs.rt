//! Programs of one input byte.

ghost use Rattle.std.specs.Prelude.{◌≡◌, ◌∷◌, [], IfOk};

use elf_load::{Image, Region, Regions, fit, load};
use row_files::row_file;
use std::alloc::Global;
use std::process::Abort;
use std::test::Fail;
use sym_state::Program;

const INPUT: Region = Region {
    start: 0x11000,
    count: 1,
};

/// The image of these words.
pub fn image_of(rt: &impl Abort, alloc: Global, words: &[u32]) -> Result<Image, Fail> {
    assert!(rt; words.len() < 1000);
    let file = row_file(alloc, words)?;
    Ok(load(alloc, file.as_slice())?)
}

/// The program of these words.
pub fn program_of(rt: &impl Abort, alloc: Global, words: &[u32]) -> Result<Program, Fail>
    ensures one_byte { IfOk result (λ program. program.regions
        ≡ record { start = 0x11000; count = 1 } ∷ []) }
{
    let regions = Regions::from_vec(Vec::from_slice(alloc, &[INPUT])?);
    let image = image_of(rt, alloc, words)?;
    assert!(rt; fit(&image, &regions).is_ok());
    Ok(Program::new(image, regions))
}
