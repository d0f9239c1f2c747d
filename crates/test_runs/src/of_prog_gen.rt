//! The program of number 1, word by word, and whether all load.

ghost use Rattle.std.specs.Prelude.{◌≤◌};

use elf_load::{fit, load};
use prog_gen::{Generated, generate};
use std::alloc::{AllocError as NoMemory, Global};
use std::test::Fail;

// Of number 1, whose only byte has the bound 1 + 11.
const FIRST: [u32; 15] = [
    0x0001_12B7,
    0x0000_0313,
    0x0002_C383,
    0x00C3_B393,
    0x0003_8463,
    0x0013_0313,
    0x1062_8023,
    0x0010_0513,
    0x1002_8593,
    0x0010_0613,
    0x0400_0893,
    0x0000_0073,
    0x0003_0513,
    0x05D0_0893,
    0x0000_0073,
];

fn code(alloc: Global) -> Result<Vec<u8>, NoMemory> {
    let mut code = Vec::new(alloc);
    for word in &FIRST {
        code.extend_from_slice(&word.to_le_bytes())?;
    }
    Ok(code)
}

// Whether a file of this length ends with the code of number 1.
fn is_first(alloc: Global, file: &[u8]) -> Result<bool, NoMemory> {
    let code = code(alloc)?;
    Ok(file.len() == 116 + 4 * 15 && file.ends_with(&code))
}

#[test]
fn the_first_program(rt: HostRuntime) -> Result<(), Fail> {
    let generated = generate(rt.alloc(), 1)?;
    assert!(rt; is_first(rt.alloc(), generated.file.as_slice())?);
    Ok(())
}

// Whether it loads, its regions fit, and it has the last byte of its data, and not the one behind.
fn is_fit(alloc: Global, generated: &Generated) -> Result<bool, Fail> {
    let image = load(alloc, generated.file.as_slice())?;
    Ok(
        fit(&image, &generated.regions).is_ok()
            && image.byte(0x0011_0FFF) == Some(0)
            && image.byte(0x0011_1000) == None,
    )
}

fn is_number_fit(alloc: Global, number: u32) -> Result<bool, Fail>
    requires least { 1 ≤ number }
    requires most { number ≤ 12 }
{
    let generated = generate(alloc, number)?;
    is_fit(alloc, &generated)
}

#[test]
fn each_program_loads(rt: HostRuntime) -> Result<(), Fail> {
    for number in 1..13 {
        assert!(rt; is_number_fit(rt.alloc(), number)?, "number {number}");
    }
    Ok(())
}
