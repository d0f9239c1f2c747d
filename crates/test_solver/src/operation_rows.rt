//! What the machine and the builder make of the same two numbers, in one table.

use bv_dag::Node;
use elf_load::{Image, Region, Regions, fit, load};
use row_files::row_file;
use rv_decode::{Instr, RegisterOp, decode};
use rv_machine::Machine;
use std::alloc::{AllocError as NoMemory, Global};
use std::process::Abort;
use std::test::Fail;
use term_simplify::Builder;

// Two pages of zeros.
const DATA: u32 = 0x11000;

/// An instruction that makes x10 of x6 and x7, the two numbers, and the result.
type Row = (u32, u32, u32, u32);

const ROWS: &[Row] = &[
    // MULHSU, MULHU, MULH
    (0x0273_2533, 0xFFFF_FFFF, 0xFFFF_FFFF, 0xFFFF_FFFF),
    (0x0273_3533, 0xFFFF_FFFF, 0xFFFF_FFFF, 0xFFFF_FFFE),
    (0x0273_1533, 0x8000_0000, 0x8000_0000, 0x4000_0000),
    // SRA
    (0x4073_5533, 0x8000_0000, 0, 0x8000_0000),
    (0x4073_5533, 0x8000_0000, 31, 0xFFFF_FFFF),
    (0x4073_5533, 0x8000_0000, 32, 0x8000_0000),
    // SLTU
    (0x0073_3533, 0xFFFF_FFFE, 0xFFFF_FFFF, 1),
    (0x0073_3533, 0xFFFF_FFFF, 0xFFFF_FFFF, 0),
    // DIV
    (0x0273_4533, 0xFFFF_FFF9, 2, 0xFFFF_FFFD),
    (0x0273_4533, 0xFFFF_FFF9, 0, 0xFFFF_FFFF),
    (0x0273_4533, 0x8000_0000, 0xFFFF_FFFF, 0x8000_0000),
    // REM
    (0x0273_6533, 0xFFFF_FFF9, 2, 0xFFFF_FFFF),
    (0x0273_6533, 0xFFFF_FFF9, 0, 0xFFFF_FFF9),
    (0x0273_6533, 0x8000_0000, 0xFFFF_FFFF, 0),
    // DIVU, REMU
    (0x0273_5533, 0xFFFF_FFF9, 2, 0x7FFF_FFFC),
    (0x0273_7533, 0xFFFF_FFF9, 2, 1),
    (0x0273_7533, 7, 0, 7),
    // ADD, SUB, MUL
    (0x0073_0533, 0xFFFF_FFFF, 2, 1),
    (0x4073_0533, 2, 3, 0xFFFF_FFFF),
    (0x0273_0533, 0x8000_0001, 2, 2),
    // SLL, SRL
    (0x0073_1533, 0x8000_0001, 33, 2),
    (0x0073_5533, 0x8000_0000, 31, 1),
    // SLT
    (0x0073_2533, 0x8000_0000, 0x7FFF_FFFF, 1),
    (0x0073_2533, 0x7FFF_FFFF, 0x8000_0000, 0),
    // XOR, OR, AND
    (0x0073_4533, 12, 10, 6),
    (0x0073_6533, 12, 10, 14),
    (0x0073_7533, 12, 10, 8),
];

// LUI and ADDI that make x6 a number; those that make x7 one have 0x80 more, and for ADDI 0x8000 too.
fn upper(number: u32) -> u32 {
    (number.wrapping_add(0x800) & 0xFFFF_F000) | 0x337
}

fn lower(number: u32) -> u32 {
    (number & 0xFFF) << 20 | 0x3_0313
}

// The program that makes the numbers, x10 of them, and writes that.
fn image_of(alloc: Global, word: u32, left: u32, right: u32) -> Result<Image, Fail> {
    let words = [
        upper(left),
        lower(left),
        upper(right) | 0x80,
        lower(right) | 0x8080,
        word,
        // x5 is 0x11000, where x10 is stored.
        0x0001_12B7,
        0x00A2_A023,
        // The call to write the four bytes.
        0x0040_0613,
        0x0010_0513,
        0x0002_8593,
        0x0400_0893,
        0x0000_0073,
    ];
    let file = row_file(alloc, &words)?;
    Ok(load(alloc, file.as_slice())?)
}

// Whether a program writes these bytes in its twelve steps.
fn writes(rt: &impl Abort, alloc: Global, image: &Image, want: &[u8]) -> Result<bool, NoMemory> {
    let region = Region {
        start: DATA + 16,
        count: 1,
    };
    let regions = Regions::from_vec(vec![in alloc; region]?);
    assert!(rt; fit(image, &regions).is_ok());
    let ran = Machine::start(alloc, image, &regions, &[0])?.run(12)?;
    Ok(ran.output.as_slice() == want)
}

// Whether the machine, where it is to write the result's four bytes, writes these.
fn on_machine(rt: &impl Abort, alloc: Global, row: &Row) -> Result<bool, Fail> {
    let (word, left, right, want) = *row;
    let image = image_of(alloc, word, left, right)?;
    let bytes = want.to_le_bytes();
    Ok(writes(rt, alloc, &image, bytes.as_slice())?)
}

fn number(rt: &impl Abort, builder: &mut Builder, value: u32) -> Result<usize, NoMemory> {
    let node = Node::Num {
        width: 32,
        value: u64::from(value),
    };
    assert!(rt; builder.terms().fits(&node));
    builder.build(node)
}

// The place of what an operation makes of two numbers.
fn combined(
    rt: &impl Abort,
    builder: &mut Builder,
    op: RegisterOp,
    left: u32,
    right: u32,
) -> Result<usize, NoMemory> {
    let a = number(rt, builder, left)?;
    let b = number(rt, builder, right)?;
    assert!(rt; a < builder.len() && builder.terms().width_of(a) == 32);
    assert!(rt; b < builder.len() && builder.terms().width_of(b) == 32);
    builder.combined(op, a, b)
}

// The number at a place, if one stands there.
fn number_at(builder: &Builder, id: usize) -> Option<u64> {
    if id >= builder.len() {
        return None;
    }
    match builder.terms().node(id) {
        Node::Num { value, .. } => Some(value),
        _ => None,
    }
}

// The number that the builder makes of two.
fn on_terms(
    rt: &impl Abort,
    alloc: Global,
    op: RegisterOp,
    left: u32,
    right: u32,
) -> Result<Option<u64>, NoMemory> {
    let mut builder = Builder::new(alloc, 0);
    let id = combined(rt, &mut builder, op, left, right)?;
    Ok(number_at(&builder, id))
}

#[test]
fn the_machine_and_the_builder_compute_the_same(rt: HostRuntime) -> Result<(), Fail> {
    let alloc = rt.alloc();
    for (i, row) in ROWS.iter().enumerate() {
        let (word, left, right, want) = *row;
        assert!(rt; on_machine(&rt, alloc, row)?, "in row {i}");
        let Some(Instr::Binary { op, .. }) = decode(word) else {
            panic!(rt; "row {i} has no operation of two registers")
        };
        let folded = on_terms(&rt, alloc, op, left, right)?;
        assert_eq!(rt; folded, Some(u64::from(want)), "in row {i}");
    }
    Ok(())
}
