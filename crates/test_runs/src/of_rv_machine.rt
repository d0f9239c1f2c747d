//! Programs that are run on one input each, by the rules of the manual.

use elf_load::{Image, Region, Regions, fit, load};
use row_files::row_file;
use rv_decode::{End, PathStep, Trap};
use rv_machine::{Machine, Ran, Step};
use std::alloc::{AllocError as NoMemory, Global};
use std::process::Abort;
use std::test::Fail;

const CODE: u32 = 0x10000;

// Where a file has its entry.
const ENTRY: usize = 24;

const DATA: u32 = 0x11000;

// Words, the input byte at 0x11000, the end, the steps, the path and what is written.
type Row = (
    &'static [u32],
    u8,
    Option<End>,
    u32,
    &'static [PathStep],
    &'static [u8],
);

const ROWS: [Row; 21] = [
    // ADDI and ECALL: exit 7.
    (
        &[0x0070_0513, 0x05D0_0893, 0x0000_0073],
        0,
        Some(End::Exit(7)),
        3,
        &[],
        &[],
    ),
    // LUI, LBU of the input byte, ADDI of 'A', and BEQ of both over an illegal word, which is taken for 'A'.
    (
        &[
            0x0001_12B7,
            0x0002_C383,
            0x0410_0313,
            0x0063_8463,
            0,
            0x0000_0073,
        ],
        0x41,
        Some(End::Trapped(Trap::Call)),
        5,
        &[PathStep::Taken],
        &[],
    ),
    // It isn't for 'B'.
    (
        &[
            0x0001_12B7,
            0x0002_C383,
            0x0410_0313,
            0x0063_8463,
            0,
            0x0000_0073,
        ],
        0x42,
        Some(End::Trapped(Trap::Illegal)),
        5,
        &[PathStep::NotTaken],
        &[],
    ),
    // Five bytes are written, and a0 is their number.
    (
        &[
            0x0001_12B7,
            0x0050_0613,
            0x0010_0513,
            0x0002_8593,
            0x0400_0893,
            0x0000_0073,
            0x05D0_0893,
            0x0000_0073,
        ],
        0x41,
        Some(End::Exit(5)),
        8,
        &[],
        &[0x41, 0, 0, 0, 0],
    ),
    // Bytes up to one that isn't mapped: none is written.
    (
        &[
            0x0001_12B7,
            0x2010_0613,
            0x0010_0513,
            0x0002_8593,
            0x0400_0893,
            0x0000_0073,
        ],
        0x41,
        Some(End::Trapped(Trap::LoadAccess)),
        6,
        &[],
        &[],
    ),
    // A file that isn't there.
    (
        &[0x0400_0893, 0x0000_0073],
        0,
        Some(End::Trapped(Trap::Call)),
        2,
        &[],
        &[],
    ),
    // JAL over a word links 0x10004.
    (
        &[0x0080_056F, 0, 0x05D0_0893, 0x0000_0073],
        0,
        Some(End::Exit(4)),
        3,
        &[],
        &[],
    ),
    // JAL and BEQ to no multiple of 4.
    (
        &[0x0020_056F],
        0,
        Some(End::Trapped(Trap::FetchMisaligned)),
        1,
        &[],
        &[],
    ),
    // The path's entry comes before the trap.
    (
        &[0x0000_0163],
        0,
        Some(End::Trapped(Trap::FetchMisaligned)),
        1,
        &[PathStep::Taken],
        &[],
    ),
    // JALR to 0x1000D, whose lowest bit is cleared, links 0x10008.
    (
        &[0x0001_02B7, 0x00D2_8567, 0, 0x05D0_0893, 0x0000_0073],
        0,
        Some(End::Exit(8)),
        4,
        &[PathStep::Target(0x1000C)],
        &[],
    ),
    // JALR to no multiple of 4.
    (
        &[0x0001_02B7, 0x00E2_8567],
        0,
        Some(End::Trapped(Trap::FetchMisaligned)),
        2,
        &[PathStep::Target(0x1000E)],
        &[],
    ),
    // SW, SH and SB of 0x87654321, and a write of all.
    (
        &[
            0x0001_12B7,
            0x8765_4337,
            0x3213_0313,
            0x0062_A223,
            0x0062_9423,
            0x0062_8523,
            0x00B0_0613,
            0x0020_0513,
            0x0002_8593,
            0x0400_0893,
            0x0000_0073,
            0x05D0_0893,
            0x0000_0073,
        ],
        0x41,
        Some(End::Exit(11)),
        13,
        &[],
        &[0x41, 0, 0, 0, 0x21, 0x43, 0x65, 0x87, 0x21, 0x43, 0x21],
    ),
    // LH of 0x8765 and SRAI by 8.
    (
        &[
            0x0001_12B7,
            0x8765_4337,
            0x3213_0313,
            0x0062_A223,
            0x0062_9503,
            0x4085_5513,
            0x05D0_0893,
            0x0000_0073,
        ],
        0,
        Some(End::Exit(135)),
        8,
        &[],
        &[],
    ),
    // AUIPC, and SRLI of 0x11004 by 12.
    (
        &[
            0x0000_0013,
            0x0000_1517,
            0x00C5_5513,
            0x05D0_0893,
            0x0000_0073,
        ],
        0,
        Some(End::Exit(17)),
        5,
        &[],
        &[],
    ),
    // FENCE and EBREAK.
    (
        &[0x0FF0_000F, 0x0010_0073],
        0,
        Some(End::Trapped(Trap::Break)),
        2,
        &[],
        &[],
    ),
    // LW from 0x11001, LB from 0.
    (
        &[0x0001_12B7, 0x0012_A503],
        0,
        Some(End::Trapped(Trap::LoadMisaligned)),
        2,
        &[],
        &[],
    ),
    // No page is mapped there.
    (
        &[0x0000_0503],
        0,
        Some(End::Trapped(Trap::LoadAccess)),
        1,
        &[],
        &[],
    ),
    // SH to 0x11001, SB to the code.
    (
        &[0x0001_12B7, 0x0062_90A3],
        0,
        Some(End::Trapped(Trap::StoreMisaligned)),
        2,
        &[],
        &[],
    ),
    // It can't be written.
    (
        &[0x0001_02B7, 0x0062_8023],
        0,
        Some(End::Trapped(Trap::StoreAccess)),
        2,
        &[],
        &[],
    ),
    // JAL to a page that can't be executed.
    (
        &[0x0000_106F],
        0,
        Some(End::Trapped(Trap::FetchAccess)),
        2,
        &[],
        &[],
    ),
    // JAL to itself, for all of the 100 steps.
    (&[0x0000_006F], 0, None, 100, &[], &[]),
];

// The low byte of each operation on -7 and 2.
const OPERATIONS: [(u32, u8); 27] = [
    // ADD
    (0x0073_0533, 0xFB),
    // SUB
    (0x4073_0533, 0xF7),
    // SLL
    (0x0073_1533, 0xE4),
    // SLT
    (0x0073_2533, 0x01),
    // SLTU
    (0x0073_3533, 0x00),
    // XOR
    (0x0073_4533, 0xFB),
    // SRL
    (0x0073_5533, 0xFE),
    // SRA
    (0x4073_5533, 0xFE),
    // OR
    (0x0073_6533, 0xFB),
    // AND
    (0x0073_7533, 0x00),
    // MUL
    (0x0273_0533, 0xF2),
    // MULH
    (0x0273_1533, 0xFF),
    // MULHSU
    (0x0273_2533, 0xFF),
    // MULHU
    (0x0273_3533, 0x01),
    // DIV
    (0x0273_4533, 0xFD),
    // DIVU
    (0x0273_5533, 0xFC),
    // REM
    (0x0273_6533, 0xFF),
    // REMU
    (0x0273_7533, 0x01),
    // ADDI
    (0x0023_0513, 0xFB),
    // SLTI
    (0x0023_2513, 0x01),
    // SLTIU
    (0x0023_3513, 0x00),
    // XORI
    (0x0023_4513, 0xFB),
    // ORI
    (0x0023_6513, 0xFB),
    // ANDI
    (0x0023_7513, 0x00),
    // SLLI
    (0x0023_1513, 0xE4),
    // SRLI
    (0x0023_5513, 0xFE),
    // SRAI
    (0x4023_5513, 0xFE),
];

// Branches that compare -7 and 2, and what they do.
const BRANCHES: [(u32, PathStep); 6] = [
    // BEQ
    (0x0073_0463, PathStep::NotTaken),
    // BNE
    (0x0073_1463, PathStep::Taken),
    // BLT
    (0x0073_4463, PathStep::Taken),
    // BGE
    (0x0073_5463, PathStep::NotTaken),
    // BLTU
    (0x0073_6463, PathStep::NotTaken),
    // BGEU
    (0x0073_7463, PathStep::Taken),
];

// The file of these words, with this entry.
fn file(alloc: Global, entry: u32, words: &[u32]) -> Result<Vec<u8>, Fail> {
    if 0x4000_0000 <= words.len() {
        return Err("a shorter program".into());
    }
    let mut bytes = row_file(alloc, words)?.into_vec();
    for (at, byte) in entry.to_le_bytes().iter().enumerate() {
        let place = ENTRY + at;
        if place < bytes.len() {
            bytes[place] = *byte;
        }
    }
    Ok(bytes)
}

fn image(alloc: Global, entry: u32, words: &[u32]) -> Result<Image, Fail> {
    let bytes = file(alloc, entry, words)?;
    let image = load(alloc, &bytes).ok().ok_or("the file loads")?;
    Ok(image)
}

// The machine before its first step, with the input byte at 0x11000.
fn started(rt: &impl Abort, alloc: Global, image: &Image, input: u8) -> Result<Machine, Fail> {
    let region = Region {
        start: DATA,
        count: 1,
    };
    let regions = Regions::from_vec(vec![in alloc; region]?);
    assert!(rt; fit(image, &regions).is_ok());
    Ok(Machine::start(alloc, image, &regions, &[input])?)
}

// The machine before its first step, at this entry.
fn machine_at(
    rt: &impl Abort,
    alloc: Global,
    entry: u32,
    words: &[u32],
    input: u8,
) -> Result<Machine, Fail> {
    let image = image(alloc, entry, words)?;
    started(rt, alloc, &image, input)
}

// The account of a run of so many steps at most.
fn run(rt: &impl Abort, alloc: Global, words: &[u32], input: u8, most: u32) -> Result<Ran, Fail> {
    let machine = machine_at(rt, alloc, CODE, words, input)?;
    Ok(machine.run(most)?)
}

// Whether a program runs as its row has it.
fn runs_so(rt: &impl Abort, alloc: Global, row: &Row) -> Result<bool, Fail> {
    let &(words, input, end, steps, path, output) = row;
    let ran = run(rt, alloc, words, input, 100)?;
    Ok(
        ran.end == end
            && ran.steps == steps
            && ran.path.as_slice() == path
            && ran.output.as_slice() == output,
    )
}

#[test]
fn programs_run_to_their_ends(rt: HostRuntime) -> Result<(), Fail> {
    for (i, row) in ROWS.iter().enumerate() {
        assert!(rt; runs_so(&rt, rt.alloc(), row)?, "in row {i}");
    }
    Ok(())
}

// How the program ends that does this operation on -7 and 2, and exits with what comes of it.
fn end_of(rt: &impl Abort, alloc: Global, word: u32) -> Result<Option<End>, Fail> {
    let words = [0xFF90_0313, 0x0020_0393, word, 0x05D0_0893, 0x0000_0073];
    let ran = run(rt, alloc, &words, 0, 5)?;
    Ok(ran.end)
}

#[test]
fn operations_compute(rt: HostRuntime) -> Result<(), Fail> {
    for (i, &(word, status)) in OPERATIONS.iter().enumerate() {
        let end = end_of(&rt, rt.alloc(), word)?;
        assert!(rt; end == Some(End::Exit(status)), "in row {i}");
    }
    Ok(())
}

// Whether this branch on -7 and 2 is the third step, and does this.
fn branches_so(rt: &impl Abort, alloc: Global, word: u32, step: PathStep) -> Result<bool, Fail> {
    let words = [0xFF90_0313, 0x0020_0393, word];
    let ran = run(rt, alloc, &words, 0, 3)?;
    Ok(ran.path.as_slice() == [step].as_slice() && ran.end == None && ran.steps == 3)
}

#[test]
fn branches_compare(rt: HostRuntime) -> Result<(), Fail> {
    for (i, &(word, step)) in BRANCHES.iter().enumerate() {
        assert!(rt; branches_so(&rt, rt.alloc(), word, step)?, "in row {i}");
    }
    Ok(())
}

// Whether a machine that hasn't ended ends so, and answers it again.
fn ends_so(machine: &mut Machine, end: End) -> Result<bool, NoMemory> {
    Ok(
        machine.end() == None
            && machine.step()? == Step::Ended(end)
            && machine.step()? == Step::Ended(end),
    )
}

#[test]
fn an_end_is_answered_again(rt: HostRuntime) -> Result<(), Fail> {
    let end = End::Trapped(Trap::FetchMisaligned);
    let mut machine = machine_at(&rt, rt.alloc(), CODE + 2, &[0, 0], 0)?;
    let ends = ends_so(&mut machine, end)?;
    let ran = machine.run(100)?;
    assert!(rt; ends && ran.end == Some(end) && ran.steps == 0);
    Ok(())
}
