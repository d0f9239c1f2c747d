//! Files that load, files that are refused, and regions that fit or do not.

use elf_load::*;
use std::alloc::Global;
use std::process::Abort;
use std::test::Fail;

// The header, a program header for the code, one for 512 bytes of data, and the code.
const FILE: [u32; 32] = [
    0x464C_457F,
    0x0001_0101,
    0,
    0,
    0x00F3_0002,
    1,
    0x0001_0000,
    52,
    0,
    0,
    0x0020_0034,
    2,
    0,
    1,
    116,
    0x0001_0000,
    0x0001_0000,
    12,
    12,
    5,
    4,
    1,
    0,
    0x0001_1000,
    0x0001_1000,
    0,
    512,
    6,
    4,
    0x0070_0513,
    0x05D0_0893,
    0x0000_0073,
];

const WHOLE: usize = 128;

// A length, bytes that are set at places, and what refuses the file.
const ROWS: [(usize, &[(usize, u8)], Option<Refused>); 34] = [
    (WHOLE, &[], None),
    (1_048_576, &[], None),
    (1_048_577, &[(0, 0)], Some(Refused::TooBig)),
    (0, &[], Some(Refused::Short)),
    (51, &[(0, 0)], Some(Refused::Short)),
    (WHOLE, &[(0, 0), (4, 2)], Some(Refused::Magic)),
    (WHOLE, &[(3, 0x45)], Some(Refused::Magic)),
    (WHOLE, &[(4, 2), (5, 2)], Some(Refused::Class)),
    (WHOLE, &[(5, 2), (6, 0)], Some(Refused::ByteOrder)),
    (WHOLE, &[(6, 0), (16, 3)], Some(Refused::Version)),
    (WHOLE, &[(21, 1)], Some(Refused::Version)),
    (WHOLE, &[(16, 3), (18, 0)], Some(Refused::FileType)),
    (WHOLE, &[(19, 1), (36, 1)], Some(Refused::Machine)),
    (WHOLE, &[(36, 1), (40, 0)], Some(Refused::Flags)),
    (WHOLE, &[(36, 8)], Some(Refused::Flags)),
    // The float ABI is no fault.
    (WHOLE, &[(36, 6)], None),
    (WHOLE, &[(40, 53), (44, 255)], Some(Refused::HeaderSize)),
    (WHOLE, &[(42, 40)], Some(Refused::HeaderSize)),
    // With no program header its size is no fault.
    (WHOLE, &[(42, 40), (44, 0)], Some(Refused::Nothing)),
    (115, &[], Some(Refused::HeadersPastEnd)),
    (WHOLE, &[(44, 0), (31, 1)], Some(Refused::HeadersPastEnd)),
    (WHOLE, &[(84, 2), (72, 0)], Some(Refused::Dynamic)),
    (WHOLE, &[(84, 3)], Some(Refused::Dynamic)),
    (127, &[(72, 11)], Some(Refused::FileOverMemory)),
    (127, &[(95, 0xFF)], Some(Refused::BytesPastEnd)),
    // The end of memory, the stack's first page, and the address below it.
    (
        WHOLE,
        &[(92, 0), (93, 0xFF), (94, 0xFF), (95, 0xFF)],
        Some(Refused::AddressRange),
    ),
    (WHOLE, &[(93, 0xFE), (94, 0xFF), (95, 0xFF)], None),
    (
        WHOLE,
        &[(93, 0xFF), (94, 0xFE), (95, 0x7F)],
        Some(Refused::AddressRange),
    ),
    (WHOLE, &[(93, 0xFE), (94, 0xFE), (95, 0x7F)], None),
    // Four gibibytes.
    (
        WHOLE,
        &[(104, 0xFF), (105, 0xFF), (106, 0xFF), (107, 0xFF)],
        Some(Refused::AddressRange),
    ),
    (WHOLE, &[(92, 8), (93, 0)], Some(Refused::Overlap)),
    // 16,384 pages with that of the code, and one more.
    (WHOLE, &[(105, 0xFF), (106, 0x3F)], None),
    (
        WHOLE,
        &[(104, 1), (105, 0xFF), (106, 0x3F)],
        Some(Refused::TooManyPages),
    ),
    (WHOLE, &[(52, 0), (84, 0)], Some(Refused::Nothing)),
];

fn file(alloc: Global, length: usize, edits: &[(usize, u8)]) -> Result<Vec<u8>, Fail> {
    let mut bytes = Vec::new(alloc);
    for word in &FILE {
        bytes.extend_from_slice(&word.to_le_bytes())?;
    }
    bytes.resize(length, 0)?;
    for &(at, value) in edits {
        if at < bytes.len() {
            bytes[at] = value;
        }
    }
    Ok(bytes)
}

fn image_of(alloc: Global, edits: &[(usize, u8)]) -> Result<Image, Fail> {
    let bytes = file(alloc, WHOLE, edits)?;
    Ok(load(alloc, &bytes)?)
}

fn answer(alloc: Global, length: usize, edits: &[(usize, u8)]) -> Result<Option<Refused>, Fail> {
    let bytes = file(alloc, length, edits)?;
    match load(alloc, &bytes) {
        Ok(_) => Ok(None),
        Err(LoadError::Refused(refused)) => Ok(Some(refused)),
        Err(LoadError::NoMemory) => Err(Fail::from("no memory")),
    }
}

#[test]
fn answers(rt: HostRuntime) -> Result<(), Fail> {
    for (i, &(length, edits, wanted)) in ROWS.iter().enumerate() {
        let found = answer(rt.alloc(), length, edits)?;
        assert!(rt; found == wanted, "in row {i}");
    }
    Ok(())
}

const PAGES: [(u32, Option<u8>); 6] = [
    (0x100, Some(5)),
    (0x110, Some(6)),
    (0x112, None),
    (0x7F_FEFF, None),
    (0x7F_FF00, Some(6)),
    (0x7F_FFFF, Some(6)),
];

const BYTES: [(u32, Option<u8>); 8] = [
    (0x10000, Some(0x13)),
    (0x10001, Some(0x05)),
    (0x10002, Some(0x70)),
    (0x10008, Some(0x73)),
    (0x1000C, Some(0)),
    (0x111FF, Some(0)),
    (0x11200, None),
    (0x7FFF_FFFF, Some(0)),
];

fn check_pages(rt: &impl Abort, image: &Image, pages: &[(u32, Option<u8>)]) {
    for &(page, wanted) in pages {
        assert!(rt; image.flags(page) == wanted, "on page {page}");
    }
}

fn check_bytes(rt: &impl Abort, image: &Image, bytes: &[(u32, Option<u8>)]) {
    for &(address, wanted) in bytes {
        assert!(rt; image.byte(address) == wanted, "at {address}");
    }
}

#[test]
fn an_image(rt: HostRuntime) -> Result<(), Fail> {
    let image = image_of(rt.alloc(), &[])?;
    assert!(rt; image.entry() == 0x10000);
    check_pages(&rt, &image, &PAGES);
    check_bytes(&rt, &image, &BYTES);
    Ok(())
}

// The second segment begins on the first's page, and the first has bits set that say nothing.
const SHARED: [(usize, u8); 4] = [(92, 12), (93, 0), (76, 0xFC), (108, 2)];

const SHARED_PAGES: [(u32, Option<u8>); 3] = [(0x100, Some(6)), (0x102, Some(2)), (0x103, None)];

const SHARED_BYTES: [(u32, Option<u8>); 2] = [(0x10008, Some(0x73)), (0x1000C, Some(0))];

#[test]
fn a_shared_page(rt: HostRuntime) -> Result<(), Fail> {
    let image = image_of(rt.alloc(), &SHARED)?;
    check_pages(&rt, &image, &SHARED_PAGES);
    check_bytes(&rt, &image, &SHARED_BYTES);
    Ok(())
}

// Starts and counts of regions, and whether they fit.
const REGION_ROWS: [(&[(u32, u32)], Result<(), Unfit>); 13] = [
    (&[], Ok(())),
    (&[(0x11000, 256)], Ok(())),
    (&[(0x11000, 1), (0x11001, 1), (0x110FF, 2)], Ok(())),
    (&[(0x11000, 1); 9], Err(Unfit::TooMany)),
    (&[(0x11000, 0)], Err(Unfit::Empty)),
    (&[(0x11000, 512)], Ok(())),
    (&[(0x7FFF_0000, 1_024)], Ok(())),
    (&[(0x7FFF_0000, 1_025)], Err(Unfit::TooLong)),
    (&[(0x11000, 1_025)], Err(Unfit::TooLong)),
    (&[(0x12000, 1)], Err(Unfit::Unmapped)),
    (&[(0x111FF, 2)], Err(Unfit::Unmapped)),
    (&[(0xFFFF_FFFF, 2)], Err(Unfit::Unmapped)),
    (&[(0x11000, 1), (0x11000, 1)], Err(Unfit::Overlap)),
];

fn regions_of(alloc: Global, pairs: &[(u32, u32)]) -> Result<Regions, Fail> {
    let mut items = Vec::new(alloc);
    for &(start, count) in pairs {
        items.push(Region { start, count })?;
    }
    Ok(Regions::from_vec(items))
}

fn check_regions(rt: &impl Abort, alloc: Global, image: &Image) -> Result<(), Fail> {
    for (i, &(pairs, wanted)) in REGION_ROWS.iter().enumerate() {
        let regions = regions_of(alloc, pairs)?;
        assert!(rt; fit(image, &regions) == wanted, "in row {i}");
    }
    Ok(())
}

#[test]
fn regions(rt: HostRuntime) -> Result<(), Fail> {
    let image = image_of(rt.alloc(), &[])?;
    check_regions(&rt, rt.alloc(), &image)
}

#[test]
fn names(rt: HostRuntime) {
    assert_eq!(rt; Refused::Nothing.number(), 18);
    assert_eq!(rt; Refused::AddressRange.name(), "AddressRange");
    assert_eq!(rt; Unfit::Overlap.number(), 5);
    assert_eq!(rt; Unfit::Overlap.name(), "Overlap");
}
