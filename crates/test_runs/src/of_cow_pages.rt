//! What is written to one of two copies, and where.

use cow_pages::{Byte, Pages};
use elf_load::load;
use row_files::row_file;
use std::alloc::{AllocError as NoMemory, Global};
use std::process::Abort;
use std::test::Fail;

const CODE: u32 = 0x10000;

/// Two pages of zeros.
const DATA: u32 = 0x11000;

// What workers share is `Send` and `Sync`.
fn takes_shared<T: Send + Sync>(_value: &T) {}

// The memory of a program of one word, LUI of 0x87654 to t1.
fn pages(alloc: Global) -> Result<Pages, Fail> {
    let file = row_file(alloc, &[0x8765_4337])?;
    let image = load(alloc, file.as_slice())?;
    Ok(Pages::new(alloc, &image)?)
}

fn read(rt: &impl Abort, pages: &Pages, address: u32) -> Byte {
    assert!(rt; pages.flags(address / 256).is_some());
    pages.read(address)
}

fn write(rt: &impl Abort, pages: &mut Pages, address: u32, byte: Byte) -> Result<(), NoMemory> {
    assert!(rt; pages.flags(address / 256).is_some());
    pages.write(address, byte)
}

/// Pages, and the flags of those that are mapped.
const FLAGS: [(u32, Option<u8>); 12] = [
    (0xFF, None),
    (0x100, Some(5)),
    (0x101, None),
    (0x110, Some(6)),
    (0x111, Some(6)),
    (0x112, None),
    (0x140, None),
    (0x7FFEFF, None),
    (0x7FFF00, Some(6)),
    (0x7FFFFF, Some(6)),
    (0x800000, None),
    (0xFFFFFF, None),
];

/// Addresses, and the numbers that stand there.
const NUMBERS: [(u32, u8); 6] = [
    (CODE, 0x37),
    (CODE + 1, 0x43),
    (CODE + 2, 0x65),
    (CODE + 3, 0x87),
    (CODE + 4, 0),
    (0x7FFF_FFFF, 0),
];

fn check_flags(rt: &impl Abort, pages: &Pages) {
    for &(page, flags) in &FLAGS {
        assert!(rt; pages.flags(page) == flags, "page {page:x}");
    }
}

fn check_numbers(rt: &impl Abort, pages: &Pages) {
    for &(address, number) in &NUMBERS {
        assert!(rt;
            read(rt, pages, address) == Byte::Number(number),
            "at {address:x}"
        );
    }
}

#[test]
fn memory_is_the_images(rt: HostRuntime) -> Result<(), Fail> {
    let pages = pages(rt.alloc())?;
    takes_shared(&pages);
    check_flags(&rt, &pages);
    check_numbers(&rt, &pages);
    Ok(())
}

/// Addresses, and what the first copy, the second and the memory that was written after them hold there.
const COPIES: [(u32, Byte, Byte, Byte); 4] = [
    (DATA, Byte::Number(0), Byte::Number(0), Byte::Term(5)),
    (DATA + 1, Byte::Number(0), Byte::Number(0), Byte::Number(0)),
    (DATA + 255, Byte::Number(0), Byte::Number(7), Byte::Term(6)),
    (
        DATA + 256,
        Byte::Number(0),
        Byte::Number(0),
        Byte::Number(0),
    ),
];

fn check_copies(rt: &impl Abort, first: &Pages, second: &Pages, pages: &Pages) {
    for &(address, in_first, in_second, after) in &COPIES {
        let are = read(rt, first, address) == in_first
            && read(rt, second, address) == in_second
            && read(rt, pages, address) == after;
        assert!(rt; are, "at {address:x}");
    }
}

fn is_page_written(pages: &Pages) -> bool {
    match pages.page(DATA / 256) {
        Some(page) => {
            page.flags() == 6 && page.byte(0) == Byte::Term(5) && page.byte(1) == Byte::Number(0)
        }
        None => false,
    }
}

fn write_terms(rt: &impl Abort, pages: &mut Pages) -> Result<(), NoMemory> {
    write(rt, pages, DATA, Byte::Term(5))?;
    write(rt, pages, DATA + 255, Byte::Term(6))
}

// A number is written after the first copy was made, and terms are after the second.
fn check_writes(rt: &impl Abort, first: &Pages, pages: &mut Pages) -> Result<(), NoMemory> {
    write(rt, pages, DATA + 255, Byte::Number(7))?;
    let second = pages.share()?;
    write_terms(rt, pages)?;
    check_copies(rt, first, &second, pages);
    Ok(())
}

fn check_shares(rt: &impl Abort, pages: &mut Pages) -> Result<(), NoMemory> {
    let first = pages.share()?;
    check_writes(rt, &first, pages)
}

#[test]
fn a_write_is_seen_in_one_copy(rt: HostRuntime) -> Result<(), Fail> {
    let mut pages = pages(rt.alloc())?;
    check_shares(&rt, &mut pages)?;
    assert!(rt; is_page_written(&pages));
    Ok(())
}

// A write to one of two copies, and whether it alone has the byte then.
fn is_written_to_one(
    rt: &impl Abort,
    pages: &mut Pages,
    address: u32,
    byte: Byte,
) -> Result<bool, NoMemory> {
    let before = read(rt, pages, address);
    let copy = pages.share()?;
    write(rt, pages, address, byte)?;
    Ok(read(rt, pages, address) == byte && read(rt, &copy, address) == before)
}

// Writes 1,000 bytes to 512 places in turn.
fn check_rounds(rt: &impl Abort, pages: &mut Pages) -> Result<(), NoMemory> {
    for round in 0..1000 {
        let byte = Byte::Term(round as usize + 1);
        let is = is_written_to_one(rt, pages, DATA + round % 512, byte)?;
        assert!(rt; is, "in round {round}");
    }
    Ok(())
}

#[test]
fn copies_keep_what_they_had(rt: HostRuntime) -> Result<(), Fail> {
    let mut pages = pages(rt.alloc())?;
    check_rounds(&rt, &mut pages)?;
    let last = read(&rt, &pages, DATA) == Byte::Term(513);
    assert!(rt; last && read(&rt, &pages, DATA + 511) == Byte::Term(512));
    Ok(())
}
