//! The memory of a machine: pages of 256 bytes in the order of their numbers.

ghost use Rattle.std.specs.Prelude.{◌≡◌, ◌∷◌, ◌+◌, ◌≤◌, ◌<◌, [], true, drop, length, slice_set, IfOk, IfSome, IfNone, None};
ghost use Rattle.std.specs.FinMap as map;
ghost use Rattle.std.specs.FinMap.{find as find_page};
ghost use Rattle.std.specs.Option.{option_copied};
ghost use Rattle.std.specs.Ordering.{nat_cmp};
ghost use Rattle.byteorder.specs.Endian.{little_number};
ghost use Rattle.rv_decode.specs.Instructions.{ShiftsBelow32};
ghost use Rattle.rv_spec.specs.Machine as machine;
ghost use Rattle.rv_spec.specs.Memory.{can_write, is_mapped, with_bytes};
ghost use Rattle.rv_machine.specs.Pages.{AreByNumber, IsPlaceOf, byte_on, flags_on};

use byteorder::{ByteOrder, LittleEndian};
use elf_load::{Image, Page};
use rv_decode::{Instr, Trap, decode};
use std::alloc::{AllocError as NoMemory, Global};
use std::marker::Model;

/// The bytes of a page.
pub const PAGE: u32 = 256;

/// The flag of a page whose instructions can be executed.
pub const EXECUTE: u8 = 1;

/// The pages of a machine's memory. It keeps where the pages stand that were used last, since these are mostly used again.
#[derive(Debug)]
pub struct Memory {
    /// Pages with their numbers, which rise.
    pages: Vec<(u32, Page)>,
    /// The place of the page that an instruction was last fetched from.
    fetched: usize,
    /// The place of the page that was last read or written.
    touched: usize,
}

impl Drop for Memory {
    fn drop(self) {
        let Self {
            pages: _pages,
            fetched: _fetched,
            touched: _touched,
        } = self;
    }
}

impl Model for Memory {
    ghost use Rattle.std.specs.FinMap.{from_entries};
    ghost use Rattle.rv_machine.specs.Pages.{Pages, pages_code, AreByNumber};

    ghost Value = { Pages };

    ghost coded = { pages_code };

    ghost view = { λ m. from_entries m.pages.items };

    ghost invariant = { λ m. AreByNumber m.pages.items };
}

/// The place of the page of this number, by halving.
fn search(pages: &[(u32, Page)], number: u32) -> Option<usize>
    requires { AreByNumber pages.now }
    ensures found { IfSome result (IsPlaceOf pages.now number) }
    ensures absent { IfNone result (find_page nat_cmp number pages.now ≡ None) }
{
    match pages.binary_search_by_key(&number, |page| page.0) {
        Ok(place) => Some(place),
        Err(_) => None,
    }
}

/// The place of the page of this number. One place is tried first.
fn find(pages: &[(u32, Page)], first: usize, number: u32) -> Option<usize>
    requires { AreByNumber pages.now }
    ensures found { IfSome result (IsPlaceOf pages.now number) }
    ensures absent { IfNone result (find_page nat_cmp number pages.now ≡ None) }
{
    if first < pages.len() && pages[first].0 == number {
        return Some(first);
    }
    search(pages, number)
}

/// The page of this number. The place is tried first, and is then the page's.
fn page<'a>(pages: &'a [(u32, Page)], place: &mut usize, number: u32) -> Option<&'a Page>
    requires { AreByNumber pages.now }
    ensures { option_copied result ≡ find_page nat_cmp number pages.now }
{
    let found = find(pages, *place, number)?;
    *place = found;
    Some(&pages[found].1)
}

/// The word of the four bytes from a place on, low byte first.
pub fn word(bytes: &[u8], at: usize) -> u32
    requires { at + 4 ≤ length bytes.now }
    ensures { result ≡ little_number 4 (drop at bytes.now) }
{
    LittleEndian::read_u32(&bytes[at..])
}

/// Puts a byte to a place of a page.
fn put(page: &mut Page, at: usize, byte: u8)
    requires { at < 256 }
    ensures byte { page.new ≡ record page.old { bytes = slice_set page.old.bytes at byte } }
    ensures size { length page.old.bytes ≡ 256 }
{
    page.bytes[at] = byte;
}

/// The pages of an image with their numbers, in order.
fn pages_of(alloc: Global, image: &Image) -> Result<Vec<(u32, Page)>, NoMemory>
    ensures { IfOk result (λ pages. pages.items ≡ map.entries image.now.pages) }
{
    let mut pages = Vec::new(alloc);
    for (number, page) in image.pages() {
        pages.push((*number, *page))?;
    }
    Ok(pages)
}

impl Memory {
    /// The memory that an image begins with.
    pub(crate) fn of_image(alloc: Global, image: &Image) -> Result<Memory, NoMemory>
        ensures { IfOk result (λ memory. memory ≡ image.now.pages) }
    {
        Ok(Memory {
            pages: pages_of(alloc, image)?,
            fetched: 0,
            touched: 0,
        })
    }

    /// Whether a page is mapped at this address.
    pub fn is_mapped(&mut self, address: u32) -> bool
        ensures same { self.new ≡ self.old }
        ensures value { result ≡ is_mapped (flags_on self.old) address }
    {
        page(&self.pages, &mut self.touched, address / PAGE).is_some()
    }

    /// Whether bytes can be written at this address.
    pub fn can_write(&mut self, address: u32) -> bool
        ensures same { self.new ≡ self.old }
        ensures value { result ≡ can_write (flags_on self.old) address }
    {
        let Some(page) = page(&self.pages, &mut self.touched, address / PAGE) else {
            return false;
        };
        page.flags / 2 % 2 == 1
    }

    /// The byte at this address, 0 where no page is mapped.
    pub fn read(&mut self, address: u32) -> u8
        ensures same { self.new ≡ self.old }
        ensures value { result ≡ byte_on self.old address }
    {
        let Some(page) = page(&self.pages, &mut self.touched, address / PAGE) else {
            return 0;
        };
        page.bytes[(address % PAGE) as usize]
    }

    /// Puts a byte to this address of a mapped page.
    pub fn write(&mut self, address: u32, byte: u8)
        requires { is_mapped (flags_on self.old) address ≡ true }
        ensures flags { flags_on self.new ≡ flags_on self.old }
        ensures bytes { byte_on self.new ≡ with_bytes (byte_on self.old) address (byte ∷ []) }
    {
        if let Some(place) = find(&self.pages, self.touched, address / PAGE) {
            self.touched = place;
            put(&mut self.pages[place].1, (address % PAGE) as usize, byte);
        }
    }

    /// The instruction at this address, or why there is none.
    pub fn fetch(&mut self, pc: u32) -> Result<Instr, Trap>
        ensures same { self.new ≡ self.old }
        ensures value { result ≡ machine.fetch (flags_on self.old) (byte_on self.old) pc }
        ensures amount { IfOk result ShiftsBelow32 }
    {
        if pc % 4 != 0 {
            return Err(Trap::FetchMisaligned);
        }
        let Some(page) = page(&self.pages, &mut self.fetched, pc / PAGE) else {
            return Err(Trap::FetchAccess);
        };
        if page.flags % 2 != EXECUTE {
            return Err(Trap::FetchAccess);
        }
        decode(word(&page.bytes, (pc % PAGE) as usize)).ok_or(Trap::Illegal)
    }
}
