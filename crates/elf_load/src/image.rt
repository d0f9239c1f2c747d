//! The memory that a program begins with.

ghost use Rattle.std.specs.Prelude.{◌≡◌, ◌/◌, ◌%◌, slice_index, is_some};
ghost use Rattle.std.specs.Option.{option_map, option_copied};
ghost use Rattle.std.specs.FinMap as map;

use crate::page::{PAGE_SIZE, Page};
use std::collections::BTreeMap;
use std::collections::btree_map::Iter;
use std::marker::Model;

/// Where a program begins, and its memory.
#[derive(Debug)]
pub struct Image {
    entry: u32,
    pages: BTreeMap<u32, Page>,
}

impl Drop for Image {
    fn drop(self) {
        let Self {
            entry: _entry,
            pages: _pages,
        } = self;
    }
}

impl Model for Image {
    ghost use Rattle.std.specs.FinMap.{from_entries};
    ghost use Rattle.elf_load.specs.Images as images;

    ghost Value = { images.Image };

    ghost coded = { images.image_code };

    ghost view = { λ i. record { entry = i.entry; pages = from_entries i.pages.entries } };
}

impl Image {
    ghost use Rattle.elf_load.specs.Pages.{map_of};

    /// The image that begins at this address, with these pages.
    pub(crate) fn new(entry: u32, pages: BTreeMap<u32, Page>) -> Image
        ensures entry { result.entry ≡ entry }
        ensures pages { result.pages ≡ map_of pages }
    {
        Image { entry, pages }
    }

    /// The address of the first instruction.
    pub fn entry(&self) -> u32
        ensures { result ≡ self.now.entry }
    {
        self.entry
    }

    /// The pages with their numbers, in order.
    pub fn pages(&self) -> Iter<'_, u32, Page>
        ensures { result ≡ map.entries self.now.pages }
    {
        self.pages.iter()
    }

    /// The page of this number, if it is mapped.
    pub fn page(&self, number: u32) -> Option<&Page>
        ensures value { option_copied result ≡ map.get self.now.pages number }
        ensures mapped { is_some result ≡ map.contains_key self.now.pages number }
    {
        self.pages.get(&number)
    }

    /// What may be done on the page of this number, if it is mapped.
    pub fn flags(&self, page: u32) -> Option<u8>
        ensures { result ≡ option_map (λ p. p.flags) (map.get self.now.pages page) }
    {
        let found = self.page(page)?;
        Some(found.flags)
    }

    /// The byte at this address, if its page is mapped.
    pub fn byte(&self, address: u32) -> Option<u8>
        ensures { result ≡ option_map (λ p. slice_index p.bytes (address % 256))
            (map.get self.now.pages (address / 256)) }
    {
        let found = self.page(address / 256)?;
        Some(found.bytes[address as usize % PAGE_SIZE])
    }
}
