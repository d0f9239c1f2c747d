//! Groups of pages whose numbers follow one another.

ghost use Rattle.std.specs.Prelude.{◌≡◌, ◌<◌, ℕ, length, slice_set, is_some, Some, None, IfOk, OnOk, OnErr};
ghost use Rattle.std.specs.Arc.{arc_value};
ghost use Rattle.std.specs.Option.{option_copied};
ghost use Rattle.cow_pages.specs.SymbolicMemory.{with_byte_at};
ghost use Rattle.cow_pages.specs.Groups.{page_at_place, shared_page, shared_places, with_byte_in};

use crate::byte::Byte;
use crate::page::Page;
use std::alloc::{AllocError as NoMemory, Global};
use std::marker::Model;
use std::sync::Arc;

/// How many pages have a place in a group.
pub(crate) const GROUP_SIZE: u32 = 64;

/// The places of 64 pages. A place is empty where no page is mapped.
#[derive(Debug, Drop)]
pub(crate) struct Group {
    pages: Vec<Option<Arc<Page>>>,
}

impl Model for Group {
    ghost use Rattle.std.specs.Prelude.{◌≡◌, length};
    ghost use Rattle.std.specs.Coded.{coded_list, coded_option};
    ghost use Rattle.cow_pages.specs.SymbolicMemory.{symbolic_page_code};
    ghost use Rattle.cow_pages.specs.Groups.{Places, shared_places};

    ghost Value = { Places };

    ghost coded = { coded_list (coded_option symbolic_page_code) };

    ghost view = { λ g. shared_places g.pages.items };

    ghost invariant = { λ g. length g.pages.items ≡ 64 };
}

/// The same page, shared.
fn share_page(page: &Option<Arc<Page>>) -> Result<Option<Arc<Page>>, NoMemory>
    ensures { IfOk result (λ copy. shared_page copy ≡ shared_page page.now) }
{
    match page {
        Some(page) => Ok(Some(Arc::try_clone(page)?)),
        None => Ok(None),
    }
}

/// Puts a byte to this offset of a page, if there is one, and says whether there is. Where others
/// share the page, a copy of its own gets it.
fn write_page(page: &mut Option<Arc<Page>>, offset: u8, byte: Byte) -> Result<bool, NoMemory>
    ensures there { IfOk result (λ there. there ≡ is_some (shared_page page.old)) }
    ensures ok { OnOk result (shared_page page.new
        ≡ with_byte_at (shared_page page.old) offset byte) }
    ensures err { OnErr result (shared_page page.new ≡ shared_page page.old) }
{
    match page {
        Some(page) => {
            Arc::make_mut(page)?.set(offset, byte)?;
            Ok(true)
        }
        None => Ok(false),
    }
}

impl Group {
    /// A group without pages.
    pub(crate) fn new(alloc: Global) -> Result<Group, NoMemory>
        ensures places { IfOk result (λ group. length group ≡ 64) }
        ensures empty { IfOk result (λ group. (place : ℕ) → page_at_place group place ≡ None) }
    {
        let mut pages = Vec::with_capacity(alloc, GROUP_SIZE as usize)?;
        for _place in 0..GROUP_SIZE {
            pages.push(None)?;
        }
        Ok(Group { pages })
    }

    /// The page at a place.
    pub(crate) fn page(&self, place: usize) -> Option<&Page>
        requires { place < 64 }
        ensures { option_copied result ≡ page_at_place self.now place }
    {
        match &self.pages[place] {
            Some(page) => Some(&**page),
            None => None,
        }
    }

    /// Puts a page to a place.
    pub(crate) fn put(&mut self, place: usize, page: Arc<Page>)
        requires { place < 64 }
        ensures { self.new ≡ slice_set self.old place (Some (arc_value page)) }
    {
        self.pages[place] = Some(page);
    }

    /// Puts a byte to this offset of the page at a place, if there is one, and says whether there is.
    pub(crate) fn write(&mut self, place: usize, offset: u8, byte: Byte) -> Result<bool, NoMemory>
        requires { place < 64 }
        ensures there { IfOk result (λ there. there ≡ is_some (page_at_place self.old place)) }
        ensures ok { OnOk result (self.new ≡ with_byte_in self.old place offset byte) }
        ensures err { OnErr result (self.new ≡ self.old) }
    {
        write_page(&mut self.pages[place], offset, byte)
    }
}

impl Clone for Group {
    ghost is_clone = { λ group copy. copy ≡ group };

    fn clone(&self) -> Result<Group, NoMemory> {
        let mut pages = Vec::with_capacity(*self.pages.allocator(), GROUP_SIZE as usize)?;
        for page in &self.pages {
            pages.push(share_page(page)?)?;
        }
        Ok(Group { pages })
    }
}
