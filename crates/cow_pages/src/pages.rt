//! The memory of a symbolic run.

ghost use Rattle.std.specs.Prelude.{◌≡◌, ◌<◌, ◌/◌, ◌==◌, ℕ, if◌then◌else◌, is_some, IsSome, IfSome, IfOk, OnOk, OnErr};
ghost use Rattle.std.specs.FinMap as map;
ghost use Rattle.std.specs.Option.{option_copied, option_map};
ghost use Rattle.rv_spec.specs.Memory.{byte_of, flags_of};
ghost use Rattle.cow_pages.specs.Unwritten.{IsUnwritten};
ghost use Rattle.cow_pages.specs.SymbolicMemory.{HasAllBytes, as_symbolic, memory_byte, memory_flags, memory_with};

use crate::byte::Byte;
use crate::group::GROUP_SIZE;
use crate::groups::GroupList;
use crate::page::{PAGE_SIZE, Page};
use elf_load::Image;
use std::alloc::{AllocError as NoMemory, Global};
use std::marker::Model;
use std::sync::Arc;

/// The memory of a symbolic run: the mapped pages by their numbers. Which pages are mapped, and
/// what may be done on them, never changes.
///
/// Copies share their pages until one of them writes there.
#[derive(Debug)]
pub struct Pages {
    /// The pages of the image, as they were before any was written. All copies share them.
    base: Arc<GroupList>,
    /// The pages that were written.
    own: GroupList,
    /// Where is looked first.
    recent: Recent,
    /// The page that was turned to last, if it wasn't written.
    unwritten: Option<Unwritten>,
}

impl Drop for Pages {
    fn drop(self) {
        let Self {
            base: _base,
            own: _own,
            recent: _recent,
            unwritten: _unwritten,
        } = self;
    }
}

/// At which places the group of pages that was turned to last stood, or would have stood. A page of
/// that group is found there at once; any other is found too.
#[derive(Clone, Copy, Debug)]
struct Recent {
    group: u32,
    /// Its place among the groups of the image.
    base: usize,
    /// Its place among the groups that were written.
    own: usize,
    /// How many groups were written by then. One that is added may move its place.
    written: usize,
}

/// A page of the image that wasn't written.
#[derive(Clone, Copy, Debug)]
struct Unwritten {
    number: u32,
    /// The place of its group among those of the image.
    group: usize,
}

// The page of this number, if it is one of the image that wasn't written.
fn unwritten_in(base: &GroupList, own: &GroupList, recent: Recent, number: u32) -> Option<Unwritten>
    ensures { IfSome result (IsUnwritten base.now own.now) }
{
    if own.page(recent.own, number).is_some() {
        return None;
    }
    match base.search_near(recent.base, number / GROUP_SIZE) {
        Ok(group) => Some(Unwritten { number, group }),
        Err(_) => None,
    }
}

impl Model for Pages {
    ghost use Rattle.cow_pages.specs.SymbolicMemory as memory;
    ghost use Rattle.std.specs.Arc.{arc_value};
    ghost use Rattle.std.specs.Prelude.{IfSome};
    ghost use Rattle.cow_pages.specs.Groups.{memory_over};
    ghost use Rattle.cow_pages.specs.Unwritten.{IsUnwritten};

    ghost Value = { memory.SymbolicMemory };

    ghost coded = { memory.memory_code };

    ghost view = { λ p. memory_over (arc_value p.base) p.own };

    ghost invariant = { λ p. IfSome p.unwritten (IsUnwritten (arc_value p.base) p.own) };
}

impl Pages {
    /// The memory that an image begins with.
    pub fn new(alloc: Global, image: &Image) -> Result<Pages, NoMemory>
        ensures pages { IfOk result (λ pages. (number : ℕ) →
            map.get pages number ≡ option_map as_symbolic (map.get image.now.pages number)) }
        ensures bytes { IfOk result (λ pages. (address : ℕ) →
            memory_byte pages address ≡ Byte.Number (byte_of image.now address)) }
        ensures flags { IfOk result (λ pages. (number : ℕ) →
            memory_flags pages number ≡ flags_of image.now number) }
        ensures small { OnOk result ((address : ℕ) → byte_of image.now address < 256) }
    {
        let mut groups = GroupList::new(alloc);
        for (number, page) in image.pages() {
            let page = Page::of_numbers(alloc, page.flags, &page.bytes)?;
            groups.add_page(*number, page)?;
        }
        let base = Arc::new(alloc, groups)?;
        let own = GroupList::new(alloc);
        Ok(Pages {
            base,
            own,
            recent: Recent {
                group: 0,
                base: 0,
                own: 0,
                written: 0,
            },
            unwritten: None,
        })
    }

    // The page of this number, wherever it stands.
    fn find(&self, number: u32) -> Option<&Page>
        ensures value { option_copied result ≡ map.get self.now number }
        ensures mapped { is_some result ≡ is_some (memory_flags self.now number) }
        ensures whole { IfSome (map.get self.now number) HasAllBytes }
    {
        match self.own.page(self.recent.own, number) {
            Some(page) => Some(page),
            None => self.base.page(self.recent.base, number),
        }
    }

    /// The page of this number, if it is mapped.
    pub fn page(&self, number: u32) -> Option<&Page>
        ensures value { option_copied result ≡ map.get self.now number }
        ensures mapped { is_some result ≡ is_some (memory_flags self.now number) }
        ensures whole { IfSome (map.get self.now number) HasAllBytes }
    {
        match self.unwritten {
            Some(page) if page.number == number => self.base.page_at(page.group, number),
            _ => self.find(number),
        }
    }

    // Finds this page, and those near it, more quickly from now on.
    fn turn(&mut self, number: u32)
        ensures { self.new ≡ self.old }
    {
        let group = number / GROUP_SIZE;
        let written = self.own.len();
        if group != self.recent.group || written != self.recent.written {
            self.recent = Recent {
                group,
                base: self.base.place_near(self.recent.base, group),
                own: self.own.place_near(self.recent.own, group),
                written,
            };
        }
        self.unwritten = unwritten_in(&self.base, &self.own, self.recent, number);
    }

    /// Looks for this page and for those near it first from now on.
    pub fn turn_to(&mut self, number: u32)
        ensures { self.new ≡ self.old }
    {
        match self.unwritten {
            Some(page) if page.number == number => {}
            _ => self.turn(number),
        }
    }

    /// What may be done on the page of this number, if it is mapped.
    pub fn flags(&self, page: u32) -> Option<u8>
        ensures { result ≡ memory_flags self.now page }
    {
        let found = self.page(page)?;
        Some(found.flags())
    }

    /// The byte at this address of a mapped page.
    pub fn read(&self, address: u32) -> Byte
        requires { IsSome (memory_flags self.now (address / 256)) }
        ensures { result ≡ memory_byte self.now address }
    {
        let page = self.page(address / PAGE_SIZE).unwrap();
        page.byte((address % PAGE_SIZE) as u8)
    }

    /// Puts a byte to this address of a mapped page. Where others share the page, a copy of its own
    /// gets it.
    pub fn write(&mut self, address: u32, byte: Byte) -> Result<(), NoMemory>
        requires { IsSome (memory_flags self.old (address / 256)) }
        ensures ok { OnOk result (self.new ≡ memory_with self.old address byte) }
        ensures bytes { OnOk result ((x : ℕ) →
            memory_byte self.new x ≡ (if x == address then byte else memory_byte self.old x)) }
        ensures flags { OnOk result ((number : ℕ) →
            memory_flags self.new number ≡ memory_flags self.old number) }
        ensures err { OnErr result (self.new ≡ self.old) }
    {
        self.unwritten = None;
        self.own.write_over(&self.base, address, byte)
    }

    /// The same memory, on the same pages. What is written to one of the two isn't seen in the other.
    pub fn share(&self) -> Result<Pages, NoMemory>
        ensures { IfOk result (λ copy. copy ≡ self.now) }
    {
        Ok(Pages {
            base: Arc::try_clone(&self.base)?,
            own: self.own.share()?,
            recent: self.recent,
            unwritten: self.unwritten,
        })
    }
}
