//! The groups of a memory, in the order of their numbers.

ghost use Rattle.std.specs.Prelude.{◌≡◌, ◌<◌, ◌/◌, [], length, slice_set, is_some, Some, IsSome, IfSome, IfOk, IfErr, OnOk, OnErr};
ghost use Rattle.std.specs.Arc.{arc_value};
ghost use Rattle.std.specs.FinMap as map;
ghost use Rattle.std.specs.Option.{option_copied};
ghost use Rattle.cow_pages.specs.Groups.{AreGroups, IsGapFor, IsGroupAt, memory_in, memory_over, page_at_place, with_byte_in};
ghost use Rattle.cow_pages.specs.SymbolicMemory.{HasAllBytes, memory_with};

use crate::byte::Byte;
use crate::group::{GROUP_SIZE, Group};
use crate::page::{PAGE_SIZE, Page};
use std::alloc::{AllocError as NoMemory, Global};
use std::marker::Model;
use std::sync::Arc;

/// Groups of pages with their numbers, which rise.
#[derive(Debug, Drop)]
pub(crate) struct GroupList {
    groups: Vec<(u32, Arc<Group>)>,
}

impl Model for GroupList {
    ghost use Rattle.std.specs.Coded.{coded×, coded_ℕ, coded_list, coded_option};
    ghost use Rattle.cow_pages.specs.SymbolicMemory.{symbolic_page_code};
    ghost use Rattle.cow_pages.specs.Groups.{AreGroups, Groups, shared_groups};

    ghost Value = { Groups };

    ghost coded = { coded_list (coded× coded_ℕ (coded_list (coded_option symbolic_page_code))) };

    ghost view = { λ l. shared_groups l.groups.items };

    ghost invariant = { λ l. AreGroups (shared_groups l.groups.items) };
}

/// Puts a page to a place of a group. Where others share the group, a copy of its own gets it.
fn put_page(group: &mut Arc<Group>, place: usize, page: Arc<Page>) -> Result<(), NoMemory>
    requires { place < 64 }
    ensures ok { OnOk result
        (arc_value group.new ≡ slice_set (arc_value group.old) place (Some (arc_value page))) }
    ensures err { OnErr result (arc_value group.new ≡ arc_value group.old) }
{
    Arc::make_mut(group)?.put(place, page);
    Ok(())
}

/// Puts a byte to this offset of the page at a place of a group, if there is one, and says whether
/// there is. Where others share the group, a copy of its own gets it.
fn write_byte(
    group: &mut Arc<Group>,
    place: usize,
    offset: u8,
    byte: Byte,
) -> Result<bool, NoMemory>
    requires { place < 64 }
    ensures there { IfOk result (λ there. there
        ≡ is_some (page_at_place (arc_value group.old) place)) }
    ensures ok { OnOk result
        (arc_value group.new ≡ with_byte_in (arc_value group.old) place offset byte) }
    ensures err { OnErr result (arc_value group.new ≡ arc_value group.old) }
{
    Arc::make_mut(group)?.write(place, offset, byte)
}

impl GroupList {
    /// A list without groups.
    pub(crate) fn new(alloc: Global) -> GroupList
        ensures { result ≡ [] }
    {
        GroupList {
            groups: Vec::new(alloc),
        }
    }

    /// The place of the group of this number, or the place at which it would stand.
    fn search(&self, number: u32) -> Result<usize, usize>
        ensures found { IfOk result (IsGroupAt self.now number) }
        ensures gap { IfErr result (IsGapFor self.now number) }
    {
        self.groups.binary_search_by_key(&number, |group| group.0)
    }

    /// What `search` says. It is said at once of a group that stands at this place, of one below all,
    /// and where there are none.
    pub(crate) fn search_near(&self, recent: usize, number: u32) -> Result<usize, usize>
        ensures found { IfOk result (IsGroupAt self.now number) }
        ensures gap { IfErr result (IsGapFor self.now number) }
        ensures groups { AreGroups self.now }
    {
        match self.groups.get(recent) {
            Some(group) if group.0 == number => Ok(recent),
            Some(group) if recent == 0 && number < group.0 => Err(0),
            None if recent == 0 => Err(0),
            _ => self.search(number),
        }
    }

    /// How many groups there are.
    pub(crate) fn len(&self) -> usize
        ensures { result ≡ length self.now }
    {
        self.groups.len()
    }

    /// The place at which the group of this number stands or would stand.
    pub(crate) fn place_near(&self, recent: usize, number: u32) -> usize {
        match self.search_near(recent, number) {
            Ok(place) => place,
            Err(place) => place,
        }
    }

    /// The page of this number, if it is here. Its group has this place.
    pub(crate) fn page_at(&self, group: usize, number: u32) -> Option<&Page>
        requires group { IsGroupAt self.now (number / 64) group }
        ensures value { option_copied result ≡ map.get (memory_in self.now) number }
        ensures whole { IfSome (map.get (memory_in self.now) number) HasAllBytes }
    {
        self.groups[group].1.page((number % GROUP_SIZE) as usize)
    }

    /// The page of this number, if it is here. It is found at once where its group has this place.
    pub(crate) fn page(&self, recent: usize, number: u32) -> Option<&Page>
        ensures value { option_copied result ≡ map.get (memory_in self.now) number }
        ensures whole { IfSome (map.get (memory_in self.now) number) HasAllBytes }
    {
        match self.search_near(recent, number / GROUP_SIZE) {
            Ok(group) => self.page_at(group, number),
            Err(_) => None,
        }
    }

    /// The place of the group of this number. Where there is none, one without pages is put in.
    fn group_place(&mut self, number: u32) -> Result<usize, NoMemory>
        ensures same { memory_in self.new ≡ memory_in self.old }
        ensures place { IfOk result (IsGroupAt self.new number) }
    {
        match self.search(number) {
            Ok(place) => Ok(place),
            Err(place) => {
                let alloc = *self.groups.allocator();
                let group = Arc::new(alloc, Group::new(alloc)?)?;
                self.groups.insert(place, (number, group))?;
                Ok(place)
            }
        }
    }

    /// Puts a page to its place.
    pub(crate) fn add_page(&mut self, number: u32, page: Page) -> Result<(), NoMemory>
        requires { HasAllBytes page }
        ensures ok { OnOk result (memory_in self.new
            ≡ map.insert (memory_in self.old) number page) }
        ensures err { OnErr result (memory_in self.new ≡ memory_in self.old) }
    {
        let page = Arc::new(*self.groups.allocator(), page)?;
        let group = self.group_place(number / GROUP_SIZE)?;
        put_page(
            &mut self.groups[group].1,
            (number % GROUP_SIZE) as usize,
            page,
        )
    }

    /// Puts a byte to this address, if its page is here, and says whether it is.
    fn write(&mut self, address: u32, byte: Byte) -> Result<bool, NoMemory>
        ensures there { IfOk result (λ there. there
            ≡ is_some (map.get (memory_in self.old) (address / 256))) }
        ensures whole { IfSome (map.get (memory_in self.old) (address / 256)) HasAllBytes }
        ensures ok { OnOk result (memory_in self.new
            ≡ memory_with (memory_in self.old) address byte) }
        ensures err { OnErr result (memory_in self.new ≡ memory_in self.old) }
    {
        let number = address / PAGE_SIZE;
        match self.search(number / GROUP_SIZE) {
            Ok(group) => {
                let place = (number % GROUP_SIZE) as usize;
                let offset = (address % PAGE_SIZE) as u8;
                write_byte(&mut self.groups[group].1, place, offset, byte)
            }
            Err(_) => Ok(false),
        }
    }

    /// Puts a byte to this address. Where its page isn't here, the one of `base` is copied first.
    pub(crate) fn write_over(
        &mut self,
        base: &GroupList,
        address: u32,
        byte: Byte,
    ) -> Result<(), NoMemory>
        requires { IsSome (map.get (memory_over base.now self.old) (address / 256)) }
        ensures whole { OnOk result (IfSome
            (map.get (memory_over base.now self.old) (address / 256)) HasAllBytes) }
        ensures ok { OnOk result
            (memory_over base.now self.new
            ≡ memory_with (memory_over base.now self.old) address byte) }
        ensures err { OnErr result (memory_over base.now self.new ≡ memory_over base.now self.old) }
    {
        if self.write(address, byte)? {
            return Ok(());
        }
        let number = address / PAGE_SIZE;
        let page = base.page(0, number).unwrap();
        let copy = page.with_byte((address % PAGE_SIZE) as u8, byte)?;
        self.add_page(number, copy)
    }

    /// The same groups, shared.
    pub(crate) fn share(&self) -> Result<GroupList, NoMemory>
        ensures { IfOk result (λ copy. copy ≡ self.now) }
    {
        let mut groups = Vec::with_capacity(*self.groups.allocator(), self.groups.len())?;
        for (number, group) in &self.groups {
            groups.push((*number, Arc::try_clone(group)?))?;
        }
        Ok(GroupList { groups })
    }
}
