//! The last stores by terms, in lists of updates as other engines keep them. Beside the bytes of a page a run keeps what was stored of
//! late to the places of a stride, and by which bits. A load from there then takes what was stored last by bits that are its own, and
//! else what stood there before: as many choices as stores, where among the bytes of the page it takes as many as there are places.

ghost use Rattle.std.specs.Prelude.{◌≡◌, ◌+◌, ◌≤◌, [], ◌∷◌, ◌++◌, All, IfOk, OnOk, Some};
ghost use Rattle.std.specs.Option.{option_copied};
ghost use Rattle.sym_state.specs.KeptUpdates.{KeptUpdates};
ghost use Rattle.sym_state.specs.Updates as spec;

use crate::selecting::bytes_of;
use crate::value::Value;
use crate::ways::Stride;
use cow_pages::Pages;
use cow_vec::CowVec;
use rv_decode::LoadWidth;
use rv_machine::PAGE;
use std::alloc::{AllocError as NoMemory, Global};
use std::marker::Model;

/// Where updates go: a stride of places on a page, each of as many bytes as a load of this width takes.
#[derive(Clone, Copy, Debug)]
pub struct Site {
    pub(crate) page: u32,
    pub(crate) width: LoadWidth,
    pub(crate) stride: Stride,
}

/// A store by a term: the bits of the way to its place, and the value whose low bytes were stored.
#[derive(Clone, Copy, Debug)]
pub struct Update {
    pub(crate) bits: usize,
    pub(crate) value: Value,
}

/// The last stores to one site.
pub(crate) struct UpdateList {
    pub(crate) site: Site,
    /// Memory before the first of the stores.
    pub(crate) before: Pages,
    /// What was stored, the oldest first.
    pub(crate) stored: CowVec<Update>,
}

impl Drop for UpdateList {
    fn drop(self) {
        let Self {
            site: _site,
            before: _before,
            stored: _stored,
        } = self;
    }
}

impl Model for UpdateList {
    ghost use Rattle.std.specs.Coded.{codes};
    ghost use Rattle.cow_pages.specs.SymbolicMemory.{SymbolicMemory, memory_code};
    ghost use Rattle.sym_state.specs.Updates as spec;
    ghost use Rattle.sym_state.specs.KeptUpdates.{KeptUpdates};

    ghost Value = { KeptUpdates };

    ghost coded = { Prim.hlevel (codes, memory_code) };

    ghost view = { λ t. record { site = t.site; before = t.before; stored = t.stored } };
}

impl Site {
    /// Whether the places are the same, and of as many bytes.
    fn is(self, other: Site) -> bool
        ensures { result ≡ spec.is_site self other }
    {
        self.page == other.page
            && bytes_of(self.width) == bytes_of(other.width)
            && self.stride.is(other.stride)
    }

    /// Whether a byte of one of the places is at an address.
    fn is_at(self, address: u32) -> bool
        requires short { self.stride.scale + self.stride.count ≤ 31 }
        ensures { result ≡ spec.is_at self address }
    {
        let many = bytes_of(self.width);
        address / PAGE == self.page && self.stride.steps_to(address / many * many).is_some()
    }
}

impl UpdateList {
    // No store yet.
    fn new(alloc: Global, site: Site, memory: &Pages) -> Result<UpdateList, NoMemory>
        ensures { IfOk result (λ list. list
            ≡ record { site = site; before = memory.now; stored = [] }) }
    {
        Ok(UpdateList {
            site,
            before: memory.share()?,
            stored: CowVec::new(alloc),
        })
    }

    // The list itself, while it has fewer stores than there are places, and else a new one.
    fn gone_on(&self, alloc: Global, site: Site, memory: &Pages) -> Result<UpdateList, NoMemory>
        requires short { self.now.site.stride.scale + self.now.site.stride.count ≤ 31 }
        ensures { IfOk result (λ list. list ≡ spec.begun site memory.now (Some self.now)) }
    {
        if self.stored.len() < 1 << self.site.stride.count {
            return self.share();
        }
        UpdateList::new(alloc, site, memory)
    }

    fn share(&self) -> Result<UpdateList, NoMemory>
        ensures { IfOk result (λ other. other ≡ self.now) }
    {
        Ok(UpdateList {
            site: self.site,
            before: self.before.share()?,
            stored: self.stored.share()?,
        })
    }
}

/// Shares of lists.
pub(crate) fn shared(alloc: Global, updates: &[UpdateList]) -> Result<Vec<UpdateList>, NoMemory>
    ensures { IfOk result (λ others. others.items ≡ updates.now) }
{
    let mut others = Vec::with_capacity(alloc, updates.len())?;
    for list in updates {
        others.push(list.share()?)?;
    }
    Ok(others)
}

/// The list at a site, if there is one.
pub(crate) fn updates_at(updates: &[UpdateList], site: Site) -> Option<&UpdateList>
    ensures { option_copied result ≡ spec.updates_at site updates.now }
{
    for list in updates {
        if list.site.is(site) {
            return Some(list);
        }
    }
    None
}

/// Gives up the lists for a byte at an address.
pub(crate) fn give_up(updates: &mut Vec<UpdateList>, address: u32)
    requires short { All (λ (t : KeptUpdates). t.site.stride.scale + t.site.stride.count ≤ 31) updates.old.items }
    ensures { updates.new.items ≡ spec.without address updates.old.items }
{
    let mut at = 0;
    while at < updates.len() {
        if updates[at].site.is_at(address) {
            updates.remove(at);
        } else {
            at += 1;
        }
    }
}

// The list that a store goes on with: the one there, while it has fewer stores than there are places, and else a new one.
fn begun(
    alloc: Global,
    updates: &[UpdateList],
    site: Site,
    memory: &Pages,
) -> Result<UpdateList, NoMemory>
    requires short { All (λ (t : KeptUpdates). t.site.stride.scale + t.site.stride.count ≤ 31) updates.now }
    ensures { IfOk result (λ list. list
        ≡ spec.begun site memory.now (spec.updates_at site updates.now)) }
{
    match updates_at(updates, site) {
        None => UpdateList::new(alloc, site, memory),
        Some(list) => list.gone_on(alloc, site, memory),
    }
}

// A share of the list behind others, if it is of another page.
fn push_other(others: &mut Vec<UpdateList>, list: &UpdateList, page: u32) -> Result<(), NoMemory>
    ensures { OnOk result (others.new.items ≡ others.old.items ++ spec.elsewhere page (list.now ∷ [])) }
{
    if list.site.page == page {
        return Ok(());
    }
    others.push(list.share()?)?;
    Ok(())
}

/// The lists after a store by a term, in this memory. Others of its page are given up.
pub(crate) fn updates_with(
    alloc: Global,
    updates: &[UpdateList],
    site: Site,
    memory: &Pages,
    one: Update,
) -> Result<Vec<UpdateList>, NoMemory>
    requires short { All (λ (t : KeptUpdates). t.site.stride.scale + t.site.stride.count ≤ 31) updates.now }
    ensures { IfOk result (λ others. others.items ≡ spec.updates_with site memory.now one updates.now) }
{
    let mut own = begun(alloc, updates, site, memory)?;
    own.stored.push(one)?;
    let mut others = Vec::with_capacity(alloc, updates.len())?;
    for list in updates {
        push_other(&mut others, list, site.page)?;
    }
    others.push(own)?;
    Ok(others)
}
