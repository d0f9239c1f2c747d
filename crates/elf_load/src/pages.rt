//! The pages that areas of memory take.

ghost use Rattle.std.specs.Prelude.{◌≡◌, ◌+◌, ◌*◌, ℕ, List, ◌∷◌, length, slice_index, IfOk, OnOk};
ghost use Rattle.std.specs.BTreeMap as tree;
ghost use Rattle.std.specs.List.{All};
ghost use Rattle.std.specs.Ordering.{nat_cmp};
ghost use Rattle.elf_load.specs.Areas.{IsPlaced};
ghost use Rattle.elf_load.specs.Images.{byte_in};
ghost use Rattle.elf_load.specs.Pages.{flags_in, HoldsAreas};
ghost use Rattle.elf_load.specs.declared.header.ProgramHeader.{ProgramHeader};

use crate::header::ProgramHeader;
use crate::page::{Page, add_area, blank_page};
use std::alloc::{AllocError as NoMemory, Global};
use std::collections::BTreeMap;

/// The page of this number, or a blank one where there is none.
fn page_or_blank(pages: &BTreeMap<u32, Page>, number: u32) -> Page
    ensures flags { result.flags ≡ flags_in (tree.get nat_cmp pages.now number) }
    ensures content { (i : ℕ)
        → slice_index result.bytes i ≡ byte_in (tree.get nat_cmp pages.now number) i }
{
    match pages.get(&number) {
        Some(page) => *page,
        None => blank_page(),
    }
}

/// Maps the pages that an area touches, and puts its bytes there.
fn map_area(
    pages: &mut BTreeMap<u32, Page>,
    area: &ProgramHeader,
    bytes: &[u8],
) -> Result<(), NoMemory>
    requires { IsPlaced (length bytes.now) area.now }
    ensures { OnOk result ((areas : List ProgramHeader) → HoldsAreas bytes.now areas pages.old
        → HoldsAreas bytes.now (area.now ∷ areas) pages.new) }
{
    let past = area.last_page() + 1;
    for number in area.first_page()..past {
        let mut page = page_or_blank(pages, number);
        add_area(&mut page, number, area, bytes);
        pages.insert(number, page)?;
    }
    Ok(())
}

/// The pages that these areas take.
pub(crate) fn make_pages(
    alloc: Global,
    areas: &[ProgramHeader],
    bytes: &[u8],
) -> Result<BTreeMap<u32, Page>, NoMemory>
    requires { All (IsPlaced (length bytes.now)) areas.now }
    ensures { IfOk result (HoldsAreas bytes.now areas.now) }
{
    let mut pages = BTreeMap::new(alloc);
    for i in (0..areas.len()).rev() {
        map_area(&mut pages, &areas[i], bytes)?;
    }
    Ok(pages)
}
