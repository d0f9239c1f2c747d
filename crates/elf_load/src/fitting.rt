//! Whether regions of input bytes fit an image.

ghost use Rattle.std.specs.Prelude.{◌≡◌, ◌≤◌, length, sum_by};
ghost use Rattle.std.specs.Result.{result_err};
ghost use Rattle.std.specs.List.{list_any};
ghost use Rattle.elf_load.specs.Fits.{is_in_image, is_unmapped, share_byte, unfit_empty, unfit_unmapped, unfit_overlap, unfit};

use crate::image::Image;
use crate::region::{Region, Regions};
use crate::unfit::Unfit;

/// The most regions.
const MOST_REGIONS: usize = 8;

/// The most bytes of all regions.
const MOST_BYTES: u64 = 1_024;

fn any_empty(regions: &[Region]) -> bool
    ensures { result ≡ unfit_empty regions.now }
{
    regions.iter().any(|region| region.count == 0)
}

/// The bytes of at most eight regions.
fn count_bytes(regions: &[Region]) -> u64
    requires { length regions.now ≤ 8 }
    ensures { result ≡ sum_by (λ r. r.count) regions.now }
{
    regions.iter().map(|region| region.count as u64).sum()
}

/// Whether this is an address of memory, on a mapped page.
fn is_on_page(image: &Image, address: u64) -> bool
    ensures { result ≡ is_in_image image.now address }
{
    address < 1 << 32 && image.page((address / 256) as u32).is_some()
}

/// Whether a byte of the region is on no mapped page.
fn has_unmapped(image: &Image, region: &Region) -> bool
    ensures { result ≡ is_unmapped image.now region.now }
{
    for i in 0..region.count {
        if !is_on_page(image, region.start as u64 + i as u64) {
            return true;
        }
    }
    false
}

fn any_unmapped(image: &Image, regions: &[Region]) -> bool
    ensures { result ≡ unfit_unmapped image.now regions.now }
{
    regions.iter().any(|region| has_unmapped(image, region))
}

/// Whether two regions share an address.
fn is_shared(one: &Region, other: &Region) -> bool
    ensures { result ≡ share_byte one.now other.now }
{
    (one.start as u64) < other.start as u64 + other.count as u64
        && (other.start as u64) < one.start as u64 + one.count as u64
}

fn any_shared(one: &Region, others: &[Region]) -> bool
    ensures { result ≡ list_any (share_byte one.now) others.now }
{
    others.iter().any(|other| is_shared(one, other))
}

fn any_overlap(regions: &[Region]) -> bool
    ensures { result ≡ unfit_overlap regions.now }
{
    for i in 0..regions.len() {
        if any_shared(&regions[i], &regions[i + 1..]) {
            return true;
        }
    }
    false
}

/// Finds the first reason for which regions do not fit an image, if there is one.
#[tactic(auto, unfolding(crate::specs::Fits::unfit))]
pub fn fit(image: &Image, regions: &Regions) -> Result<(), Unfit>
    ensures { result_err result ≡ unfit image.now regions.now }
{
    let regions = regions.as_slice();
    if regions.len() > MOST_REGIONS {
        return Err(Unfit::TooMany);
    }
    if any_empty(regions) {
        return Err(Unfit::Empty);
    }
    if count_bytes(regions) > MOST_BYTES {
        return Err(Unfit::TooLong);
    }
    if any_unmapped(image, regions) {
        return Err(Unfit::Unmapped);
    }
    if any_overlap(regions) {
        return Err(Unfit::Overlap);
    }
    Ok(())
}
