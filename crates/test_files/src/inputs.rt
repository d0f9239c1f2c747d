//! The regions and the input bytes of a test.

ghost use Rattle.std.specs.Prelude.{◌≡◌, ◌==◌, ◌≤◌, IfErr, IfOk, Ok, Some, length, map, nat_le, option_map};
ghost use Rattle.std.specs.List.{list_all};
ghost use Rattle.test_files.specs.Inputs.{all_filled, apart, bytes_in, has_inputs, input_filled, joined, laid, laid_apart, regions_filled};
ghost use Rattle.test_files.specs.Refusals.{IsWhy};
ghost use Rattle.test_files.specs.Seen.{all_seen, inputs_seen, item_seen, laid_seen};

use crate::digits::decode;
use crate::refused::TestRefused;
use crate::test_error::TestError;
use elf_load::Region;
use std::alloc::{AllocError as NoMemory, Global};

/// The most bytes of all regions.
pub(crate) const MOST_INPUT: usize = 1_024;

/// A region, by its address, and the hexadecimal digits of its bytes.
#[derive(Clone, Copy)]
pub(crate) struct Item<'a> {
    pub(crate) start: u32,
    pub(crate) digits: &'a str,
}

/// The regions and the hexadecimal digits of the input: in one text, or region by region.
#[derive(Drop)]
pub(crate) enum Inputs<'a> {
    Joined(Vec<Region>, &'a str),
    Apart(Vec<Item<'a>>),
}

/// A region, by its address, and its bytes.
#[derive(Drop)]
pub(crate) struct Filled {
    start: u32,
    bytes: Vec<u8>,
}

/// Regions, and a byte for each place of them.
#[derive(Drop)]
pub(crate) struct Laid {
    pub(crate) regions: Vec<Region>,
    pub(crate) input: Vec<u8>,
}

/// Whether the regions have so many bytes together.
fn have_bytes(regions: &[Region], count: usize) -> bool
    ensures { result ≡ (count == bytes_in regions.now) }
{
    let mut left = count;
    for region in regions {
        let bytes = region.count as usize;
        if left < bytes {
            return false;
        }
        left -= bytes;
    }
    left == 0
}

/// Lays the bytes that the digits write into the regions.
fn lay_joined(alloc: Global, regions: Vec<Region>, digits: &str) -> Result<Laid, TestError>
    ensures read { IfOk result (λ is. laid (joined regions.items digits.now) ≡ Ok (laid_seen is)) }
    ensures refused { IfErr result (IsWhy (laid (joined regions.items digits.now))) }
{
    let input = decode(alloc, digits)?.ok_or(TestRefused::Hex)?;
    if !have_bytes(&regions, input.len()) {
        return Err(TestRefused::Length.into());
    }
    Ok(Laid { regions, input })
}

/// Each region with the bytes that its digits write; none where some are not hexadecimal.
fn fill(alloc: Global, items: &[Item<'_>]) -> Result<Option<Vec<Filled>>, NoMemory>
    ensures { IfOk result (λ found. option_map (λ regions. all_seen regions.items) found
        ≡ all_filled (map item_seen items.now)) }
{
    let mut regions = Vec::with_capacity(alloc, items.len())?;
    for item in items {
        let Some(bytes) = decode(alloc, item.digits)? else {
            return Ok(None);
        };
        regions.push(Filled {
            start: item.start,
            bytes,
        })?;
    }
    Ok(Some(regions))
}

/// The bytes of all regions in their order.
fn join(alloc: Global, regions: &[Filled]) -> Result<Vec<u8>, NoMemory>
    ensures { IfOk result (λ input. input.items ≡ input_filled (all_seen regions.now)) }
{
    let mut input = Vec::new(alloc);
    for region in regions {
        input.extend_from_slice(&region.bytes)?;
    }
    Ok(input)
}

/// Whether each region has a byte or more.
fn none_is_empty(regions: &[Filled]) -> bool
    ensures { result ≡ list_all (λ region. nat_le 1 (length region.bytes.items)) regions.now }
{
    regions.iter().all(|region| 1 <= region.bytes.len())
}

/// Whether there is some region, none is empty, and all have these bytes, of which there are 1,024 at most.
fn have_input(regions: &[Filled], input: &[u8]) -> bool
    requires { length input.now ≡ bytes_in (regions_filled (all_seen regions.now)) }
    ensures { result ≡ has_inputs (regions_filled (all_seen regions.now)) }
{
    !regions.is_empty() && none_is_empty(regions) && input.len() <= MOST_INPUT
}

/// The regions of so many bytes.
fn measure(alloc: Global, regions: &[Filled]) -> Result<Vec<Region>, NoMemory>
    requires { bytes_in (regions_filled (all_seen regions.now)) ≤ 1024 }
    ensures { IfOk result (λ found. found.items ≡ regions_filled (all_seen regions.now)) }
{
    let mut found = Vec::with_capacity(alloc, regions.len())?;
    for region in regions {
        let count = region.bytes.len() as u32;
        found.push(Region {
            start: region.start,
            count,
        })?;
    }
    Ok(found)
}

/// Lays the bytes into regions of their own.
fn lay_filled(alloc: Global, regions: &[Filled]) -> Result<Laid, TestError>
    ensures read { IfOk result (λ is. laid_apart (Some (all_seen regions.now)) ≡ Ok (laid_seen is)) }
    ensures refused { IfErr result (IsWhy (laid_apart (Some (all_seen regions.now)))) }
{
    let input = join(alloc, regions)?;
    if !have_input(regions, &input) {
        return Err(TestRefused::Length.into());
    }
    let regions = measure(alloc, regions)?;
    Ok(Laid { regions, input })
}

/// Lays the bytes that the digits of each region write into it.
fn lay_apart(alloc: Global, items: &[Item<'_>]) -> Result<Laid, TestError>
    ensures read { IfOk result (λ is. laid (apart (map item_seen items.now)) ≡ Ok (laid_seen is)) }
    ensures refused { IfErr result (IsWhy (laid (apart (map item_seen items.now)))) }
{
    let regions = fill(alloc, items)?.ok_or(TestRefused::Hex)?;
    lay_filled(alloc, &regions)
}

impl Inputs<'_> {
    /// The regions and the bytes.
    pub(crate) fn laid(self, alloc: Global) -> Result<Laid, TestError>
        ensures read { IfOk result (λ is. laid (inputs_seen self.entry) ≡ Ok (laid_seen is)) }
        ensures refused { IfErr result (IsWhy (laid (inputs_seen self.entry))) }
    {
        match self {
            Inputs::Joined(regions, digits) => lay_joined(alloc, regions, digits),
            Inputs::Apart(items) => lay_apart(alloc, &items),
        }
    }
}
