//! The input bytes, put into memory.

ghost use Rattle.std.specs.Prelude.{◌≡◌, ◌≤◌, length};
ghost use Rattle.rv_spec.specs.Memory.{count_of, placed};
ghost use Rattle.rv_machine.specs.Pages.{AreMapped, IsMapped, byte_on, filled, flags_on};

use crate::hart::Hart;
use elf_load::Region;

/// Puts bytes to a region, as many as it has.
fn fill(hart: &mut Hart, region: &Region, bytes: &[u8])
    requires mapped { IsMapped (flags_on hart.old.pages) region.now }
    requires enough { region.now.count ≤ length bytes.now }
    ensures rest { hart.new ≡ record hart.old { pages = hart.new.pages } }
    ensures flags { flags_on hart.new.pages ≡ flags_on hart.old.pages }
    ensures bytes { byte_on hart.new.pages
        ≡ filled region.now.start region.now.count bytes.now (byte_on hart.old.pages) }
{
    for i in 0..region.count {
        hart.put(region.start + i, bytes[i as usize]);
    }
}

/// Puts the input bytes to their regions.
pub(crate) fn place_input(hart: &mut Hart, regions: &[Region], input: &[u8])
    requires mapped { AreMapped (flags_on hart.old.pages) regions.now }
    requires enough { length input.now ≡ count_of regions.now }
    ensures rest { hart.new ≡ record hart.old { pages = hart.new.pages } }
    ensures flags { flags_on hart.new.pages ≡ flags_on hart.old.pages }
    ensures bytes { byte_on hart.new.pages ≡ placed regions.now input.now (byte_on hart.old.pages) }
{
    let mut left = input;
    for region in regions {
        fill(hart, region, left);
        left = &left[region.count as usize..];
    }
}
