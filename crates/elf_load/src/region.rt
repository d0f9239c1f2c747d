//! Where input bytes stand in memory.

ghost use Rattle.std.specs.Prelude.{◌≡◌, IfOk, length};

use std::alloc::{AllocError as NoMemory, Global};
use std::marker::Model;

/// So many input bytes from an address on.
#[derive(Clone, Copy, Debug, PartialEq, Eq)]
pub struct Region {
    pub start: u32,
    pub count: u32,
}

/// Regions in their order, which contracts see as a list.
#[derive(Debug, Drop)]
pub struct Regions {
    items: Vec<Region>,
}

impl Model for Regions {
    ghost use Rattle.std.specs.Prelude.{List};
    ghost use Rattle.elf_load.specs.declared.region.Region.{Region};

    ghost Value = { List Region };

    ghost view = { λ r. r.items.items };
}

impl Regions {
    pub fn from_vec(items: Vec<Region>) -> Regions
        ensures { result ≡ items.items }
    {
        Regions { items }
    }

    /// Regions of their own with the same items.
    pub fn try_clone(&self, alloc: Global) -> Result<Regions, NoMemory>
        ensures { IfOk result (λ copy. copy ≡ self.now) }
    {
        Ok(Regions {
            items: self.items.to_vec(alloc)?,
        })
    }

    pub fn into_vec(self) -> Vec<Region>
        ensures { result.items ≡ self }
    {
        self.items
    }

    pub fn as_slice(&self) -> &[Region]
        ensures { result.now ≡ self.now }
    {
        self.items.as_slice()
    }

    pub fn len(&self) -> usize
        ensures { result ≡ length self.now }
    {
        self.items.len()
    }
}
