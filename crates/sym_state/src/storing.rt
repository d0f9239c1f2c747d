//! What is stored to an address that is a term, and whose page is known.

ghost use Rattle.std.specs.Prelude.{◌≡◌, ◌<◌, ◌^◌, IsSome, OnOk};
ghost use Rattle.bv_dag.specs.Graphs.{width_of};
ghost use Rattle.cow_pages.specs.SymbolicMemory.{memory_flags};
ghost use Rattle.fork_spec.specs.Decisions.{as_load};
ghost use Rattle.sym_state.specs.Scattering.{MakesStored};
ghost use Rattle.sym_state.specs.Values.{IsWide};

use crate::scattering::{Along, low_bytes, scatter};
use crate::selecting::bytes_of;
use crate::state::State;
use crate::updates::{Site, Update, updates_with};
use crate::value::Value;
use crate::ways::{way_bits, way_to};
use rv_decode::{LoadWidth, StoreWidth};
use std::alloc::AllocError as NoMemory;

/// The load of as many bytes.
pub fn as_load(width: StoreWidth) -> LoadWidth
    ensures { result ≡ as_load width }
{
    match width {
        StoreWidth::Sb => LoadWidth::Lbu,
        StoreWidth::Sh => LoadWidth::Lhu,
        StoreWidth::Sw => LoadWidth::Lw,
    }
}

impl State {
    /// Stores a value to the address that a term is, where that stands on this mapped page. After want of memory it may be stored in part, and no list of updates is kept.
    pub fn store_on(
        &mut self,
        width: StoreWidth,
        page: u32,
        term: usize,
        value: Value,
    ) -> Result<(), NoMemory>
        requires address { width_of self.old.terms term ≡ 32 }
        requires page { page < 2 ^ 24 }
        requires mapped { IsSome (memory_flags self.old.memory page) }
        requires wide { IsWide self.old.terms value }
        ensures { OnOk result (MakesStored self.old self.new width page term value) }
    {
        let width = as_load(width);
        let way = way_to(self.terms.terms(), width, page, term);
        let bits = way_bits(&mut self.terms, way)?;
        let bytes = low_bytes(self.alloc, &mut self.terms, value, bytes_of(width))?;
        let along = Along {
            width,
            page,
            way,
            bits,
        };
        let site = Site {
            page,
            width,
            stride: way.stride(),
        };
        let one = Update { bits, value };
        let updates = updates_with(self.alloc, &self.updates, site, &self.memory, one)?;
        self.updates = Vec::new(self.alloc);
        scatter(&mut self.terms, &mut self.memory, along, &bytes)?;
        self.updates = updates;
        Ok(())
    }
}
