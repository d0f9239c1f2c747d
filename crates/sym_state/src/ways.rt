//! How a load comes to an address that is a term.

ghost use Rattle.std.specs.Prelude.{◌≡◌, ◌<◌, ◌≤◌, ◌+◌, ◌^◌, IfOk, None, Some, if◌then◌else◌};
ghost use Rattle.bv_dag.specs.Graphs.{Graph, width_of};
ghost use Rattle.term_trees.specs.Growth.{Continues};
ghost use Rattle.sym_state.specs.Scattering.{AreWayBits};
ghost use Rattle.sym_state.specs.Selecting.{IsWay, as_way};
ghost use Rattle.sym_state.specs.Storing.{may_come, steps_to, stride_of};
ghost use Rattle.sym_state.specs.Updates.{is_stride};

use crate::indexing::index_of;
use crate::selecting::zero_bits;
use bv_dag::Node;
use rv_decode::LoadWidth;
use rv_machine::PAGE;
use std::alloc::AllocError as NoMemory;
use term_simplify::Builder;
use term_table::Terms;

/// By `count` bits of a term from `first` on. The lowest of them leads on by 2^scale.
#[derive(Clone, Copy, Debug, PartialEq, Eq)]
pub(crate) struct Way {
    pub(crate) term: usize,
    pub(crate) first: u32,
    pub(crate) count: u32,
    pub(crate) scale: u32,
    pub(crate) start: u32,
}

/// Where a way may come to: from a start on 2^count places, each 2^scale behind the last.
#[derive(Clone, Copy, Debug)]
pub struct Stride {
    pub(crate) start: u32,
    pub(crate) count: u32,
    pub(crate) scale: u32,
}

impl Stride {
    /// Whether the places are the same.
    pub(crate) fn is(self, other: Stride) -> bool
        ensures { result ≡ is_stride self other }
    {
        self.start == other.start && self.count == other.count && self.scale == other.scale
    }

    /// How often it is led on to come to an address, if that may be.
    pub(crate) fn steps_to(self, address: u32) -> Option<u64>
        requires few { self.scale + self.count ≤ 31 }
        ensures { result ≡ (if may_come self address then Some (steps_to self address) else None) }
    {
        if address < self.start {
            return None;
        }
        let far = address - self.start;
        let steps = far >> self.scale;
        if far % (1 << self.scale) != 0 || steps >= 1 << self.count {
            return None;
        }
        Some(u64::from(steps))
    }
}

impl Way {
    /// Where it may come to.
    pub(crate) fn stride(self) -> Stride
        ensures { (terms : Graph) → result ≡ stride_of (as_way terms self) }
    {
        Stride {
            start: self.start,
            count: self.count,
            scale: self.scale,
        }
    }
}

/// The way to the address that a term is, on this page: by an index, or from the page's start by the address's own bits.
pub(crate) fn way_to(terms: &Terms, width: LoadWidth, page: u32, term: usize) -> Way
    requires wide { width_of terms.now term ≡ 32 }
    requires page { page < 2 ^ 24 }
    ensures { IsWay terms.now width page term result }
{
    if let Some(index) = index_of(terms, term) {
        return Way {
            term: index.term,
            first: 0,
            count: index.count,
            scale: index.scale,
            start: index.start,
        };
    }
    let zeros = zero_bits(width);
    Way {
        term,
        first: zeros,
        count: 8 - zeros,
        scale: zeros,
        start: PAGE * page,
    }
}

/// The bits by which a way leads on.
pub(crate) fn way_bits(terms: &mut Builder, way: Way) -> Result<usize, NoMemory>
    requires some { 0 < way.count }
    requires within { way.first + way.count ≤ width_of terms.old way.term }
    requires few { way.first + way.count ≤ 32 }
    ensures continues { Continues terms.old terms.new }
    ensures ok { IfOk result (AreWayBits terms.new way) }
{
    terms.build(Node::Extract {
        high: way.first + way.count - 1,
        low: way.first,
        operand: way.term,
    })
}
