//! Where the run of all assignments has its input bytes.

use crate::programs::image_of;
use bv_dag::Node;
use cow_pages::Byte;
use elf_load::{Region, Regions, fit};
use std::alloc::Global;
use std::process::Abort;
use std::test::Fail;
use sym_state::{Program, State};

/// Two pages of zeros.
const DATA: u32 = 0x11000;

/// Three bytes on both pages, and then two at their start.
const REGIONS: [Region; 2] = [
    Region {
        start: 0x110FE,
        count: 3,
    },
    Region {
        start: DATA,
        count: 2,
    },
];

// The run of all assignments of a program of one ECALL.
fn first(rt: &impl Abort, alloc: Global) -> Result<State, Fail> {
    let regions = Regions::from_vec(Vec::from_slice(alloc, &REGIONS)?);
    let image = image_of(rt, alloc, &[0x0000_0073])?;
    assert!(rt; fit(&image, &regions).is_ok());
    let program = Program::new(image, regions);
    Ok(State::first(alloc, &program)?)
}

// The input byte that memory has at an address, if it has one.
fn input_at(rt: &impl Abort, state: &State, address: u32) -> Option<usize> {
    let Byte::Term(term) = state.byte(address) else {
        return None;
    };
    assert!(rt; term < state.terms().len());
    match state.terms().node(term) {
        Node::Input(index) => Some(index),
        _ => None,
    }
}

// An address, and the input byte that stands there.
const INPUTS: [(u32, Option<usize>); 9] = [
    (DATA - 1, None),
    (DATA, Some(3)),
    (DATA + 1, Some(4)),
    (DATA + 2, None),
    (0x110FD, None),
    (0x110FE, Some(0)),
    (0x110FF, Some(1)),
    (0x11100, Some(2)),
    (0x11101, None),
];

fn check_inputs(rt: &impl Abort, state: &State) {
    for &(address, input) in &INPUTS {
        assert!(rt; input_at(rt, state, address) == input, "at {address:x}");
    }
}

#[test]
fn inputs_stand_in_their_regions(rt: HostRuntime) -> Result<(), Fail> {
    let state = first(&rt, rt.alloc())?;
    check_inputs(&rt, &state);
    Ok(())
}
