//! Steps, one after the other.

ghost use Rattle.std.specs.Prelude.{◌≤◌, IfOk};
ghost use Rattle.sym_state.specs.Symbolic.{KnowsTruth, most_steps};
ghost use Rattle.sym_machine.specs.Advancing.{Advances};

use crate::decoded::Decoded;
use crate::execute::step;
use crate::halt::Halt;
use crate::outcome::Step;
use std::alloc::AllocError as NoMemory;
use sym_state::{RunEnd, State};

/// Why a symbolic run makes no step more.
#[derive(Clone, Copy, Debug, PartialEq, Eq)]
pub enum Stop {
    /// A conditional branch comes next, which is taken where this term of one bit is 1. The term is no number.
    Branch { term: usize },
    /// The step that comes next needs the number that this term of 32 bits is, at this place of its decisions. The term is no
    /// number.
    Pin { place: usize, term: usize },
    /// All its runs have ended.
    Ended(RunEnd),
    /// It has made as many steps as it may.
    Steps,
}

/// A run that made steps, and why it makes no step more.
#[derive(Drop)]
pub struct Advanced {
    pub run: State,
    pub stop: Stop,
}

// Makes steps on a run that is of no use after want of memory.
fn go_on(state: &mut State, most: u32) -> Result<Stop, NoMemory>
    requires knows { KnowsTruth state.old }
    requires within { state.old.steps ≤ most }
    requires steps { most ≤ most_steps }
    ensures { IfOk result (Advances most state.old state.new) }
{
    let mut decoded = Decoded::new();
    while state.steps() < most {
        match step(state, &mut decoded) {
            Ok(Step::Running) => {}
            Ok(Step::Ended(end)) => return Ok(Stop::Ended(end)),
            Err(Halt::Side(term)) => return Ok(Stop::Branch { term }),
            Err(Halt::Number { place, term }) => return Ok(Stop::Pin { place, term }),
            Err(Halt::NoMemory) => return Err(NoMemory),
        }
    }
    Ok(Stop::Steps)
}

/// Makes steps on a share of a run until all runs have ended, or so many were made in all, or a step needs to know what may differ
/// from run to run.
pub fn advance(state: &State, most: u32) -> Result<Advanced, NoMemory>
    requires knows { KnowsTruth state.now }
    requires within { state.now.steps ≤ most }
    requires steps { most ≤ most_steps }
    ensures { IfOk result (λ advanced. Advances most state.now advanced.run advanced.stop) }
{
    let mut run = state.share()?;
    let stop = go_on(&mut run, most)?;
    Ok(Advanced { run, stop })
}
