//! The side of a fork on which a term has a value.

ghost use Rattle.std.specs.Prelude.{◌==◌, IfOk};
ghost use Rattle.bv_dag.specs.Graphs.{number_of};
ghost use Rattle.sym_state.specs.Undecided.{IsPin};
ghost use Rattle.tree_core.specs.declared.choice.Choice.TheVariants.{Value as OfValue};
ghost use Rattle.run_sides.specs.Narrowing.{IsNarrower};

use crate::narrow::narrow;
use rv_decode::Test;
use std::alloc::AllocError as NoMemory;
use sym_state::{Decided, State, Value};
use tree_core::Choice;

/// A term that has to be a number, and where that number stands among the decisions of the step that needs it.
#[derive(Clone, Copy, Debug)]
pub struct Pin {
    pub place: usize,
    pub term: usize,
}

/// A share of a run where the term has this value, which its step knows there. Its sample stays.
pub fn value_side(state: &State, pin: &Pin, value: u32) -> Result<State, NoMemory>
    requires { IsPin state.now pin.now.place pin.now.term }
    ensures { IfOk result (λ side. IsNarrower state.now side (OfValue value)
        (λ input. number_of state.now.terms pin.now.term input == value)) }
{
    let mut side = state.share()?;
    let equal = side.tested(Test::Beq, Value::Term(pin.term), Value::Number(value))?;
    narrow(&mut side, Choice::Value(value), equal)?;
    side.know(pin.place, Decided::Number(value));
    Ok(side)
}
