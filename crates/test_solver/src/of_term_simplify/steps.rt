//! Calls in turn, each with the place that it answers and the terms that it makes on the way.

use crate::of_term_simplify::bits::{MOVED, PARTS};
use crate::of_term_simplify::bytes::{DEEP, DIVIDENDS, MASKED, REMAINDERS, SIMPLIFIED};
use crate::of_term_simplify::calls::{Call, called, is_node};
use crate::of_term_simplify::lifted::LIFTED;
use bv_dag::Node;
use std::alloc::AllocError as NoMemory;
use std::process::Abort;
use std::test::Fail;
use term_simplify::Builder;

/// One of what is done to a builder in turn.
pub(crate) enum Step {
    /// A call, whose term is new.
    Make(Call),
    /// A call that answers this place.
    Gives(Call, usize),
    /// At this place stands this node.
    Stands(usize, Node),
}

// What workers share is `Send` and `Sync`.
fn takes_shared<T: Send + Sync>(_value: &T) {}

fn holds(rt: &impl Abort, builder: &mut Builder, step: &Step) -> Result<bool, NoMemory> {
    match step {
        Step::Make(call) => {
            let len = builder.len();
            Ok(called(rt, builder, call)? >= len)
        }
        Step::Gives(call, place) => Ok(called(rt, builder, call)? == *place),
        Step::Stands(place, node) => Ok(is_node(builder, *place, node)),
    }
}

fn check_steps(rt: &impl Abort, builder: &mut Builder, steps: &[Step]) -> Result<(), NoMemory> {
    for (at, step) in steps.iter().enumerate() {
        assert!(rt; holds(rt, builder, step)?, "step {at}");
    }
    Ok(())
}

// One is cut, and a share of it has its terms still.
fn goes_on_alone(builder: &mut Builder) -> Result<bool, NoMemory> {
    let all = builder.len();
    let copy = builder.share()?;
    takes_shared(&copy);
    builder.truncate(4);
    let left = copy.len();
    Ok(builder.len() == 4 && 4 < all && left == all)
}

#[test]
fn terms_of_an_input_byte(rt: HostRuntime) -> Result<(), Fail> {
    for steps in [
        SIMPLIFIED, MASKED, REMAINDERS, DIVIDENDS, DEEP, MOVED, PARTS, LIFTED,
    ] {
        let mut builder = Builder::new(rt.alloc(), 2);
        check_steps(&rt, &mut builder, steps)?;
        assert!(rt; goes_on_alone(&mut builder)?);
    }
    Ok(())
}
