//! Unit propagation: what a clause is while some variables have values. One whose literals are all false but one forces that
//! one.

ghost use Rattle.std.specs.Prelude.{◌≡◌, true, length};
ghost use Rattle.cnf_form.specs.Clauses.{are_increasing};
ghost use Rattle.cnf_form.specs.Variables.{is_below};
ghost use Rattle.cdcl_core.specs.Trails.{trail_values};
ghost use Rattle.cdcl_core.specs.Passes.{IsState};

use crate::spots::Spot;
use crate::trail::Trail;
use cnf_form::Lit;

/// What a clause is while some variables have values.
#[derive(Clone, Copy, Debug)]
pub enum State {
    /// Each literal is false.
    Falsified,
    /// Each of its literals but this one is false.
    Forces(Lit),
    /// This one of its literals and another have no value.
    Open(Lit),
    /// A literal is true.
    Satisfied,
}

/// What the clause is. It is read up to its first literal that is true, or its second without a value. The places of
/// these, or that of the literal that it forces, are put into `spot`.
pub fn state_of(trail: &Trail, clause: &[Lit], spot: &mut Spot) -> State
    requires in_order { are_increasing clause.now ≡ true }
    requires below { is_below (length trail.now.marks) clause.now ≡ true }
    ensures { IsState (trail_values trail.now.entries) (length trail.now.marks) clause.now result }
{
    let mut open = None;
    let mut first = 0;
    for place in 0..clause.len() {
        let literal = clause[place];
        if trail.is_true(literal) {
            *spot = Spot::new(place, first);
            return State::Satisfied;
        }
        if !trail.is_false(literal) {
            if let Some(earlier) = open {
                *spot = Spot::new(first, place);
                return State::Open(earlier);
            }
            open = Some(literal);
            first = place;
        }
    }
    match open {
        Some(literal) => {
            *spot = Spot::new(first, first);
            State::Forces(literal)
        }
        None => State::Falsified,
    }
}
