//! The sides of a split where a term has to be a number, as a line says them.

ghost use Rattle.std.specs.Prelude.{◌≡◌, ◌↔◌, ◌++◌, IfOk, IfErr, IsTrue, MatchOption, length, map};
ghost use Rattle.fork_spec.specs.Evidence.{AreIncreasing};
ghost use Rattle.fork_spec.specs.Walks.{value_side};
ghost use Rattle.cert_audit.specs.ForkFaults.{AreValueSides, BeginsWithNoValue, IsNoRest, IsNoValue, IsSidesFault, MayBeSides};
ghost use Rattle.cert_audit.specs.Kids.{sides_behind};

use cert_form::Side;
use cert_query::Reason;
use std::alloc::{AllocError as NoMemory, Global};
use tree_core::{Cause, Choice};

/// Why the side of all other values is cut.
#[derive(Clone, Copy, Debug)]
pub(crate) enum RestCut {
    /// The budget of conflicts leaves open whether it has an assignment.
    Conflicts,
    /// There are as many sides of values as there may be.
    Targets,
}

/// The values by increasing value, and why the side of all others is cut, if there are others.
pub(crate) struct ValueSides {
    pub values: Vec<u32>,
    pub rest: Option<RestCut>,
}

impl Drop for ValueSides {
    fn drop(self) {
        let Self {
            values: _values,
            rest: _rest,
        } = self;
    }
}

impl ValueSides {
    /// The values, and why the side of all others is cut, if there are others.
    pub(crate) fn into_parts(self) -> (Vec<u32>, Option<RestCut>)
        ensures values { result.0.items ≡ self.values.items }
        ensures rest { result.1 ≡ self.rest }
    {
        let Self { values, rest } = self;
        (values, rest)
    }
}

// Whether each is below the next.
fn are_increasing(values: &[u32]) -> bool
    ensures { IsTrue result ↔ AreIncreasing values.now }
{
    for at in 1..values.len() {
        if values[at] <= values[at - 1] {
            return false;
        }
    }
    true
}

// Why the side of all other values is cut, if it stands alone behind those of values; and nothing may stand there.
fn rest_of(sides: &[Side]) -> Option<Option<RestCut>>
    ensures { MatchOption result (IsNoRest sides.now) (λ rest. sides.now ≡ sides_behind rest) }
{
    match sides {
        [] => Some(None),
        [side] => match (side.choice, side.cut) {
            (Choice::Rest, Some(Cause::Conflicts)) => Some(Some(RestCut::Conflicts)),
            (Choice::Rest, Some(Cause::Targets)) => Some(Some(RestCut::Targets)),
            _ => None,
        },
        _ => None,
    }
}

// The value of a side that isn't cut.
fn open_value(side: Side) -> Option<u32>
    ensures { MatchOption result (IsNoValue side) (λ value. side ≡ value_side value) }
{
    match (side.choice, side.cut) {
        (Choice::Value(value), None) => Some(value),
        _ => None,
    }
}

/// The values of the first sides, which aren't cut, and the sides behind them.
pub fn take_values(alloc: Global, sides: &[Side]) -> Result<(Vec<u32>, &[Side]), NoMemory>
    ensures split { IfOk result (λ taken.
        sides.now ≡ map value_side taken.0.items ++ taken.1.now) }
    ensures all { IfOk result (λ taken. BeginsWithNoValue taken.1.now) }
{
    let mut values = Vec::with_capacity(alloc, sides.len())?;
    let mut rest = sides;
    'sides: while let [side, more @ ..] = rest {
        let Some(value) = open_value(*side) else {
            return Ok((values, rest));
        };
        values.push(value)?;
        rest = more;
    }
    Ok((values, rest))
}

// Whether so many values may be sides of their own.
fn may_be_sides(count: usize, rest: Option<RestCut>, targets: u32) -> bool
    ensures { IsTrue result ↔ MayBeSides count rest targets }
{
    match rest {
        Some(RestCut::Targets) => count == targets as usize,
        Some(RestCut::Conflicts) | None => count <= targets as usize,
    }
}

/// The sides of a split by values, as so many of them may be: two at least, of which one is a value's. Or why they aren't that.
pub(crate) fn value_sides(
    alloc: Global,
    sides: &[Side],
    targets: u32,
) -> Result<Result<ValueSides, Reason>, NoMemory>
    ensures sides { IfOk result (λ taken. IfOk taken (λ v.
        AreValueSides sides.now v.values.items v.rest)) }
    ensures count { IfOk result (λ taken. IfOk taken (λ v.
        MayBeSides (length v.values.items) v.rest targets)) }
    ensures cause { IfOk result (λ taken. IfErr taken (IsSidesFault targets sides.now)) }
{
    let (values, others) = take_values(alloc, sides)?;
    let Some(rest) = rest_of(others) else {
        return Ok(Err(Reason::Place));
    };
    if values.is_empty() || sides.len() < 2 || !are_increasing(&values) {
        return Ok(Err(Reason::Place));
    }
    if may_be_sides(values.len(), rest, targets) {
        Ok(Ok(ValueSides { values, rest }))
    } else {
        Ok(Err(Reason::Budget))
    }
}
