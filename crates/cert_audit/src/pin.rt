//! What lines make of a run where a term has to be a number: it goes on with one value where there is no other, and else parts by its
//! values.

ghost use Rattle.std.specs.Prelude.{◌≡◌, ◌∷◌, [], ◌≤◌, ◌++◌, Contains, IfOk, IfErr, OnOk, None, Some, false, length, map};
ghost use Rattle.fork_spec.specs.Evidence.{AreIncreasing};
ghost use Rattle.fork_spec.specs.Walks.{rest_side, value_side as side_of_value};
ghost use Rattle.run_leaves.specs.Values.{IsWithout};
ghost use Rattle.sym_state.specs.Symbolic.{IsFormed};
ghost use Rattle.sym_state.specs.Undecided.{IsPin};
ghost use Rattle.sym_state.specs.Values.{IsUnknown};
ghost use Rattle.tree_core.specs.declared.budgets.Budgets.{Budgets};
ghost use Rattle.cert_audit.specs.Asking.{IsLast};
ghost use Rattle.cert_audit.specs.ForkFaults.{IsPinFault, IsWithoutFault, begins_with_cut_nodes};
ghost use Rattle.cert_audit.specs.Kids.{AreKids, AreValueKids, IsKid, IsPut, has_none, has_value, own_ahead, rest_cause, sides_behind};
ghost use Rattle.cert_audit.specs.Names.{side_ahead};
ghost use Rattle.cert_audit.specs.Steps.{IsWent};

use crate::going::go_on;
use crate::proof::take_proof;
use crate::taken::Went;
use crate::todo::{Asked, Others, Todo};
use crate::values::{RestCut, ValueSides, value_sides};
use cert_form::CertLine;
use cert_query::{Fault, Reason};
use run_sides::{Pin, value_side};
use rv_decode::Test;
use std::alloc::{AllocError as NoMemory, Global};
use sym_state::{Decided, State, Value};
use tree_core::Choice;

// Narrows a run to where a term has another value, by the term that is answered.
fn leave_out(run: &mut State, term: usize, value: u32) -> Result<usize, NoMemory>
    requires { IsUnknown run.old.terms 32 term }
    ensures without { OnOk result (IsWithout run.old term (value ∷ []) run.new) }
    ensures asserted { IfOk result (λ differs. Contains run.new.condition differs) }
    ensures last { IfOk result (IsLast run.new.condition) }
{
    let differs = run.tested(Test::Bne, Value::Term(term), Value::Number(value))?;
    run.assert(differs)?;
    Ok(differs)
}

/// The run where a term has none of these values, and the term that is asserted last there.
pub fn without_values(run: &State, term: usize, values: &[u32]) -> Result<(State, usize), NoMemory>
    requires { IsUnknown run.now.terms 32 term }
    ensures formed { IfOk result (λ _. IsFormed run.now) }
    ensures without { IfOk result (λ rest. IsWithout run.now term values.now rest.0) }
    ensures asserted { IfOk result (λ rest. 1 ≤ length values.now
        → Contains rest.0.condition rest.1) }
    ensures last { IfOk result (λ rest. 1 ≤ length values.now
        → IsLast rest.0.condition rest.1) }
{
    let mut rest = run.share()?;
    let mut last = 0;
    for value in values {
        last = leave_out(&mut rest, term, *value)?;
    }
    Ok((rest, last))
}

// The side of a value.
fn value_todo(run: &State, pin: &Pin, value: u32) -> Result<Todo, NoMemory>
    requires { IsPin run.now pin.now.place pin.now.term }
    ensures { IfOk result (IsKid run.now (side_of_value value)
        (has_value run.now pin.now.term value)) }
{
    Ok(Todo::Node(value_side(run, pin, value)?))
}

// A side for each value.
fn value_todos(alloc: Global, run: &State, pin: &Pin, values: &[u32]) -> Result<Vec<Todo>, NoMemory>
    requires { IsPin run.now pin.now.place pin.now.term }
    ensures { IfOk result (λ kids. AreValueKids run.now pin.now.term values.now kids.items) }
{
    let mut kids = Vec::with_capacity(alloc, values.len())?;
    for value in values {
        kids.push(value_todo(run, pin, *value)?)?;
    }
    Ok(kids)
}

// The side of all values but these, on which the run is the rest.
fn rest_todo(
    run: &State,
    term: usize,
    values: Vec<u32>,
    rest: State,
    cut: RestCut,
) -> Result<Todo, NoMemory>
    requires unknown { IsUnknown run.now.terms 32 term }
    requires increasing { AreIncreasing values.items }
    requires without { IsWithout run.now term values.items rest }
    ensures { IfOk result (IsKid run.now (rest_side (Some (rest_cause cut)))
        (has_none run.now term values.items)) }
{
    let fork = run.share()?;
    match cut {
        RestCut::Conflicts => {
            let choice = Choice::Rest;
            Ok(Todo::Conflicts(Asked { run: rest, choice }))
        }
        RestCut::Targets => Ok(Todo::Targets(Others {
            fork,
            term,
            values,
            rest,
        })),
    }
}

// Parts by these values, if lines show that the term has no other.
fn part_by_all<'a>(
    alloc: Global,
    run: &State,
    pin: &Pin,
    values: &[u32],
    lines: &'a [CertLine],
) -> Result<Result<Went<'a>, Fault>, NoMemory>
    requires at { IsPin run.now pin.now.place pin.now.term }
    requires increasing { AreIncreasing values.now }
    requires some { 1 ≤ length values.now }
    ensures put { IfOk result (λ went. IfOk went (λ w. IsPut run.now
        (map (side_ahead run.now.choices) (map side_of_value values.now))
        lines.now w.kids.items w.rest.now)) }
    ensures cause { IfOk result (λ went. IfErr went
        (IsWithoutFault run.now pin.now.term values.now lines.now)) }
{
    let kids = value_todos(alloc, run, pin, values)?;
    let (rest, last) = without_values(run, pin.term, values)?;
    match take_proof(alloc, &rest, last, lines)? {
        Ok(rest) => Ok(Ok(Went { kids, rest })),
        Err(fault) => Ok(Err(fault)),
    }
}

// Parts by these values, and into all others.
fn part_with_rest(
    alloc: Global,
    run: &State,
    pin: &Pin,
    values: Vec<u32>,
    cut: RestCut,
) -> Result<Vec<Todo>, NoMemory>
    requires at { IsPin run.now pin.now.place pin.now.term }
    requires increasing { AreIncreasing values.items }
    ensures { IfOk result (λ kids. AreKids run.now
        (map (side_ahead run.now.choices)
        (map side_of_value values.items ++ sides_behind (Some cut))) kids.items) }
{
    let mut kids = value_todos(alloc, run, pin, &values)?;
    let (rest, _) = without_values(run, pin.term, &values)?;
    kids.push(rest_todo(run, pin.term, values, rest, cut)?)?;
    Ok(kids)
}

// Parts by the values that a line says.
fn part<'a>(
    alloc: Global,
    run: &State,
    pin: &Pin,
    sides: ValueSides,
    lines: &'a [CertLine],
) -> Result<Result<Went<'a>, Fault>, NoMemory>
    requires at { IsPin run.now pin.now.place pin.now.term }
    requires increasing { AreIncreasing sides.values.items }
    requires some { 1 ≤ length sides.values.items }
    ensures put { IfOk result (λ went. IfOk went (λ w. IsPut run.now
        (map (side_ahead run.now.choices)
        (map side_of_value sides.values.items ++ sides_behind sides.rest))
        lines.now w.kids.items w.rest.now)) }
    ensures cause { IfOk result (λ went. IfErr went (λ fault. (sides.rest ≡ None)
        × IsWithoutFault run.now pin.now.term sides.values.items lines.now fault)) }
{
    let (values, rest) = sides.into_parts();
    let Some(cut) = rest else {
        return part_by_all(alloc, run, pin, &values, lines);
    };
    let kids = part_with_rest(alloc, run, pin, values, cut)?;
    Ok(Ok(Went { kids, rest: lines }))
}

// Goes on with one value, if lines show that the term has no other.
fn one_value<'a>(
    alloc: Global,
    run: &State,
    pin: &Pin,
    value: u32,
    lines: &'a [CertLine],
) -> Result<Result<Went<'a>, Fault>, NoMemory>
    requires { IsPin run.now pin.now.place pin.now.term }
    ensures put { IfOk result (λ went. IfOk went (λ w.
        IsPut run.now (own_ahead run.now) lines.now w.kids.items w.rest.now)) }
    ensures cause { IfOk result (λ went. IfErr went
        (IsWithoutFault run.now pin.now.term (value ∷ []) lines.now)) }
{
    let mut other = run.share()?;
    let new = leave_out(&mut other, pin.term, value)?;
    match take_proof(alloc, &other, new, lines)? {
        Ok(rest) => {
            let decided = Decided::Number(value);
            Ok(Ok(go_on(alloc, run, pin.place, decided, rest)?))
        }
        Err(fault) => Ok(Err(fault)),
    }
}

/// What lines make of a run where a term has to be a number, of which at most so many values may be sides of their own: it goes on with
/// one value, or parts by its values.
pub(crate) fn at_pin<'a>(
    alloc: Global,
    run: &State,
    pin: &Pin,
    targets: u32,
    lines: &'a [CertLine],
) -> Result<Result<Went<'a>, Fault>, NoMemory>
    requires { IsPin run.now pin.now.place pin.now.term }
    ensures went { IfOk result (λ went. IfOk went (λ w. (budgets : Budgets)
        → IsWent budgets run.now lines.now w.kids.items w.rest.now)) }
    ensures cause { IfOk result (λ went. IfErr went (λ fault.
        begins_with_cut_nodes lines.now ≡ false
        → IsPinFault run.now pin.now.term targets lines.now fault)) }
{
    match lines {
        [CertLine::One(Choice::Value(value)), rest @ ..] => {
            one_value(alloc, run, pin, *value, rest)
        }
        [CertLine::Split(sides), rest @ ..] => {
            match value_sides(alloc, sides.as_slice(), targets)? {
                Ok(sides) => part(alloc, run, pin, sides, rest),
                Err(reason) => Ok(Err(Fault::at(lines, reason))),
            }
        }
        _ => Ok(Err(Fault::at(lines, Reason::Place))),
    }
}
