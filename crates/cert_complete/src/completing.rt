//! The walk that finds the lines that a certificate lacks, and goes on with them.

ghost use Rattle.std.specs.Prelude.{◌≡◌, ◌≤◌, All, IfOk, IfSome, true};
ghost use Rattle.cert_audit.specs.Limits.{budgets_of};
ghost use Rattle.cert_audit.specs.Todos.{IsOfTree, IsTodo};
ghost use Rattle.cert_audit.specs.declared.todo.Todo.TheVariants.{Node, Targets};
ghost use Rattle.cert_complete.specs.Puts.{IsCompleted, IsPut};
ghost use Rattle.cert_complete.specs.Steps.{IsStep};
ghost use Rattle.fork_spec.specs.Leaves.{IsSmall};
ghost use Rattle.rv_spec.specs.Memory.{count_of};
ghost use Rattle.sym_state.specs.Programs.{Program};
ghost use Rattle.sym_state.specs.Symbolic.{most_steps, stands_for};
ghost use Rattle.tree_core.specs.declared.budgets.Budgets.{Budgets};

use crate::gaps::{Filling, Gap, Unproved, gap_at};
use crate::puts::{Completed, Put, Unrefuted};
use crate::solving::Solver;
use crate::worth::find_input;
use byte_list::Bytes;
use cert_audit::{Others, Todo, Visited, are_within, budgets_of, is_met, put_ahead, visit};
use cert_form::{Cert, CertLine};
use cert_query::{Fault, Reason};
use elf_load::{Image, fit};
use fork_spec::Placed;
use std::alloc::{AllocError as NoMemory, Global};
use sym_machine::{Advanced, advance};
use sym_state::{Program, State};
use tree_core::Budgets;

// How the walk goes on behind what it came to.
#[derive(Drop)]
enum Step<'a> {
    On {
        kids: Vec<Todo>,
        put: Option<Put>,
        rest: &'a [CertLine],
    },
    Open(Unrefuted),
    Fault(Fault),
}

// Behind lines that lack nothing.
fn behind_lines<'a>(
    alloc: Global,
    budgets: &Budgets,
    todo: Todo,
    lines: &'a [CertLine],
) -> Result<Step<'a>, NoMemory>
    requires { IsOfTree budgets.now todo }
    ensures { IfOk result (λ step. (p : Program) → IsTodo p budgets.now todo
        → IsStep p budgets.now step) }
{
    match visit(alloc, budgets, todo, lines)? {
        Ok(Visited::Leaf(taken)) => Ok(Step::On {
            kids: Vec::new(alloc),
            put: None,
            rest: taken.rest,
        }),
        Ok(Visited::Fork(went)) => Ok(Step::On {
            kids: went.kids,
            put: None,
            rest: went.rest,
        }),
        Err(fault) => Ok(Step::Fault(fault)),
    }
}

// Behind lines that are put at a fork, where the audit goes on behind them.
fn behind_filling<'a>(
    alloc: Global,
    budgets: &Budgets,
    todo: Todo,
    filling: Filling,
    lines: &'a [CertLine],
) -> Result<Step<'a>, NoMemory>
    requires { IsOfTree budgets.now todo }
    ensures { IfOk result (λ step. (p : Program) → IsTodo p budgets.now todo
        → IsStep p budgets.now step) }
{
    let Filling {
        lines: filled,
        taken,
    } = filling;
    let Some(rest) = lines.get(taken..) else {
        return Ok(Step::Fault(Fault::at(lines, Reason::Place)));
    };
    let kids = match visit(alloc, budgets, todo, &filled)? {
        Ok(Visited::Fork(went)) => went.kids,
        Ok(Visited::Leaf(_)) | Err(_) => return Ok(Step::Fault(Fault::at(lines, Reason::Log))),
    };
    let put = Some(Put::Fork {
        left: lines.len(),
        taken,
        lines: filled,
    });
    Ok(Step::On { kids, put, rest })
}

// An assignment of a side that is cut by targets, if one is found.
fn find_witness<S: Solver>(
    alloc: Global,
    solver: &S,
    others: &Others,
) -> Result<Option<Bytes>, NoMemory>
    ensures { IfOk result (λ found. IfSome found
        (λ input. stands_for others.now.rest input ≡ true)) }
{
    let Some(input) = find_input(alloc, solver, &others.rest)? else {
        return Ok(None);
    };
    if is_met(alloc, &others.rest, input.as_slice())? {
        Ok(Some(input))
    } else {
        Ok(None)
    }
}

// Behind an assignment that is put before lines, if one is found.
fn behind_witness<'a, S: Solver>(
    alloc: Global,
    solver: &S,
    others: &Others,
    rest: &'a [CertLine],
) -> Result<Step<'a>, NoMemory>
    ensures { IfOk result (λ step. (p : Program) (budgets : Budgets)
        → IsTodo p budgets (Targets others.now) → IsStep p budgets step) }
{
    let Some(input) = find_witness(alloc, solver, others)? else {
        return Ok(Step::Fault(Fault::at(rest, Reason::Sample)));
    };
    let put = Some(Put::Witness {
        left: rest.len(),
        input,
    });
    let kids = Vec::new(alloc);
    Ok(Step::On { kids, put, rest })
}

// A fork's line that is to stand before so many lines.
fn open_at(unproved: Unproved, left: usize) -> Unrefuted {
    let Unproved {
        line,
        taken,
        question,
    } = unproved;
    Unrefuted {
        left,
        taken,
        line,
        question,
    }
}

// What lines lack at a node: its run goes on until it ends, has spent its steps, or comes to a fork.
fn gap_at_node<S: Solver>(
    alloc: Global,
    solver: &S,
    budgets: &Budgets,
    node: &State,
    lines: &[CertLine],
) -> Result<Gap, NoMemory>
    requires { IsOfTree budgets.now (Node node.now) }
{
    let Advanced { run, stop } = advance(node, budgets.steps)?;
    gap_at(alloc, solver, &run, stop, lines)
}

// The lines behind those of the values of other sides, if no assignment of the rest stands there.
fn lacks_witness<'a>(others: &Others, lines: &'a [CertLine]) -> Option<&'a [CertLine]> {
    let rest = lines.get(others.values.len()..)?;
    match rest {
        [CertLine::Witness(_), ..] => None,
        _ => Some(rest),
    }
}

// Behind what the walk comes to.
fn behind_todo<'a, S: Solver>(
    alloc: Global,
    solver: &S,
    budgets: &Budgets,
    todo: Todo,
    lines: &'a [CertLine],
) -> Result<Step<'a>, NoMemory>
    requires { IsOfTree budgets.now todo }
    ensures { IfOk result (λ step. (p : Program) → IsTodo p budgets.now todo
        → IsStep p budgets.now step) }
{
    let gap = match &todo {
        Todo::Node(node) => gap_at_node(alloc, solver, budgets, node, lines)?,
        Todo::Targets(others) => {
            if let Some(rest) = lacks_witness(others, lines) {
                return behind_witness(alloc, solver, others, rest);
            }
            Gap::Nothing
        }
        Todo::Conflicts(_) => Gap::Nothing,
    };
    match gap {
        Gap::Nothing => behind_lines(alloc, budgets, todo, lines),
        Gap::Lines(filling) => behind_filling(alloc, budgets, todo, filling, lines),
        Gap::Proof(unproved) => Ok(Step::Open(open_at(unproved, lines.len()))),
    }
}

// What the walk has come to at its end.
fn at_end(puts: Vec<Put>, rest: &[CertLine]) -> Completed
    ensures { (p : Program) (budgets : Budgets) → All (IsPut p budgets) puts.items
        → IsCompleted p budgets result }
{
    if rest.is_empty() {
        Completed::Puts(puts)
    } else {
        Completed::Fault(Fault::at(rest, Reason::Place))
    }
}

// The lines that lack on a walk along these.
fn walk_on<S: Solver>(
    alloc: Global,
    solver: &S,
    program: &Program,
    budgets: &Budgets,
    lines: &[CertLine],
) -> Result<Completed, NoMemory>
    requires few_inputs { IsSmall (count_of program.now.regions) }
    requires few_steps { budgets.now.steps ≤ most_steps }
    ensures { IfOk result (IsCompleted program.now budgets.now) }
{
    let mut puts = Vec::new(alloc);
    let mut stack = Vec::new(alloc);
    stack.push(Todo::Node(State::first(alloc, program)?))?;
    let mut rest = lines;
    for _ in 0..u64::MAX {
        let Some(todo) = stack.pop() else {
            return Ok(at_end(puts, rest));
        };
        match behind_todo(alloc, solver, budgets, todo, rest)? {
            Step::On {
                kids,
                put,
                rest: more,
            } => {
                put_ahead(&mut stack, kids)?;
                if let Some(put) = put {
                    puts.push(put)?;
                }
                rest = more;
            }
            Step::Open(open) => return Ok(Completed::Open(open)),
            Step::Fault(fault) => return Ok(Completed::Fault(fault)),
        }
    }
    Ok(Completed::Fault(Fault::at(rest, Reason::Place)))
}

/// The lines that a certificate of a program lacks, as far as a solver finds what shows them: the lines of forks that have one way
/// only, the proofs behind these and behind splits by values, and assignments of sides that are cut by targets. Nothing rests on
/// them: a completed certificate is for an audit to judge.
pub fn complete<S: Solver>(
    alloc: Global,
    image: Image,
    cert: &Cert,
    solver: &S,
) -> Result<Completed, NoMemory>
    ensures { IfOk result (IsCompleted
        (record { image = image; regions = cert.now.regions }) (budgets_of cert.now.budgets)) }
{
    if fit(&image, &cert.regions).is_err() || !are_within(&cert.budgets) {
        return Ok(Completed::Heading);
    }
    let program = Program::new(image, cert.regions.try_clone(alloc)?);
    let budgets = budgets_of(&cert.budgets);
    walk_on(alloc, solver, &program, &budgets, cert.lines.as_slice())
}
