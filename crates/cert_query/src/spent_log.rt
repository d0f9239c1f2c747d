//! Taking the clauses on which a budget was spent.

ghost use Rattle.std.specs.Prelude.{◌≡◌, ◌≤◌, [], false, IfOk, IfErr, length};
ghost use Rattle.circuit_spec.specs.Budgets.{IsSpent};
ghost use Rattle.cnf_form.specs.Variables.{is_over};
ghost use Rattle.cert_query.specs.ClauseFaults.{IsLearntFault, IsSpendingFault};
ghost use Rattle.cert_query.specs.ClauseLines.{clauses_at};
ghost use Rattle.cert_query.specs.Spending.{IsLearnt, IsSpentBy, HasLearntAll, are_learnt, is_learnt};
ghost use Rattle.cert_query.specs.Variables.{are_noted};

use crate::clause_lines::first_clause;
use crate::fault::{Fault, Reason};
use crate::variables::{are_noted, occurring as variables_of};
use bit_blast::encode;
use bv_dag::Query;
use cert_form::CertLine;
use cnf_form::{Cnf, Log, LogStep};
use proof_check::Checker;
use query_pick::{Occurrence, occurring};
use std::alloc::{AllocError as NoMemory, Global};

/// The clauses on which a budget was spent, and the lines behind them.
#[derive(Debug, Drop)]
pub struct SpentLog<'a> {
    pub log: Log,
    pub rest: &'a [CertLine],
}

// Whether the step may come next: its clause follows, is new, isn't empty, and has only variables that are noted.
fn may_be_learnt(checker: &mut Checker, seen: &[bool], step: &LogStep) -> Result<bool, NoMemory>
    ensures answer { IfOk result (λ yes. yes ≡ is_learnt (are_noted seen.now) checker.old step.now) }
    ensures same { checker.new ≡ checker.old }
{
    let clause = step.clause();
    if clause.literals().is_empty() || !are_noted(seen, clause) {
        return Ok(false);
    }
    checker.may_come_next(step)
}

// Puts the step behind the others, if it may come next, and answers whether it may.
fn learn(
    checker: &mut Checker,
    seen: &[bool],
    log: &mut Log,
    step: &LogStep,
) -> Result<bool, NoMemory>
    ensures { IfOk result (IsLearnt (are_noted seen.now) checker.old checker.new log.old log.new
        step.now) }
{
    if !may_be_learnt(checker, seen, step)? {
        return Ok(false);
    }
    checker.note(step.clause().literals())?;
    log.push(step.clone()?)?;
    Ok(true)
}

// Takes the clauses that come next, which are to be so many, into a log that has none.
fn take_log<'a>(
    checker: &mut Checker,
    seen: &[bool],
    log: &mut Log,
    budget: u32,
    lines: &'a [CertLine],
) -> Result<Result<&'a [CertLine], Fault>, NoMemory>
    requires { log.old ≡ [] }
    ensures taken { IfOk result (λ taken. IfOk taken
        (λ rest. HasLearntAll (are_noted seen.now) checker.old budget lines.now log.new rest.now)) }
    ensures refused { IfOk result (λ taken. IfErr taken
        (λ _. length (clauses_at lines.now) ≡ budget
        → are_learnt (are_noted seen.now) checker.old (clauses_at lines.now) ≡ false)) }
    ensures left { IfOk result (λ taken. IfErr taken (λ fault. fault.left ≤ length lines.now)) }
    ensures cause { IfOk result (λ taken. IfErr taken
        (IsLearntFault (are_noted seen.now) checker.old budget lines.now)) }
{
    let mut rest = lines;
    for _ in 0..budget {
        let Some((step, more)) = first_clause(rest) else {
            return Ok(Err(Fault::at(rest, Reason::Log)));
        };
        if !learn(checker, seen, log, step)? {
            return Ok(Err(Fault::at(rest, Reason::Log)));
        }
        rest = more;
    }
    if first_clause(rest).is_some() {
        return Ok(Err(Fault::at(rest, Reason::Log)));
    }
    Ok(Ok(rest))
}

// The clauses that come next, which are to be so many, learnt for a formula.
fn take_learnt<'a>(
    alloc: Global,
    formula: &Cnf,
    budget: u32,
    lines: &'a [CertLine],
) -> Result<Result<SpentLog<'a>, Fault>, NoMemory>
    ensures taken { IfOk result (λ taken. IfOk taken
        (λ spent. HasLearntAll (is_over formula.now) formula.now budget lines.now spent.log
        spent.rest.now)) }
    ensures refused { IfOk result (λ taken. IfErr taken
        (λ _. length (clauses_at lines.now) ≡ budget
        → are_learnt (is_over formula.now) formula.now (clauses_at lines.now) ≡ false)) }
    ensures left { IfOk result (λ taken. IfErr taken (λ fault. fault.left ≤ length lines.now)) }
    ensures cause { IfOk result (λ taken. IfErr taken
        (IsLearntFault (is_over formula.now) formula.now budget lines.now)) }
{
    let seen = variables_of(alloc, formula)?;
    let mut checker = Checker::new(alloc, formula)?;
    let mut log = Log::new(alloc);
    match take_log(&mut checker, &seen, &mut log, budget, lines)? {
        Ok(rest) => Ok(Ok(SpentLog { log, rest })),
        Err(fault) => Ok(Err(fault)),
    }
}

/// The clauses on which a budget was spent for a question, which rests on two input bytes at least: just so many come next, each
/// over the variables of the question's clauses. Each follows by its hints from these and those before it, is new, and isn't empty.
pub fn take_spent_log<'a>(
    alloc: Global,
    query: &Query,
    budget: u32,
    lines: &'a [CertLine],
) -> Result<Result<SpentLog<'a>, Fault>, NoMemory>
    ensures taken { IfOk result (λ taken. IfOk taken
        (λ spent. IsSpentBy query.now budget lines.now spent.log spent.rest.now)) }
    ensures refused { IfOk result (λ taken. IfErr taken
        (λ _. IsSpent query.now budget (clauses_at lines.now) → ⊥)) }
    ensures left { IfOk result (λ taken. IfErr taken (λ fault. fault.left ≤ length lines.now)) }
    ensures cause { IfOk result (λ taken. IfErr taken
        (IsSpendingFault query.now budget lines.now)) }
{
    match occurring(alloc, query.dag().nodes(), query.asserted())? {
        Occurrence::MoreInputs => {
            let encoding = encode(alloc, query)?;
            take_learnt(alloc, encoding.formula(), budget, lines)
        }
        Occurrence::NoInput | Occurrence::OneInput(_) => Ok(Err(Fault::at(lines, Reason::Query))),
    }
}
