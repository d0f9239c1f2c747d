//! The search: it propagates until a clause is false, learns a clause from that, goes back to where that one forces a literal, and
//! goes on, once for each clause that the budget allows. Where nothing more follows it decides: the most active variable without a
//! value gets the value that it had last.

use crate::activity::Activity;
use crate::analysis::Analysis;
use crate::assignment::Assignment;
use crate::clause_store::ClauseStore;
use crate::code::Code;
use crate::fixed_literals::leave_out;
use crate::history::History;
use crate::log_making::log_of;
use crate::minimising::Minimiser;
use crate::needed::{all, needed_by_last};
use crate::propagation::propagate;
use crate::proposal::Proposal;
use crate::restarts::Restarts;
use crate::watches::Watches;
use cnf_form::{Cnf, Lit, Log};
use std::alloc::{AllocError as NoMemory, Global};

// Formulas with more variables, clauses or literals aren't searched: their numbers have to fit into 32 bits, a watch's too.
const MOST: usize = 1 << 30;

/// All that a search keeps.
struct Engine {
    clauses: ClauseStore,
    watches: Watches,
    assignment: Assignment,
    activity: Activity,
    /// The value to try first, by variable.
    phases: Vec<bool>,
    analysis: Analysis,
    minimiser: Minimiser,
    restarts: Restarts,
    history: History,
    /// A clause that was false from the start.
    falsified: Option<u32>,
    /// The greatest variable.
    last: u32,
}

impl Drop for Engine {
    fn drop(self) {
        let Self {
            clauses: _clauses,
            watches: _watches,
            assignment: _assignment,
            activity: _activity,
            phases: _phases,
            analysis: _analysis,
            minimiser: _minimiser,
            restarts: _restarts,
            history: _history,
            falsified: _falsified,
            last: _last,
        } = self;
    }
}

// How many literals the clauses of a formula have.
fn count_literals(formula: &Cnf) -> usize {
    let clauses = formula.clauses();
    let mut count: usize = 0;
    for place in 0..clauses.len() {
        count = count.saturating_add(clauses.at(place).len());
    }
    count
}

// The greatest level of the literals from the second on, and the place of such a literal.
fn greatest_level(assignment: &Assignment, learnt: &[Code]) -> (u32, usize) {
    let mut greatest = (0, 1);
    for place in 1..learnt.len() {
        let level = assignment.cause(learnt[place]).level;
        if level > greatest.0 {
            greatest = (level, place);
        }
    }
    greatest
}

impl Engine {
    fn new(alloc: Global, formula: &Cnf, literals: usize) -> Result<Engine, NoMemory> {
        let last = formula.variables();
        let clauses = formula.clauses().len();
        Ok(Engine {
            clauses: ClauseStore::new(alloc, clauses, literals)?,
            watches: Watches::new(alloc, (last as usize + 1).saturating_mul(2), clauses)?,
            assignment: Assignment::new(alloc, last)?,
            activity: Activity::new(alloc, last)?,
            phases: vec![in alloc; false; last as usize + 1]?,
            analysis: Analysis::new(alloc, last)?,
            minimiser: Minimiser::new(alloc),
            restarts: Restarts::new(),
            history: History::new(alloc, u32::try_from(clauses).unwrap_or(u32::MAX)),
            falsified: None,
            last,
        })
    }

    // Watches the first two literals of the clause that was put last, of these.
    fn watch(&mut self, first: Code, second: Code) -> Result<(), NoMemory> {
        let clause = self.clauses.count();
        self.watches.add(first, clause, second)?;
        self.watches.add(second, clause, first)
    }

    // Puts a clause of the formula behind the others, and makes its literal true where it is the only one.
    fn add(&mut self, literals: &[Lit]) -> Result<(), NoMemory> {
        for literal in literals {
            self.clauses.put(Code::of(*literal))?;
        }
        self.clauses.close(literals.len(), literals.len())?;
        let clause = self.clauses.count();
        match literals {
            [] => self.falsified = Some(clause),
            [only] => self.add_unit(Code::of(*only), clause)?,
            [first, second, ..] => self.watch(Code::of(*first), Code::of(*second))?,
        }
        Ok(())
    }

    // Makes the only literal of a clause true.
    fn add_unit(&mut self, only: Code, clause: u32) -> Result<(), NoMemory> {
        if self.assignment.is_false(only) {
            self.falsified = Some(clause);
        } else if !self.assignment.is_true(only) {
            self.assignment.enqueue(only, clause)?;
        }
        Ok(())
    }

    // Puts all clauses of the formula.
    fn add_all(&mut self, formula: &Cnf) -> Result<(), NoMemory> {
        let clauses = formula.clauses();
        for place in 0..clauses.len() {
            self.add(clauses.at(place))?;
        }
        Ok(())
    }

    // Takes out variables until one has no value, and answers the literal to choose for that one.
    fn pick(&mut self) -> Option<Code> {
        while let Some(place) = self.activity.pop() {
            if let Ok(variable) = u32::try_from(place.saturating_add(1)) {
                let positive = self.phases.get(variable as usize).copied().unwrap_or(false);
                let literal = Code::new(variable, positive);
                if self.assignment.value(literal).is_none() {
                    return Some(literal);
                }
            }
        }
        None
    }

    fn propagate(&mut self) -> Result<Option<u32>, NoMemory> {
        if self.falsified.is_some() {
            return Ok(self.falsified);
        }
        propagate(
            &mut self.assignment,
            &mut self.clauses,
            &mut self.watches,
            self.last,
        )
    }

    // Decides and propagates in turn, until a clause is false, whose number is the answer, or all variables have values.
    fn run(&mut self) -> Result<Option<u32>, NoMemory> {
        for _ in 0..=self.last {
            let conflict = self.propagate()?;
            if conflict.is_some() {
                return Ok(conflict);
            }
            match self.pick() {
                Some(literal) => self.assignment.decide(literal)?,
                None => return Ok(None),
            }
        }
        Ok(None)
    }

    // Puts back the variables from this place of the trail on, each with the value that it has there to try first.
    fn put_back(&mut self, start: usize) {
        for literal in self.assignment.trail().get(start..).unwrap_or(&[]) {
            if let Some(phase) = self.phases.get_mut(literal.place()) {
                *phase = literal.is_positive();
            }
            self.activity.put(literal.place().wrapping_sub(1));
        }
    }

    // Goes back to where so many decisions were made.
    fn backjump(&mut self, level: u32) {
        let end = self.assignment.end_of(level);
        self.put_back(end);
        self.assignment.backjump(level);
    }

    // The greatest level of the literals that were learnt, but for the first. Such a literal is put in the second place.
    fn level_to_keep(&mut self) -> u32 {
        let (level, place) = greatest_level(&self.assignment, &self.analysis.learnt);
        if 1 < self.analysis.learnt.len() && place < self.analysis.learnt.len() {
            self.analysis.learnt.swap(1, place);
        }
        level
    }

    // Puts what was learnt behind the other clauses, and watches its first two literals.
    fn keep(&mut self) -> Result<(), NoMemory> {
        for literal in self
            .analysis
            .learnt
            .iter()
            .chain(self.analysis.fixed.iter())
        {
            self.clauses.put(*literal)?;
        }
        let looked_at = self.analysis.learnt.len();
        let len = looked_at.saturating_add(self.analysis.fixed.len());
        self.clauses.close(len, looked_at)?;
        match self.analysis.learnt.as_slice() {
            [first, second, ..] => {
                let (first, second) = (*first, *second);
                self.watch(first, second)
            }
            _ => Ok(()),
        }
    }

    // Raises the activity of the variables that the analysis met, but for those that keep their values.
    fn raise(&mut self) {
        for literal in &self.analysis.met {
            if self.assignment.cause(*literal).level > 0 {
                self.activity.raise(literal.place().wrapping_sub(1));
            }
        }
        self.activity.grow();
    }

    // What the conflict at the clause of this number shows, after a decision.
    fn analyse(&mut self, conflict: u32) -> Result<(), NoMemory> {
        self.analysis
            .analyse(&self.assignment, &self.clauses, conflict)?;
        self.raise();
        self.minimiser
            .minimise(&mut self.analysis, &self.assignment, &self.clauses)?;
        leave_out(&mut self.analysis, &self.assignment, &self.clauses)?;
        self.history.note(&mut self.analysis.used, conflict)
    }

    // Learns from the conflict, and goes back to where what was learnt forces a literal.
    fn learn(&mut self, conflict: u32) -> Result<(), NoMemory> {
        self.analyse(conflict)?;
        let level = self.level_to_keep();
        self.keep()?;
        self.backjump(level);
        if let Some(first) = self.analysis.learnt.first().copied() {
            self.assignment.enqueue(first, self.clauses.count())?;
        }
        if self.restarts.is_due() {
            self.backjump(0);
        }
        Ok(())
    }

    // Learns the empty clause, since the clause of this number is false before any decision. The log has what that needs.
    fn refute(&mut self, alloc: Global, conflict: u32) -> Result<Option<Log>, NoMemory> {
        self.analysis
            .refute(&self.assignment, &self.clauses, conflict)?;
        self.history.note(&mut self.analysis.used, conflict)?;
        self.clauses.close(0, 0)?;
        let needed = needed_by_last(alloc, &self.history)?;
        log_of(alloc, &self.clauses, &self.history, &needed)
    }

    // The log of all that was learnt.
    fn spend(&self, alloc: Global) -> Result<Option<Log>, NoMemory> {
        let wanted = all(alloc, &self.history)?;
        log_of(alloc, &self.clauses, &self.history, &wanted)
    }

    // Learns a clause for each that the budget allows, until one is empty or all variables have values.
    fn work(&mut self, alloc: Global, budget: u32) -> Result<Option<Proposal>, NoMemory> {
        for _ in 0..budget {
            let Some(conflict) = self.run()? else {
                return Ok(Some(Proposal::Found(self.assignment.valuation(alloc)?)));
            };
            if self.assignment.level() == 0 {
                return Ok(
                    self.refute(alloc, conflict)?
                        .map(|log| Proposal::Refuted(log)),
                );
            }
            self.learn(conflict)?;
        }
        match self.run()? {
            Some(_) => Ok(self.spend(alloc)?.map(|log| Proposal::Spent(log))),
            None => Ok(Some(Proposal::Found(self.assignment.valuation(alloc)?))),
        }
    }
}

/// Searches for a valuation that satisfies the formula, or for clauses that show that there is none, up to `budget` clauses. None
/// where the formula is too large, or the search has lost its way.
pub fn propose(alloc: Global, formula: &Cnf, budget: u32) -> Result<Option<Proposal>, NoMemory> {
    let literals = count_literals(formula);
    if literals >= MOST || formula.clauses().len() >= MOST || formula.variables() as usize >= MOST {
        return Ok(None);
    }
    let mut engine = Engine::new(alloc, formula, literals)?;
    engine.add_all(formula)?;
    engine.work(alloc, budget)
}
