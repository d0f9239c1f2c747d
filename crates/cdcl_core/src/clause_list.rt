//! Clauses, with the places in which each literal stands, so that only those are looked at where it becomes false, and with
//! a checker of those that come next.

ghost use Rattle.std.specs.Prelude.{◌≡◌, ℕ, ◌+◌, ◌*◌, ◌<◌, ◌==◌, ◌++◌, ◌∷◌, ◌&&◌, [], List, Some, true, OnOk, OnErr, IfOk, IsTrue, slice_get, length};
ghost use Rattle.std.specs.List.{list_any};
ghost use Rattle.cnf_form.specs.Literals.{Literal, same_literal};
ghost use Rattle.cnf_form.specs.Clauses.{are_increasing};
ghost use Rattle.cnf_form.specs.Propagation.{follows};
ghost use Rattle.cnf_form.specs.Refutations.{is_new};
ghost use Rattle.cnf_form.specs.Variables.{occurs};
ghost use Rattle.cdcl_core.specs.Places.{index_of, is_among, places_of, AreKept};

use cnf_form::{Clauses, Lit, LogStep};
use proof_check::Checker;
use std::alloc::{AllocError as NoMemory, Global};
use std::marker::Model;

/// The places of clauses, by literal: those in which the variable k stands are at place 2 k + 1, those with its negation
/// at place 2 k.
#[derive(Debug, Drop)]
struct Places {
    lists: Vec<Vec<usize>>,
}

impl Model for Places {
    ghost use Rattle.std.specs.Prelude.{ℕ, List, map};

    ghost Value = { List (List ℕ) };

    ghost view = { λ p. map (λ v. v.items) p.lists.items };
}

fn index(literal: Lit) -> usize
    ensures { result ≡ index_of literal }
{
    let even = literal.variable() as usize * 2;
    if literal.is_positive() {
        even + 1
    } else {
        even
    }
}

impl Places {
    // Makes room for a list at this index.
    fn reach(&mut self, alloc: Global, index: usize) -> Result<(), NoMemory>
        ensures there { OnOk result (index < length self.new) }
        ensures kept { AreKept self.old self.new }
    {
        while self.lists.len() <= index {
            self.lists.push(Vec::new(alloc))?;
        }
        Ok(())
    }

    // Notes that the literal stands in the clause at this place.
    fn put(&mut self, alloc: Global, literal: Lit, place: usize) -> Result<(), NoMemory>
        ensures noted { OnOk result (is_among (places_of self.new literal) place ≡ true) }
        ensures kept { AreKept self.old self.new }
    {
        let index = index(literal);
        self.reach(alloc, index)?;
        self.lists[index].push(place)?;
        Ok(())
    }

    // Notes the clause at this place.
    fn add(&mut self, alloc: Global, clause: &[Lit], place: usize) -> Result<(), NoMemory>
        ensures noted { OnOk result ((l : Literal) → list_any (same_literal l) clause.now ≡ true
            → is_among (places_of self.new l) place ≡ true) }
        ensures kept { AreKept self.old self.new }
    {
        for literal in clause {
            self.put(alloc, *literal, place)?;
        }
        Ok(())
    }

    // The places of the clauses in which the literal stands.
    fn of(&self, literal: Lit) -> &[usize]
        ensures { result.now ≡ places_of self.now literal }
    {
        match self.lists.get(index(literal)) {
            Some(places) => places.as_slice(),
            None => &[],
        }
    }
}

fn has_variable(clause: &[Lit], variable: u32) -> bool
    ensures { result ≡ list_any (λ l. l.variable == variable) clause.now }
{
    clause.iter().any(|l| l.variable() == variable)
}

/// Clauses in their order.
#[derive(Debug)]
pub struct ClauseList {
    checker: Checker,
    places: Places,
}

impl Drop for ClauseList {
    fn drop(self) {
        let Self {
            checker: _checker,
            places: _places,
        } = self;
    }
}

impl Model for ClauseList {
    ghost use Rattle.std.specs.Prelude.{List};
    ghost use Rattle.cnf_form.specs.Literals.{Literal};
    ghost use Rattle.cdcl_core.specs.Places.{AreNoted};

    ghost Value = { List (List Literal) };

    ghost view = { λ c. c.checker };

    ghost invariant = { λ c. AreNoted c.checker c.places };
}

impl ClauseList {
    /// No clauses.
    pub fn new(alloc: Global) -> ClauseList
        ensures { result ≡ [] }
    {
        ClauseList {
            checker: Checker::empty(alloc),
            places: Places {
                lists: Vec::new(alloc),
            },
        }
    }

    /// Puts the clause of these literals, which are in the order of their variables, behind the others.
    pub fn push(&mut self, alloc: Global, literals: &[Lit]) -> Result<(), NoMemory>
        requires { are_increasing literals.now ≡ true }
        ensures ok { OnOk result (self.new ≡ self.old ++ literals.now ∷ []) }
        ensures err { OnErr result (self.new ≡ self.old) }
    {
        let place = self.list().len();
        self.places.add(alloc, literals, place)?;
        self.checker.note(literals)
    }

    pub fn list(&self) -> &Clauses
        ensures { result.now ≡ self.now }
    {
        self.checker.clauses()
    }

    /// Whether the step's clause follows by its hints from the clauses, and is a superset of none of them.
    pub fn may_come_next(&mut self, step: &LogStep) -> Result<bool, NoMemory>
        ensures answer { IfOk result (λ yes. yes
            ≡ (follows self.old step.now.clause step.now.hints
            && is_new self.old step.now.clause)) }
        ensures same { self.new ≡ self.old }
    {
        self.checker.may_come_next(step)
    }

    /// The places of clauses, with all of those in which the literal stands.
    pub fn places(&self, literal: Lit) -> &[usize]
        ensures { (k : ℕ) (c : List Literal) → slice_get self.now k ≡ Some c
            → list_any (same_literal literal) c ≡ true → is_among result.now k ≡ true }
    {
        self.places.of(literal)
    }

    // Whether the first clause in which the literal is noted has its variable. The clause is read, since a note stays where want
    // of memory kept its clause from being put.
    fn shows(&self, literal: Lit) -> bool
        ensures { IsTrue result → occurs self.now literal.variable ≡ true }
    {
        let Some(place) = self.places(literal).first() else {
            return false;
        };
        match self.list().get(*place) {
            Some(clause) => has_variable(clause, literal.variable()),
            None => false,
        }
    }

    /// Whether the literal's variable is seen in a clause: the first one in which the literal or its negation is noted.
    pub(crate) fn mentions(&self, literal: Lit) -> bool
        ensures { IsTrue result → occurs self.now literal.variable ≡ true }
    {
        self.shows(literal) || self.shows(literal.negated())
    }
}

/// The clauses of a formula.
pub fn clause_list(alloc: Global, formula: &Clauses) -> Result<ClauseList, NoMemory>
    ensures { IfOk result (λ list. list ≡ formula.now) }
{
    let mut list = ClauseList::new(alloc);
    for place in 0..formula.len() {
        list.push(alloc, formula.at(place))?;
    }
    Ok(list)
}
