//! How far a search goes back once a clause is learnt: to the first decision after which all literals of the clause but one
//! were false. There each clause was calm, and the learnt one is calm before each decision that stays.

ghost use Rattle.std.specs.Prelude.{◌≡◌, ℕ, ◌≤◌, ◌<◌, ◌++◌, ◌∷◌, [], None, IfSome, length};
ghost use Rattle.cdcl_core.specs.Trails.{trail_values, IsTrail, AreCalmFirst, IsDecisionAt, IsCalmBefore};

use crate::order::Order;
use crate::trail::Trail;
use cnf_form::{Clause, Clauses};

// The second of the numbers of the entries that gave the clause's variables their values, from the greatest down: two of its
// literals had no value before that entry.
fn second(trail: &Trail, clause: &Clause) -> usize
    ensures { IsCalmBefore result trail.now.entries clause.now }
{
    let mut first = 0;
    let mut second = 0;
    for literal in clause.literals() {
        let number = trail.number(*literal);
        if number > first {
            second = first;
            first = number;
        } else if number > second {
            second = number;
        }
    }
    second
}

// The place of the first decision from this place on.
fn decision_from(trail: &Trail, start: usize) -> Option<usize>
    ensures some { IfSome result (IsDecisionAt trail.now.entries) }
    ensures first { IfSome result (λ place. (p : ℕ) → p < place → IsDecisionAt trail.now.entries p
        → p < start) }
{
    let entries = trail.entries();
    for place in start..entries.len() {
        if entries[place].reason.is_none() {
            return Some(place);
        }
    }
    None
}

/// Goes back to where the clause that was learnt may go on, or at a restart to where nothing was decided, and answers how
/// many of the other clauses, the first ones, are calm there. The variables that lose their values are put back in the order.
pub(crate) fn go_back(
    trail: &mut Trail,
    order: &mut Order,
    clauses: &Clauses,
    clause: &Clause,
    is_restart: bool,
) -> usize
    requires { IsTrail clauses.now trail.old.entries }
    ensures trail { IsTrail (clauses.now ++ clause.now ∷ []) trail.new.entries }
    ensures size { length trail.new.marks ≡ length trail.old.marks }
    ensures calm { AreCalmFirst result (trail_values trail.new.entries) clauses.now }
    ensures count { result ≤ length clauses.now }
{
    let start = if is_restart { 0 } else { second(trail, clause) };
    match decision_from(trail, start) {
        Some(place) => {
            order.put_back(trail.entries(), place);
            trail.cut(place);
            clauses.len()
        }
        None => {
            order.put_back(trail.entries(), 0);
            trail.cut(0);
            0
        }
    }
}
