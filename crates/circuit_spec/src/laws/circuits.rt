//! What holds of every valuation that satisfies the clauses of terms.

ghost use Rattle.std.specs.Prelude.{◌≡◌, ℕ, Bool, List, true};
ghost use Rattle.cnf_form.specs.Literals.{Literal};
ghost use Rattle.cnf_form.specs.Valuations.{satisfies};
ghost use Rattle.bv_dag.specs.Queries.{Condition};
ghost use Rattle.bv_dag.specs.declared.nodes.Node.{Node};
ghost use Rattle.circuit_spec.specs.Circuits.{Circuit, clauses, with_asserted, circuit_with};
ghost use Rattle.circuit_spec.specs.Formulas.{Formula};

/// A valuation that satisfies the clauses with one more term, or with what is asserted, satisfies those before.
pub fn terms_only_add_clauses()
    ensures term { (v : ℕ → Bool) (c : Circuit) (n : Node)
        → satisfies v (circuit_with c n).formula.clauses ≡ true
        → satisfies v c.formula.clauses ≡ true }
    ensures asserted { (v : ℕ → Bool) (rows : List (List Literal)) (ids : List ℕ) (f : Formula)
        → satisfies v (with_asserted rows ids f).clauses ≡ true → satisfies v f.clauses ≡ true }
{}

/// Variable 1 is true wherever the clauses of a condition are satisfied.
pub fn the_first_variable_is_true()
    ensures { (q : Condition) (v : ℕ → Bool) → satisfies v (clauses q) ≡ true → v 1 ≡ true }
{}
