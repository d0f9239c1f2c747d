//! What holds of every formula, log and valuation.

ghost use Rattle.std.specs.Prelude.{◌≡◌, ℕ, Bool, List, true, Some, None};
ghost use Rattle.cnf_form.specs.Literals.{Literal};
ghost use Rattle.cnf_form.specs.Clauses.{clause_of, is_subset};
ghost use Rattle.cnf_form.specs.Valuations.{satisfies_clause, satisfies};
ghost use Rattle.cnf_form.specs.Propagation.{follows};
ghost use Rattle.cnf_form.specs.Refutations.{Step, clauses_of, follows_all, refutes};

/// A clause is satisfied just where one of the literals is true of which it was made.
pub fn clauses_mean_their_literals()
    ensures clause { (v : ℕ → Bool) (literals clause : List Literal)
        → clause_of literals ≡ Some clause
        → satisfies_clause v clause ≡ satisfies_clause v literals }
    ensures none { (v : ℕ → Bool) (literals : List Literal) → clause_of literals ≡ None
        → satisfies_clause v literals ≡ true }
{}

/// A superset of a clause is satisfied where the clause is.
pub fn supersets_are_weaker()
    ensures { (v : ℕ → Bool) (small large : List Literal) → is_subset small large ≡ true
        → satisfies_clause v small ≡ true → satisfies_clause v large ≡ true }
{}

/// A clause that follows by its hints is satisfied wherever the clauses are that it follows from.
pub fn what_follows_is_satisfied()
    ensures { (v : ℕ → Bool) (clauses : List (List Literal)) (clause : List Literal)
        (hints : List ℕ) → follows clauses clause hints ≡ true → satisfies v clauses ≡ true
        → satisfies_clause v clause ≡ true }
{}

/// A valuation that satisfies a formula satisfies each clause of a log that follows from it.
pub fn logs_keep_valuations()
    ensures { (v : ℕ → Bool) (formula : List (List Literal)) (log : List Step)
        → follows_all formula log ≡ true → satisfies v formula ≡ true
        → satisfies v (clauses_of log) ≡ true }
{}

/// No valuation satisfies a formula that a log refutes.
pub fn refuted_formulas_have_no_valuation()
    ensures { (v : ℕ → Bool) (formula : List (List Literal)) (log : List Step)
        → refutes formula log ≡ true → satisfies v formula ≡ true → ⊥ }
{}
