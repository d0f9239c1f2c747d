//! What tests and choices are worth, and rows that are made place by place.

ghost use Rattle.std.specs.Prelude.{◌≡◌, ℕ, ◌<◌, Bool, true, List, [], ◌∷◌, length};
ghost use Rattle.cnf_form.specs.Literals.{Literal};
ghost use Rattle.cnf_form.specs.Valuations.{satisfies};
ghost use Rattle.bv_dag.specs.BitVectors.{bvand, bvor, bvxor, bvult, bvslt, equal, ite};
ghost use Rattle.circuit_spec.specs.Formulas.{Formula};
ghost use Rattle.circuit_spec.specs.Gates.{and_gate, or_gate, xor_gate, mux_gate};
ghost use Rattle.circuit_spec.specs.Rows.{each, ult_gate, slt_gate, equal_gate};
ghost use Rattle.circuit_spec.specs.Circuits.{lowest_of};
ghost use Rattle.circuit_spec.specs.Meaning.{row_value};

/// Where the clauses are satisfied, gates at each place of two rows are the standard's `bvand`, `bvor`, `bvxor` and,
/// by a row of one bit, `ite`.
pub fn places_are_the_standards()
    ensures and { (v : ℕ → Bool) (a b : List Literal) (f : Formula) → length a ≡ length b
        → satisfies v (each and_gate a b f).1.clauses ≡ true
        → row_value v (each and_gate a b f).0 ≡ bvand (row_value v a) (row_value v b) }
    ensures or { (v : ℕ → Bool) (a b : List Literal) (f : Formula) → length a ≡ length b
        → satisfies v (each or_gate a b f).1.clauses ≡ true
        → row_value v (each or_gate a b f).0 ≡ bvor (row_value v a) (row_value v b) }
    ensures xor { (v : ℕ → Bool) (a b : List Literal) (f : Formula) → length a ≡ length b
        → satisfies v (each xor_gate a b f).1.clauses ≡ true
        → row_value v (each xor_gate a b f).0 ≡ bvxor (row_value v a) (row_value v b) }
    ensures ite { (v : ℕ → Bool) (t a b : List Literal) (f : Formula) → length t ≡ 1
        → length a ≡ length b → satisfies v (each (mux_gate (lowest_of t)) a b f).1.clauses ≡ true
        → row_value v (each (mux_gate (lowest_of t)) a b f).0
        ≡ ite (row_value v t) (row_value v a) (row_value v b) }
{}

/// Where variable 1 is true and the clauses are satisfied, the literal of a test is the one bit of the standard's
/// `bvult`, `bvslt` and `=`.
pub fn tests_are_the_standards()
    ensures ult { (v : ℕ → Bool) (a b : List Literal) (f : Formula) → v 1 ≡ true
        → length a ≡ length b → satisfies v (ult_gate a b f).1.clauses ≡ true
        → row_value v ((ult_gate a b f).0 ∷ []) ≡ bvult (row_value v a) (row_value v b) }
    ensures slt { (v : ℕ → Bool) (a b : List Literal) (f : Formula) → v 1 ≡ true → 0 < length a
        → length a ≡ length b → satisfies v (slt_gate a b f).1.clauses ≡ true
        → row_value v ((slt_gate a b f).0 ∷ []) ≡ bvslt (row_value v a) (row_value v b) }
    ensures equal { (v : ℕ → Bool) (a b : List Literal) (f : Formula) → v 1 ≡ true
        → length a ≡ length b → satisfies v (equal_gate a b f).1.clauses ≡ true
        → row_value v ((equal_gate a b f).0 ∷ []) ≡ equal (row_value v a) (row_value v b) }
{}
