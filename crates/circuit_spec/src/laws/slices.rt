//! What rows are worth that need no gate.

ghost use Rattle.std.specs.Prelude.{◌≡◌, ℕ, ◌+◌, ◌<◌, ◌≤◌, Bool, true, false, List, ◌++◌, length, take, drop, replicate};
ghost use Rattle.cnf_form.specs.Literals.{Literal};
ghost use Rattle.bv_dag.specs.BitVectors.{nat2bv, bvnot, extract, zero_extend, sign_extend, concat};
ghost use Rattle.circuit_spec.specs.Formulas.{constant};
ghost use Rattle.circuit_spec.specs.Rows.{negations, number_row, top_of};
ghost use Rattle.circuit_spec.specs.Meaning.{row_value};

/// The row of a number is that number, and the parts, extensions and joins of rows are the standard's `extract`,
/// `zero_extend`, `sign_extend` and `concat`; negated rows are its `bvnot`.
pub fn slices_are_the_standards()
    ensures number { (v : ℕ → Bool) (w n : ℕ) → v 1 ≡ true
        → row_value v (number_row w n) ≡ nat2bv w n }
    ensures not { (v : ℕ → Bool) (a : List Literal)
        → row_value v (negations a) ≡ bvnot (row_value v a) }
    ensures extract { (v : ℕ → Bool) (high low : ℕ) (a : List Literal) → low ≤ high
        → high < length a → row_value v (drop low (take (high + 1) a))
        ≡ extract high low (row_value v a) }
    ensures zero_extend { (v : ℕ → Bool) (by : ℕ) (a : List Literal) → v 1 ≡ true
        → row_value v (a ++ replicate by (constant false)) ≡ zero_extend by (row_value v a) }
    ensures sign_extend { (v : ℕ → Bool) (by : ℕ) (a : List Literal) → 0 < length a
        → row_value v (a ++ replicate by (top_of a)) ≡ sign_extend by (row_value v a) }
    ensures concat { (v : ℕ → Bool) (high low : List Literal)
        → row_value v (low ++ high) ≡ concat (row_value v high) (row_value v low) }
{}
