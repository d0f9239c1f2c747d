//! What shifted rows are worth.

ghost use Rattle.std.specs.Prelude.{◌≡◌, ℕ, ◌<◌, Bool, true, false, List, length};
ghost use Rattle.cnf_form.specs.Literals.{Literal};
ghost use Rattle.cnf_form.specs.Valuations.{satisfies};
ghost use Rattle.bv_dag.specs.BitVectors.{bvshl, bvlshr, bvashr};
ghost use Rattle.circuit_spec.specs.declared.direction.Direction.TheVariants.{Up, Down};
ghost use Rattle.circuit_spec.specs.Formulas.{Formula, constant};
ghost use Rattle.circuit_spec.specs.Rows.{top_of};
ghost use Rattle.circuit_spec.specs.Shifts.{shift_row};
ghost use Rattle.circuit_spec.specs.Meaning.{row_value};

/// Where variable 1 is true and the clauses are satisfied, a shifted row is the standard's `bvshl`, `bvlshr` and
/// `bvashr` of its two rows, also where the distance is the width or more.
pub fn shifts_are_the_standards()
    ensures shl { (v : ℕ → Bool) (a b : List Literal) (f : Formula) → v 1 ≡ true
        → satisfies v (shift_row Up (constant false) a b f).1.clauses ≡ true
        → row_value v (shift_row Up (constant false) a b f).0
        ≡ bvshl (row_value v a) (row_value v b) }
    ensures lshr { (v : ℕ → Bool) (a b : List Literal) (f : Formula) → v 1 ≡ true
        → satisfies v (shift_row Down (constant false) a b f).1.clauses ≡ true
        → row_value v (shift_row Down (constant false) a b f).0
        ≡ bvlshr (row_value v a) (row_value v b) }
    ensures ashr { (v : ℕ → Bool) (a b : List Literal) (f : Formula) → v 1 ≡ true → 0 < length a
        → satisfies v (shift_row Down (top_of a) a b f).1.clauses ≡ true
        → row_value v (shift_row Down (top_of a) a b f).0 ≡ bvashr (row_value v a) (row_value v b) }
{}
