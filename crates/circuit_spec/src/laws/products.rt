//! What products, quotients and remainders are worth.

ghost use Rattle.std.specs.Prelude.{◌≡◌, ℕ, Bool, List, true, length};
ghost use Rattle.cnf_form.specs.Literals.{Literal};
ghost use Rattle.cnf_form.specs.Valuations.{satisfies};
ghost use Rattle.bv_dag.specs.BitVectors.{bvmul, bvudiv, bvurem};
ghost use Rattle.circuit_spec.specs.Formulas.{Formula};
ghost use Rattle.circuit_spec.specs.Products.{mul_row, udiv_row, urem_row};
ghost use Rattle.circuit_spec.specs.Meaning.{row_value};

/// Where variable 1 is true and the clauses are satisfied, the row of a product, of a quotient and of a remainder is
/// the standard's `bvmul`, `bvudiv` and `bvurem` of its two rows, also where the divisor is 0.
pub fn products_are_the_standards()
    ensures mul { (v : ℕ → Bool) (a b : List Literal) (f : Formula) → v 1 ≡ true
        → length a ≡ length b → satisfies v (mul_row a b f).1.clauses ≡ true
        → row_value v (mul_row a b f).0 ≡ bvmul (row_value v a) (row_value v b) }
    ensures udiv { (v : ℕ → Bool) (a b : List Literal) (f : Formula) → v 1 ≡ true
        → length a ≡ length b → satisfies v (udiv_row a b f).1.clauses ≡ true
        → row_value v (udiv_row a b f).0 ≡ bvudiv (row_value v a) (row_value v b) }
    ensures urem { (v : ℕ → Bool) (a b : List Literal) (f : Formula) → v 1 ≡ true
        → length a ≡ length b → satisfies v (urem_row a b f).1.clauses ≡ true
        → row_value v (urem_row a b f).0 ≡ bvurem (row_value v a) (row_value v b) }
{}
