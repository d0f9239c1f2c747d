//! Each list of input bytes has a valuation that satisfies the clauses of a condition's terms.

ghost use Rattle.std.specs.Prelude.{◌≡◌, ℕ, ◌<◌, Bool, true, List, All, Some, None, slice_index_or};
ghost use Rattle.cnf_form.specs.Literals.{Literal};
ghost use Rattle.cnf_form.specs.Valuations.{satisfies};
ghost use Rattle.bv_dag.specs.Queries.{Condition};
ghost use Rattle.circuit_spec.specs.Bytes.{number_of_row};
ghost use Rattle.circuit_spec.specs.Circuits.{circuit_of};

/// For a condition and input bytes, some valuation satisfies the clauses of the condition's terms, and under it
/// variable 1 is true and the literals of each input byte that occurs are worth that byte.
pub fn each_input_has_a_valuation()
    ensures { (q : Condition) (bytes : List ℕ) → All (λ b. b < 256) bytes → (v : ℕ → Bool)
        × (v 1 ≡ true) × (satisfies v (circuit_of q).formula.clauses ≡ true)
        × ((i : ℕ) (row : List Literal) → slice_index_or (circuit_of q).inputs i None ≡ Some row
        → number_of_row v row ≡ slice_index_or bytes i 0) }
{}
