//! What the clauses mean: under each valuation that satisfies them, rows are worth what they stand for.

pub mod choices;
pub mod circuits;
pub mod extensions;
pub mod products;
pub mod shifts;
pub mod slices;
pub mod solutions;

ghost use Rattle.std.specs.Prelude.{◌≡◌, ℕ, Bool, List, true, nat_lt, ◌&&◌, ◌||◌, if◌then◌else◌, length};
ghost use Rattle.cnf_form.specs.Literals.{Literal, same_truth};
ghost use Rattle.cnf_form.specs.Valuations.{literal_value, satisfies_clause, satisfies};
ghost use Rattle.bv_dag.specs.BitVectors.{bvadd, bvsub, bvneg};
ghost use Rattle.circuit_spec.specs.Formulas.{Formula, with_clause};
ghost use Rattle.circuit_spec.specs.Gates.{and_gate, or_gate, xor_gate, mux_gate, xor3_gate, majority_gate};
ghost use Rattle.circuit_spec.specs.Rows.{add_row, sub_row, neg_row, ult_gate};
ghost use Rattle.circuit_spec.specs.Bytes.{number_of_row};
ghost use Rattle.circuit_spec.specs.Meaning.{is_xor, sum_bit, carry_bit, row_value};

/// One more clause is one more condition, also where it is left out since it is always true.
pub fn a_clause_is_one_more_condition()
    ensures { (v : ℕ → Bool) (c : List Literal) (f : Formula)
        → satisfies v (with_clause c f).clauses ≡ (satisfies v f.clauses && satisfies_clause v c) }
{}

/// A valuation satisfies a formula with a gate just where it satisfies the formula and the gate's literal has the
/// gate's value.
pub fn gates_have_their_values()
    ensures and { (v : ℕ → Bool) (a b : Literal) (f : Formula)
        → satisfies v (and_gate a b f).1.clauses
        ≡ (satisfies v f.clauses
        && same_truth (literal_value v (and_gate a b f).0)
        (literal_value v a && literal_value v b)) }
    ensures or { (v : ℕ → Bool) (a b : Literal) (f : Formula)
        → satisfies v (or_gate a b f).1.clauses
        ≡ (satisfies v f.clauses
        && same_truth (literal_value v (or_gate a b f).0)
        (literal_value v a || literal_value v b)) }
    ensures xor { (v : ℕ → Bool) (a b : Literal) (f : Formula)
        → satisfies v (xor_gate a b f).1.clauses
        ≡ (satisfies v f.clauses
        && same_truth (literal_value v (xor_gate a b f).0)
        (is_xor (literal_value v a) (literal_value v b))) }
    ensures mux { (v : ℕ → Bool) (c a b : Literal) (f : Formula)
        → satisfies v (mux_gate c a b f).1.clauses
        ≡ (satisfies v f.clauses
        && same_truth (literal_value v (mux_gate c a b f).0)
        (if literal_value v c then literal_value v a else literal_value v b)) }
    ensures sum { (v : ℕ → Bool) (a b c : Literal) (f : Formula)
        → satisfies v (xor3_gate a b c f).1.clauses
        ≡ (satisfies v f.clauses
        && same_truth (literal_value v (xor3_gate a b c f).0)
        (sum_bit (literal_value v a) (literal_value v b) (literal_value v c))) }
    ensures carry { (v : ℕ → Bool) (a b c : Literal) (f : Formula)
        → satisfies v (majority_gate a b c f).1.clauses
        ≡ (satisfies v f.clauses
        && same_truth (literal_value v (majority_gate a b c f).0)
        (carry_bit (literal_value v a) (literal_value v b) (literal_value v c))) }
{}

/// Where variable 1 is true and the clauses are satisfied, a sum is the standard's `bvadd` of its rows, and so on.
pub fn sums_are_the_standards()
    ensures add { (v : ℕ → Bool) (a b : List Literal) (f : Formula) → v 1 ≡ true
        → length a ≡ length b → satisfies v (add_row a b f).1.clauses ≡ true
        → row_value v (add_row a b f).0 ≡ bvadd (row_value v a) (row_value v b) }
    ensures sub { (v : ℕ → Bool) (a b : List Literal) (f : Formula) → v 1 ≡ true
        → length a ≡ length b → satisfies v (sub_row a b f).1.clauses ≡ true
        → row_value v (sub_row a b f).0 ≡ bvsub (row_value v a) (row_value v b) }
    ensures neg { (v : ℕ → Bool) (a : List Literal) (f : Formula) → v 1 ≡ true
        → satisfies v (neg_row a f).1.clauses ≡ true
        → row_value v (neg_row a f).0 ≡ bvneg (row_value v a) }
    ensures ult { (v : ℕ → Bool) (a b : List Literal) (f : Formula) → v 1 ≡ true
        → length a ≡ length b → satisfies v (ult_gate a b f).1.clauses ≡ true
        → literal_value v (ult_gate a b f).0 ≡ nat_lt (number_of_row v a) (number_of_row v b) }
{}
