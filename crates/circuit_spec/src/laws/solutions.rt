//! What a valuation that satisfies the clauses of a condition says of the condition.

ghost use Rattle.std.specs.Prelude.{◌≡◌, ℕ, ◌<◌, Bool, true, List, All, length};
ghost use Rattle.cnf_form.specs.Valuations.{satisfies};
ghost use Rattle.bv_dag.specs.Graphs.{IsDag};
ghost use Rattle.bv_dag.specs.Queries.{Condition, AreBits, holds};
ghost use Rattle.circuit_spec.specs.Bytes.{bytes_of, MeansBytes};
ghost use Rattle.circuit_spec.specs.Circuits.{clauses};

/// The input bytes that a valuation means are as many as the condition has, and where the valuation satisfies the
/// clauses, the condition holds on them.
pub fn valuations_are_solutions()
    ensures count { (q : Condition) (v : ℕ → Bool) → length (bytes_of q v) ≡ q.graph.inputs }
    ensures hold { (q : Condition) (v : ℕ → Bool) → IsDag q.graph → AreBits q.graph q.asserted
        → satisfies v (clauses q) ≡ true → holds q (bytes_of q v) ≡ true }
{}

/// Input bytes on which a condition holds extend to a valuation that satisfies its clauses: it means just these bytes.
pub fn solutions_are_valuations()
    ensures { (q : Condition) (input : List ℕ) → IsDag q.graph → AreBits q.graph q.asserted
        → All (λ b. b < 256) input → holds q input ≡ true →
        (v : ℕ → Bool) × (satisfies v (clauses q) ≡ true) × MeansBytes q v input }
{}
