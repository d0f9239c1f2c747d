//! The encoding of a condition.

ghost use Rattle.std.specs.Prelude.{◌≡◌, IfOk};
ghost use Rattle.circuit_spec.specs.Circuits.{circuit_of, clauses};

use crate::circuit::Circuit;
use crate::encoding::Encoding;
use bv_dag::Query;
use std::alloc::{AllocError as NoMemory, Global};

#[tactic(auto, unfolding(circuit_spec::specs::Circuits::circuit_of))]
fn circuit_of(alloc: Global, query: &Query) -> Result<Circuit, NoMemory>
    ensures { IfOk result (λ c. c ≡ circuit_of query.now) }
{
    let mut circuit = Circuit::new(alloc, query.inputs())?;
    let nodes = query.dag().nodes();
    for node in nodes {
        circuit.push_node(alloc, node)?;
    }
    Ok(circuit)
}

/// The clauses of a condition, in the manner of Tseitin, and the literals of its input bytes: variable 1 is true, each gate of
/// each term has one variable of its own, in the order of the terms, and each asserted term is a clause.
#[tactic(auto, unfolding(circuit_spec::specs::Circuits::clauses))]
pub fn encode(alloc: Global, query: &Query) -> Result<Encoding, NoMemory>
    ensures formula { IfOk result (λ e. e.formula ≡ clauses query.now) }
    ensures inputs { IfOk result (λ e. e.inputs ≡ (circuit_of query.now).inputs) }
{
    circuit_of(alloc, query)?.encoding(query.asserted())
}
