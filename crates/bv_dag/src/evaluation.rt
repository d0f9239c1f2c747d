//! What terms are worth on an assignment, as far as it is asked for: a condition is left at the first of its terms that isn't
//! 1, and no term behind that is evaluated.

ghost use Rattle.std.specs.Prelude.{◌≡◌, ◌==◌, ◌<◌, IfOk, OnOk, length};
ghost use Rattle.bv_dag.specs.Graphs.{number_of};
ghost use Rattle.bv_dag.specs.Queries.{AreBits, holds};
ghost use Rattle.bv_dag.specs.Evaluations.{AreFirstWords};

use crate::graph::Dag;
use crate::words::Word;
use std::alloc::AllocError as NoMemory;

// Evaluates the terms up to the one at this place, behind those that were evaluated before.
fn evaluate_to(words: &mut Vec<Word>, terms: &Dag, input: &[u8], id: usize) -> Result<(), NoMemory>
    requires each_input { length input.now ≡ terms.now.inputs }
    requires there { id < length terms.now.nodes }
    requires first { AreFirstWords terms.now input.now words.old.items }
    ensures first { OnOk result (AreFirstWords terms.now input.now words.new.items) }
    ensures reached { OnOk result (id < length words.new.items) }
{
    let nodes = terms.nodes();
    while words.len() <= id {
        let word = nodes[words.len()].value(words, input);
        words.push(word)?;
    }
    Ok(())
}

// The number that the term at a place is worth.
fn number_on(words: &mut Vec<Word>, terms: &Dag, input: &[u8], id: usize) -> Result<u64, NoMemory>
    requires each_input { length input.now ≡ terms.now.inputs }
    requires there { id < length terms.now.nodes }
    requires first { AreFirstWords terms.now input.now words.old.items }
    ensures first { OnOk result (AreFirstWords terms.now input.now words.new.items) }
    ensures value { IfOk result (λ number. number ≡ number_of terms.now id input.now) }
{
    evaluate_to(words, terms, input, id)?;
    Ok(words[id].number())
}

/// Whether an assignment meets a condition.
pub(crate) fn are_met(
    words: &mut Vec<Word>,
    terms: &Dag,
    condition: &[usize],
    input: &[u8],
) -> Result<bool, NoMemory>
    requires each_input { length input.now ≡ terms.now.inputs }
    requires bits { AreBits terms.now condition.now }
    requires first { AreFirstWords terms.now input.now words.old.items }
    ensures first { OnOk result (AreFirstWords terms.now input.now words.new.items) }
    ensures met { IfOk result (λ yes. yes
        ≡ holds (record { graph = terms.now; asserted = condition.now }) input.now) }
{
    for id in condition {
        if number_on(words, terms, input, *id)? != 1 {
            return Ok(false);
        }
    }
    Ok(true)
}
