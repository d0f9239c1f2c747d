//! The leaf of a run that is left where it is, over only the terms that it stands on.

ghost use Rattle.std.specs.Prelude.{◌≡◌, ◌<◌, ◌≤◌, All, IfOk, OnOk, drop, length, option_map, take};
ghost use Rattle.fork_spec.specs.Leaves.{AreBytes, IsFull};
ghost use Rattle.sym_state.specs.Moves.{IsGrown};
ghost use Rattle.leaf_part.specs.Evidences.{evidence_of};
ghost use Rattle.run_leaves.specs.Copies.{AreCopies};
ghost use Rattle.run_leaves.specs.Leaving.{AreTermsOfBytes, HasTerms, IsPicked, left_as};

use bv_dag::Query;
use byte_list::Bytes;
use fork_spec::LeafEnd;
use leaf_part::{Evidence, LeafPart};
use query_pick::pick_terms;
use std::alloc::{AllocError as NoMemory, Global};
use sym_state::{State, listed};

/// Terms of a run, in a graph of their own.
#[derive(Debug)]
pub struct LeafTerms {
    /// The run's condition.
    pub condition: Query,
    /// The bytes written, 8 bits each.
    pub outputs: Vec<usize>,
    /// What was asked for besides.
    pub more: Vec<usize>,
}

impl Drop for LeafTerms {
    fn drop(self) {
        let Self {
            condition: _condition,
            outputs: _outputs,
            more: _more,
        } = self;
    }
}

impl LeafTerms {
    // The condition and the bytes written.
    fn into_parts(self) -> (Query, Vec<usize>)
        ensures condition { result.0 ≡ self.condition }
        ensures outputs { result.1.items ≡ self.outputs.items }
    {
        let Self {
            condition,
            outputs,
            more: _more,
        } = self;
        (condition, outputs)
    }
}

// The terms of the bytes written.
fn output_terms(alloc: Global, state: &mut State) -> Result<Vec<usize>, NoMemory>
    ensures grown { OnOk result (IsGrown state.old state.new) }
    ensures terms { IfOk result (λ ids.
        AreTermsOfBytes state.old.terms state.old.output state.new.terms ids.items) }
{
    let bytes = listed(alloc, state.output())?;
    let mut ids = Vec::with_capacity(alloc, bytes.len())?;
    for byte in &bytes {
        ids.push(state.byte_term(*byte)?)?;
    }
    Ok(ids)
}

// The ids before a place, and those from it on.
fn split(alloc: Global, ids: &[usize], at: usize) -> Result<(Vec<usize>, Vec<usize>), NoMemory>
    requires { at ≤ length ids.now }
    ensures front { IfOk result (λ parts. parts.0.items ≡ take at ids.now) }
    ensures back { IfOk result (λ parts. parts.1.items ≡ drop at ids.now) }
{
    let (front, back) = ids.split_at(at);
    Ok((
        Vec::from_slice(alloc, front)?,
        Vec::from_slice(alloc, back)?,
    ))
}

// The terms of the condition and these, in a graph of their own.
fn picked(
    alloc: Global,
    state: &State,
    outputs: &[usize],
    more: &[usize],
) -> Result<LeafTerms, NoMemory>
    requires outputs { AreBytes state.now.terms outputs.now }
    requires more { All (λ id. id < length state.now.terms.nodes) more.now }
    ensures { IfOk result (IsPicked state.now outputs.now more.now) }
{
    let mut ids = listed(alloc, state.condition())?;
    let outputs_at = ids.len();
    ids.extend_from_slice(outputs)?;
    let more_at = ids.len();
    ids.extend_from_slice(more)?;
    let picked = pick_terms(alloc, state.terms(), &ids)?;
    let (front, more) = split(alloc, &picked.ids, more_at)?;
    let (condition, outputs) = split(alloc, &front, outputs_at)?;
    let condition = Query::new(picked.graph, condition);
    condition.is_whole();
    Ok(LeafTerms {
        condition,
        outputs,
        more,
    })
}

/// The terms that a leaf of the run has, with these besides.
pub(crate) fn leaf_terms(
    alloc: Global,
    state: &mut State,
    more: &[usize],
) -> Result<LeafTerms, NoMemory>
    requires { All (λ id. id < length state.old.terms.nodes) more.now }
    ensures grown { OnOk result (IsGrown state.old state.new) }
    ensures terms { IfOk result (HasTerms state.old) }
    ensures more { IfOk result (λ t.
        AreCopies state.old.terms more.now t.condition.graph t.more.items) }
{
    let outputs = output_terms(alloc, state)?;
    picked(alloc, state, &outputs, more)
}

/// A copy of the sample of a run.
pub fn sample_of(alloc: Global, state: &State) -> Result<Bytes, NoMemory>
    ensures { IfOk result (λ sample. sample ≡ state.now.sample) }
{
    Ok(Bytes::from_slice(alloc, state.sample().as_slice())?)
}

/// The leaf of a run that is left where it is, with what shows it.
pub(crate) fn leaf_of(
    alloc: Global,
    state: &State,
    terms: LeafTerms,
    end: LeafEnd,
    sample: Option<Bytes>,
    evidence: Option<Evidence>,
) -> Result<LeafPart, NoMemory>
    requires full { IsFull (left_as state.now terms end) }
    ensures { IfOk result (λ part. part
        ≡ record {
          leaf = left_as state.now terms end;
          sample = sample;
          evidence = option_map evidence_of evidence;
        }) }
{
    let choices = listed(alloc, state.choices())?;
    let path = listed(alloc, state.path())?;
    let (condition, outputs) = terms.into_parts();
    LeafPart::new(
        alloc,
        choices,
        path,
        state.steps(),
        end,
        condition,
        outputs,
        sample,
        evidence,
    )
}
