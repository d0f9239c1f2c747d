//! A leaf, with what shows it.

ghost use Rattle.std.specs.Prelude.{◌≡◌, IfOk, option_map};
ghost use Rattle.fork_spec.specs.Leaves.{IsFull};
ghost use Rattle.leaf_part.specs.Evidences.{evidence_of};

use crate::evidence::Evidence;
use bv_dag::Query;
use byte_list::Bytes;
use fork_spec::{LeafEnd, Placed};
use rv_decode::PathStep;
use std::alloc::{AllocError as NoMemory, Global};
use std::marker::Model;
use tree_core::{Cause, Choice};

/// What a leaf part is made of. It stands in a place of its own: a tree moves leaf parts into its nodes and events while no other
/// worker can go on, and moves a reference then.
#[derive(Debug)]
struct PartFields {
    choices: Vec<Choice>,
    path: Vec<PathStep>,
    steps: u32,
    end: LeafEnd,
    condition: Query,
    outputs: Vec<usize>,
    sample: Option<Bytes>,
    evidence: Option<Evidence>,
}

impl Drop for PartFields {
    fn drop(self) {
        let Self {
            choices: _choices,
            path: _path,
            steps: _steps,
            end: _end,
            condition: _condition,
            outputs: _outputs,
            sample: _sample,
            evidence: _evidence,
        } = self;
    }
}

/// A leaf in full: its terms fit, its status and its outputs are bytes, and its numbers are below 2^32. With it an assignment
/// that it covers, and what shows the budget that was spent on it.
#[derive(Debug, Drop)]
pub struct LeafPart {
    fields: Box<PartFields>,
}

impl Model for LeafPart {
    ghost use Rattle.std.specs.Prelude.{option_map};
    ghost use Rattle.fork_spec.specs.Leaves.{IsFull};
    ghost use Rattle.fork_spec.specs.Parts.{Part};
    ghost use Rattle.leaf_part.specs.Evidences.{evidence_of};

    ghost Value = { Part };

    ghost view = { λ l. record {
      leaf = record {
        choices = l.fields.value.choices.items;
        path = l.fields.value.path.items;
        steps = l.fields.value.steps;
        end = l.fields.value.end;
        condition = l.fields.value.condition;
        outputs = l.fields.value.outputs.items;
      };
      sample = l.fields.value.sample;
      evidence = option_map evidence_of l.fields.value.evidence;
    } };

    ghost invariant = { λ l. IsFull (record {
      choices = l.fields.value.choices.items;
      path = l.fields.value.path.items;
      steps = l.fields.value.steps;
      end = l.fields.value.end;
      condition = l.fields.value.condition;
      outputs = l.fields.value.outputs.items;
    }) };
}

impl Placed for LeafPart {
    ghost use Rattle.fork_spec.specs.Partings.{place_of};

    ghost place = { λ part. place_of part.leaf };

    fn cut(&self) -> Option<Cause> {
        match self.fields.end {
            LeafEnd::Cut(cause) => Some(cause),
            LeafEnd::Exits { .. } | LeafEnd::Traps(_) => None,
        }
    }
}

impl LeafPart {
    /// The leaf of these, which are a leaf in full.
    pub fn new(
        alloc: Global,
        choices: Vec<Choice>,
        path: Vec<PathStep>,
        steps: u32,
        end: LeafEnd,
        condition: Query,
        outputs: Vec<usize>,
        sample: Option<Bytes>,
        evidence: Option<Evidence>,
    ) -> Result<LeafPart, NoMemory>
        requires { IsFull (record {
          choices = choices.items;
          path = path.items;
          steps = steps;
          end = end;
          condition = condition;
          outputs = outputs.items;
        }) }
        ensures { IfOk result (λ part. part ≡ record {
          leaf = record {
            choices = choices.items;
            path = path.items;
            steps = steps;
            end = end;
            condition = condition;
            outputs = outputs.items;
          };
          sample = sample;
          evidence = option_map evidence_of evidence;
        }) }
    {
        let fields = PartFields {
            choices,
            path,
            steps,
            end,
            condition,
            outputs,
            sample,
            evidence,
        };
        Ok(LeafPart {
            fields: Box::new(alloc, fields)?,
        })
    }

    /// The sides taken at the forks above it, from the root on.
    pub fn choices(&self) -> &[Choice]
        ensures value { result.now ≡ self.now.leaf.choices }
        ensures full { IsFull self.now.leaf }
    {
        &self.fields.choices
    }

    /// What each conditional branch and each JALR of its runs does.
    pub fn path(&self) -> &[PathStep]
        ensures value { result.now ≡ self.now.leaf.path }
        ensures full { IsFull self.now.leaf }
    {
        &self.fields.path
    }

    /// The steps of its runs, the ending one included.
    pub fn steps(&self) -> u32
        ensures { result ≡ self.now.leaf.steps }
    {
        self.fields.steps
    }

    /// How its runs end, or why they were cut.
    pub fn end(&self) -> LeafEnd
        ensures value { result ≡ self.now.leaf.end }
        ensures full { IsFull self.now.leaf }
    {
        self.fields.end
    }

    /// The condition that its assignments meet.
    pub fn condition(&self) -> &Query
        ensures value { result.now ≡ self.now.leaf.condition }
        ensures full { IsFull self.now.leaf }
    {
        &self.fields.condition
    }

    /// The terms of the bytes that its runs write.
    pub fn outputs(&self) -> &[usize]
        ensures value { result.now ≡ self.now.leaf.outputs }
        ensures full { IsFull self.now.leaf }
    {
        &self.fields.outputs
    }

    /// An assignment that it covers, one byte for each input, if one is known.
    pub fn sample(&self) -> Option<&Bytes>
        ensures { option_map (λ sample. sample.now) result ≡ self.now.sample }
    {
        self.fields.sample.as_ref()
    }

    /// What shows the budget that was spent, where steps alone don't.
    pub fn evidence(&self) -> Option<&Evidence>
        ensures { option_map (λ evidence. evidence_of evidence.now) result ≡ self.now.evidence }
    {
        self.fields.evidence.as_ref()
    }
}
