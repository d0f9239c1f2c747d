//! A test.

use byte_list::Bytes;
use elf_load::Regions;
use rv_decode::{End, PathStep};
use std::marker::Model;

/// An assignment of the input bytes, and what the run of it does.
#[derive(Debug)]
pub struct Test {
    /// The rank of its leaf.
    pub leaf: usize,
    pub regions: Regions,
    /// One byte for each place of the regions.
    pub input: Bytes,
    pub steps: u32,
    /// What each conditional branch and each JALR of the run does.
    pub path: Vec<PathStep>,
    /// How the run ends; none where it is still running after these steps.
    pub end: Option<End>,
    /// What the run writes.
    pub output: Bytes,
}

impl Drop for Test {
    fn drop(self) {
        let Self {
            leaf: _leaf,
            regions: _regions,
            input: _input,
            steps: _steps,
            path: _path,
            end: _end,
            output: _output,
        } = self;
    }
}

impl Model for Test {
    ghost use Rattle.test_files.specs.Tests as spec;

    ghost Value = { spec.Test };

    ghost view = { λ t. record {
      leaf = t.leaf;
      regions = t.regions;
      input = t.input;
      steps = t.steps;
      path = t.path.items;
      end = t.end;
      output = t.output;
    } };
}
