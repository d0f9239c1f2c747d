//! The test that a sample of a leaf makes.

ghost use Rattle.std.specs.Prelude.{◌≡◌, All, IfOk, length, map};
ghost use Rattle.bv_dag.specs.Nodes.{vector_at};
ghost use Rattle.report_text.specs.Files.{test_of};
ghost use Rattle.report_text.specs.Samples.{IsByteEnd, sample_end};

use bv_dag::Word;
use byte_list::Bytes;
use elf_load::Regions;
use fork_spec::LeafEnd;
use leaf_part::LeafPart;
use rv_decode::End;
use std::alloc::{AllocError as NoMemory, Global};
use test_files::Test;

/// The byte that a term of eight bits is worth.
fn byte_at(words: &[Word], id: usize) -> u8
    requires { (vector_at words.now id).width ≡ 8 }
    ensures { result ≡ (vector_at words.now id).number }
{
    words[id].number() as u8
}

/// How a run of the leaf ends, where its terms are worth these words; none where it is cut.
fn end_among(words: &[Word], end: LeafEnd) -> Option<End>
    requires { IsByteEnd words.now end }
    ensures { result ≡ sample_end words.now end }
{
    match end {
        LeafEnd::Exits { status } => Some(End::Exit(byte_at(words, status))),
        LeafEnd::Traps(trap) => Some(End::Trapped(trap)),
        LeafEnd::Cut(_) => None,
    }
}

/// The bytes that these terms are worth.
fn bytes_at(alloc: Global, words: &[Word], ids: &[usize]) -> Result<Vec<u8>, NoMemory>
    requires { All (λ id. (vector_at words.now id).width ≡ 8) ids.now }
    ensures { IfOk result (λ bytes. bytes.items
        ≡ map (λ id. (vector_at words.now id).number) ids.now) }
{
    let mut bytes = Vec::with_capacity(alloc, ids.len())?;
    for id in ids {
        bytes.push(byte_at(words, *id))?;
    }
    Ok(bytes)
}

/// The test that a sample makes of the leaf of this rank: one byte of it for each input.
pub fn make_test(
    alloc: Global,
    regions: &Regions,
    rank: usize,
    part: &LeafPart,
    sample: &Bytes,
) -> Result<Test, NoMemory>
    requires { length sample.now ≡ part.now.leaf.condition.graph.inputs }
    ensures { IfOk result (λ test. test ≡ test_of regions.now rank part.now.leaf sample.now) }
{
    let words = part.condition().dag().words(alloc, sample.as_slice())?;
    Ok(Test {
        leaf: rank,
        regions: Regions::from_vec(Vec::from_slice(alloc, regions.as_slice())?),
        input: Bytes::from_slice(alloc, sample.as_slice())?,
        steps: part.steps(),
        path: Vec::from_slice(alloc, part.path())?,
        end: end_among(&words, part.end()),
        output: Bytes::from_vec(bytes_at(alloc, &words, part.outputs())?),
    })
}
