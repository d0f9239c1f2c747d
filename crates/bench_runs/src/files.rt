//! The files that are read.

use anyhow::{Result, bail};
use byte_list::Bytes;
use leaf_reader::read_leaf;
use smt_text::LeafText;
use std::rt;
use tool_io::{Files, HostFiles};

// The most bytes of a file that are read.
const MOST_BYTES: usize = 16_777_217;

/// What stands in a file.
pub fn read_file<R: rt::Files + Print + AllocGlobal>(rt: &R, file: &str) -> Result<Bytes> {
    match HostFiles::new(rt, rt.alloc()).read(file, MOST_BYTES) {
        Ok(bytes) => Ok(bytes),
        Err(_) => bail!("{file} can't be read"),
    }
}

/// The leaf whose text stands in a file. Its condition is the question.
pub fn read_question<R: rt::Files + Print + AllocGlobal>(rt: &R, file: &str) -> Result<LeafText> {
    let bytes = read_file(rt, file)?;
    match read_leaf(rt.alloc(), bytes.as_slice())? {
        Ok(leaf) => Ok(leaf),
        Err(refused) => bail!("{file} is no leaf's text from line {} on", refused.line),
    }
}

/// The name of a question: that of its file, without folders and `.smt2`.
pub fn name_of(file: &str) -> &str {
    let name = match file.rsplit_once('/') {
        Some((_, name)) => name,
        None => file,
    };
    name.strip_suffix(".smt2").unwrap_or(name)
}
