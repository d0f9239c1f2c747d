//! Real files.

use crate::of_tool_top::runs::{check, holds, remove};
use std::process::Abort;
use tool_io::{Fault, Files, HostFiles};

fn put_and_read<F: Files>(rt: &impl Abort, files: &mut F) -> Result<(), Fault> {
    files.put("a.txt", b"hello")?;
    check(
        rt,
        holds(files, "a.txt", 100, "hello")?,
        0,
        "the whole file",
    );
    check(rt, holds(files, "a.txt", 2, "he")?, 0, "a part of it");
    check(
        rt,
        files.read("b.txt", 2).is_err(),
        0,
        "a file that isn't there",
    );
    Ok(())
}

// A real file is put, and read back whole and in part.
#[test]
fn a_real_file_is_put_and_read(rt: HostRuntime) -> Result<(), Fault> {
    let mut files = HostFiles::new(&rt, rt.alloc());
    put_and_read(&rt, &mut files)?;
    remove(&rt, &["a.txt"]);
    Ok(())
}
