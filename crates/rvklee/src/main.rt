//! The tool over real files and standard output.
#![tactic(auto)]

use std::io::ErrorKind;
use std::process::ExitCode;
use std::rt::Env;
use std::{env, io};
use tool_io::HostFiles;
use tool_top::run_tool;
use work_gate::OpenGate;

// The status where the words found no memory.
const NO_MEMORY: u8 = 8;

// The words of the command line. Words of which one is no text count as no words.
fn gather<R: Env + AllocGlobal>(rt: &R) -> io::Result<Vec<String>> {
    let mut words = Vec::new(rt.alloc());
    match env::args(rt) {
        Ok(args) => {
            for word in args {
                words.push(word)?;
            }
        }
        Err(e) if e.kind() == ErrorKind::OutOfMemory => return Err(e),
        Err(_) => {}
    }
    Ok(words)
}

fn main(rt: HostRuntime) -> ExitCode {
    match gather(&rt) {
        Ok(words) => {
            let mut files = HostFiles::new(&rt, rt.alloc());
            let status = run_tool(&rt, rt.alloc(), words.as_slice(), &mut files, &OpenGate);
            ExitCode::from(status)
        }
        Err(_) => ExitCode::from(NO_MEMORY),
    }
}
