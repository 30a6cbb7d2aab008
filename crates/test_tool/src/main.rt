//! The program `test_tool`: a script of calls of the top call over objects in memory, from standard
//! input, and what they come to, to standard output.
#![tactic(auto)]

mod acts;
mod blocks;
mod disks;
mod machine;
mod noting;
mod runs;
mod script;
mod settings;
mod shown;
mod steps;
mod sweeps;
mod texts;
mod undone;

use crate::script::written_of;
use std::io;
use std::io::{ErrorKind, Read, Write};
use std::process::ExitCode;

/// Goes through the script.
fn run_script(rt: &HostRuntime) -> io::Result<()> {
    let mut bytes = Vec::new(rt.alloc());
    rt.stdin().read_to_end(&mut bytes)?;
    let Ok(text) = str::from_utf8(&bytes) else {
        return Err(io::Error::from(ErrorKind::InvalidData));
    };
    let Ok(written) = written_of(rt.alloc(), text) else {
        return Err(io::Error::from(ErrorKind::OutOfMemory));
    };
    rt.stdout().write_all(written.as_bytes())
}

fn main(rt: HostRuntime) -> ExitCode {
    match run_script(&rt) {
        Ok(()) => ExitCode::SUCCESS,
        Err(_) => ExitCode::FAILURE,
    }
}
