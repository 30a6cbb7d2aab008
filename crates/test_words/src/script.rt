// A script, gone through from its first line to its last.
use crate::fault::ScriptFault;
use crate::words::first_word;
use std::alloc::Global;
use std::io;
use std::io::{ErrorKind, Write};
use std::process::ExitCode;

/// What stays from line to line of a script, and what its lines do.
pub trait Script {
    /// Does what a line says of those behind it, where it is such a line.
    fn set(&mut self, _alloc: Global, _word: &str, _rest: &str) -> Result<bool, ScriptFault> {
        Ok(false)
    }

    /// Appends the answer of a line.
    fn answer(&mut self, rt: &HostRuntime, line: &str, out: &mut String) -> Result<(), ScriptFault>;
}

/// Writes a line that has an answer, and the answer.
fn turn<S: Script>(
    rt: &HostRuntime,
    script: &mut S,
    line: &str,
    out: &mut String,
) -> Result<(), ScriptFault> {
    out.push_str(line)?;
    out.push_str(": ")?;
    match script.answer(rt, line, out) {
        Ok(()) => {}
        Err(ScriptFault::Words) => out.push_str("no command")?,
        Err(ScriptFault::NoSpelling) => out.push_str("no")?,
        Err(ScriptFault::NoMemory) => return Err(ScriptFault::NoMemory),
    }
    out.push_str("\n")?;
    Ok(())
}

/// Writes the title of a section.
fn put_title(line: &str, out: &mut String) -> Result<(), ScriptFault> {
    out.push_str("\n")?;
    out.push_str(line)?;
    out.push_str("\n")?;
    Ok(())
}

/// Goes through the lines.
fn turns<S: Script>(
    rt: &HostRuntime,
    script: &mut S,
    text: &str,
    out: &mut String,
) -> Result<(), ScriptFault> {
    for line in text.lines() {
        let (word, rest) = first_word(line);
        if line.is_empty() || line.starts_with('#') || script.set(rt.alloc(), word, rest)? {
            continue;
        }
        if line.starts_with("==") {
            put_title(line, out)?;
        } else {
            turn(rt, script, line, out)?;
        }
    }
    Ok(())
}

/// Goes through the script that the standard input is, and writes what it comes to.
fn put_all<S: Script>(rt: &HostRuntime, script: &mut S) -> io::Result<()> {
    let text = io::read_to_string(rt.alloc(), rt.stdin())?;
    let mut out = String::new(rt.alloc());
    match turns(rt, script, text.as_str(), &mut out) {
        Ok(()) => rt.stdout().write_all(out.as_bytes()),
        Err(_) => Err(io::Error::from(ErrorKind::OutOfMemory)),
    }
}

/// Goes through the script that the standard input is, and writes what it comes to, to the standard
/// output; the exit status of a program that does nothing else.
pub fn run_script<S: Script>(rt: &HostRuntime, script: &mut S) -> ExitCode {
    match put_all(rt, script) {
        Ok(()) => ExitCode::SUCCESS,
        Err(_) => ExitCode::FAILURE,
    }
}
