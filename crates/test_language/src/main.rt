//! The program `test_language`: the rule language and what rules come to over some parts, by a
//! script.
//!
//! Its input is the script, a line a command; it prints each of these lines, and below it what came
//! of it. The title of a section begins with `==`; an empty line and one that begins with `#` says
//! nothing (README.md lists the commands). Most commands read one text and tell what it comes to.
//! `pairs` compares what rules come to with all pairs tried one by one.
#![tactic(auto)]

mod arrows;
mod checked_files;
mod checks;
mod commands;
mod compiled;
mod conditions;
mod explained;
mod guards;
mod instances;
mod listed;
mod orders;
mod pairs;
mod parts;
mod printed;
mod settings;
mod sources;
mod texts;
mod tokens;
mod topologies;
mod trees;
mod words;

use crate::commands::answer;
use crate::settings::Settings;
use std::io;
use test_words::ScriptFault;

/// Want of memory, as `main` answers it.
fn out_of_memory() -> io::Error {
    io::Error::from(io::ErrorKind::OutOfMemory)
}

fn main(rt: HostRuntime) -> io::Result<()> {
    let script = io::read_to_string(rt.alloc(), rt.stdin())?;
    let mut settings = Settings::new(rt.alloc());
    for line in script.as_str().lines() {
        if line.is_empty() || line.starts_with('#') {
            continue;
        }
        if line.starts_with("==") {
            println!(rt; "\n{line}")?;
            continue;
        }
        match answer(rt.alloc(), &mut settings, line) {
            Ok(Some(answer)) => println!(rt; "{line}\n  {answer}")?,
            Ok(None) => println!(rt; "{line}")?,
            Err(ScriptFault::NoMemory) => return Err(out_of_memory()),
            Err(_) => println!(rt; "{line}\n  no command")?,
        }
    }
    Ok(())
}
