//! The program `test_graph`: graphs, stories, explanations, live sets and cases over small graphs,
//! by a script.
//!
//! Its input is the script, a line a command; it prints each of these lines, and below it what came
//! of it. The title of a section begins with `==`; an empty line and one that begins with `#` says
//! nothing (README.md lists the commands). A graph is written as its nodes and its instances, a
//! line each. The commands `drawn_..` go over graphs that are drawn from a number, and compare what
//! is found with a search over all sets of their nodes.
#![tactic(auto)]

mod answers;
mod case_steps;
mod case_texts;
mod cases;
mod commands;
mod drawn;
mod drawn_cases;
mod drawn_lives;
mod explained;
mod graphs;
mod lines;
mod live_sets;
mod plain;
mod stories;
mod words;

use crate::commands::answer;
use crate::graphs::GraphLines;
use std::io;
use test_words::ScriptFault;

/// Want of memory, as `main` answers it.
fn out_of_memory() -> io::Error {
    io::Error::from(io::ErrorKind::OutOfMemory)
}

fn main(rt: HostRuntime) -> io::Result<()> {
    let script = io::read_to_string(rt.alloc(), rt.stdin())?;
    let mut graph = GraphLines::new(rt.alloc());
    for line in script.as_str().lines() {
        if line.is_empty() || line.starts_with('#') {
            continue;
        }
        if line.starts_with("==") {
            println!(rt; "\n{line}")?;
            continue;
        }
        match answer(rt.alloc(), &mut graph, line) {
            Ok(Some(answer)) => println!(rt; "{line}\n  {answer}")?,
            Ok(None) => println!(rt; "{line}")?,
            Err(ScriptFault::NoMemory) => return Err(out_of_memory()),
            Err(_) => println!(rt; "{line}\n  no command")?,
        }
    }
    Ok(())
}
