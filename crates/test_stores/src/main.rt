//! The program `test_stores`: stores over disks in memory, worked on by a script.
//!
//! Its input is the script, a command a line; it prints each command, and behind it what came of
//! it. The title of a section begins with `==` and is printed; an empty line and one that begins
//! with `#` says nothing. The commands work on the bytes of six disks, which are those of one store
//! at a time (README.md lists them). Some try a stop or a failure at each call of a disk, or each
//! byte of one, and print how many cases there were, and how many were not as they should be:
//! `fold` has what reports come to, and `reading` what an opening finds, each worked out from the
//! formats alone.
#![tactic(auto)]

mod alterations;
mod bases;
mod bytes;
mod calls;
mod commands;
mod configurations;
mod entries;
mod failures;
mod fault;
mod fold;
mod gates;
mod grammar;
mod left;
mod made;
mod modules;
mod numbers;
mod openings;
mod reading;
mod records;
mod runs;
mod steps;
mod stops;
mod store_bytes;
mod told;
mod trials;

use crate::commands::answer;
use crate::fault::ScriptFault;
use crate::store_bytes::StoreBytes;
use std::io;

/// Want of memory, as `main` answers it.
fn out_of_memory() -> io::Error {
    io::Error::from(io::ErrorKind::OutOfMemory)
}

fn main(rt: HostRuntime) -> io::Result<()> {
    let script = io::read_to_string(rt.alloc(), rt.stdin())?;
    let mut store = StoreBytes::empty(rt.alloc()).map_err(|_| out_of_memory())?;
    for line in script.as_str().lines() {
        if line.is_empty() || line.starts_with('#') {
            continue;
        }
        if line.starts_with("==") {
            println!(rt; "\n{line}")?;
            continue;
        }
        match answer(rt.alloc(), &mut store, line) {
            Ok(answer) => println!(rt; "{line}: {answer}")?,
            Err(ScriptFault::Words) => println!(rt; "{line}: no command")?,
            Err(ScriptFault::NoMemory) => return Err(out_of_memory()),
        }
    }
    Ok(())
}
