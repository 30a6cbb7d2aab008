//! The program `fma`: the fault manager over the files of its folder.
//!
//! `main` hands in what the top call works on, with the words of the command line, and ends with
//! the status that the top call gives. It has no answer of its own but 9, want of memory. What
//! can't be opened is an object of which every call fails, and words that are no text are no words,
//! so that the top call tells it. The moment of the call is the clock's.
//!
//! Files, in the folder that the program runs in: the rule files `dx0.esc`, `dx1.esc` and so on up
//! to the first that is missing, at most eight; the topology `topology.txt`, empty where missing;
//! the disks `conf`, `err_a`, `err_b`, `slot_a`, `slot_b` and `flt` in the folder `store`; and for
//! each kind of actuator its list `retired.KIND`, of one path a line. Each is opened at the first
//! call, and a disk is made then where it is missing, so a command that works on no disk leaves the
//! folder as it was.
//!
//! On standard error stands, where the words are no command, what the commands are, and where an
//! object failed, one line that names it and the system's reason; else nothing.
#![tactic(auto)]

mod clock;
mod ending;
mod opened;
mod usage;

use crate::clock::moment_now;
use crate::ending::exit_of;
use crate::opened::Objects;
use crate::usage::usage_text;
use fm_bytes::Text;
use fm_files::{Retired, RetiredNote, Streams, Trouble};
use fm_text::ArgText;
use fm_top::{Actuator, ToolStatus, tool};
use std::alloc::AllocError;
use std::env;
use std::io::{ErrorKind, Write};
use std::process::ExitCode;

/// The kinds of resource that there is an actuator for.
const KINDS: [&str; 5] = ["cpu", "dimm", "disk", "fan", "psu"];

/// The lists of the actuators, in the same order.
const LISTS: [&str; 5] = [
    "retired.cpu",
    "retired.dimm",
    "retired.disk",
    "retired.fan",
    "retired.psu",
];

/// The words of the command line, without the program's own name; none where one of them is no
/// UTF-8.
fn command_line(rt: &HostRuntime) -> Result<Vec<ArgText>, AllocError> {
    let mut words = Vec::new(rt.alloc());
    let args = match env::args(rt) {
        Ok(args) => args,
        Err(fault) => {
            return match fault.kind() {
                ErrorKind::OutOfMemory => Err(AllocError),
                _ => Ok(words),
            };
        }
    };
    for word in args.skip(1) {
        words.push(ArgText::new(rt.alloc(), word.as_str()).map_err(|_| AllocError)?)?;
    }
    Ok(words)
}

/// An empty note for each actuator.
fn notes(rt: &HostRuntime) -> Result<Vec<RetiredNote>, AllocError> {
    let mut notes = Vec::new(rt.alloc());
    for _ in KINDS {
        notes.push(RetiredNote::new(rt.alloc())?)?;
    }
    Ok(notes)
}

/// Why the first of the actuators that failed did.
fn act_trouble(notes: &[RetiredNote]) -> Option<Trouble> {
    for (note, name) in notes.iter().zip(LISTS) {
        if let Some(fault) = note.fault() {
            return Some(Trouble { name, fault });
        }
    }
    None
}

/// What stands on standard error after a call that ended so.
fn remark(
    rt: &HostRuntime,
    status: ToolStatus,
    objects: &Objects,
    notes: &[RetiredNote],
) -> Result<String, AllocError> {
    let trouble = match status {
        ToolStatus::Usage => return usage_text(rt.alloc()),
        ToolStatus::ActFault => act_trouble(notes),
        _ => objects.trouble(status),
    };
    match trouble {
        Some(trouble) => trouble.line(rt.alloc()),
        None => Ok(String::new(rt.alloc())),
    }
}

/// Says on standard error why a call ended so.
fn tell(rt: &HostRuntime, status: ToolStatus, objects: &Objects, notes: &[RetiredNote]) {
    if let Ok(text) = remark(rt, status, objects, notes) {
        let _ = rt.stderr().write_all(text.as_bytes());
    }
}

/// Makes the objects, makes the top call with them, and tells why it ended so.
fn run(rt: &HostRuntime) -> Result<ToolStatus, AllocError> {
    let streams = Streams::hold(rt);
    let words = command_line(rt)?;
    let notes = notes(rt)?;
    let mut acts: Vec<Box<dyn Actuator + Send>> = Vec::new(rt.alloc());
    for (kind, note) in KINDS.into_iter().zip(&notes) {
        let kind = Text::new(rt.alloc(), kind).map_err(|_| AllocError)?;
        let act = Retired::new(rt.clone()?, kind, note.share()?);
        acts.push(Box::new(rt.alloc(), act)?)?;
    }
    let Objects {
        mut input,
        mut rules,
        mut topology,
        mut out,
        mut disks,
    } = Objects::new(rt, streams.as_ref().err().copied())?;
    let status = tool(
        rt.alloc(),
        &words,
        &mut input,
        &mut rules,
        &mut topology,
        &mut out,
        &mut disks,
        &mut acts,
        moment_now(rt),
    );
    let objects = Objects {
        input,
        rules,
        topology,
        out,
        disks,
    };
    tell(rt, status, &objects, &notes);
    Ok(status)
}

fn main(rt: HostRuntime) -> ExitCode {
    match run(&rt) {
        Ok(status) => exit_of(status),
        Err(_) => exit_of(ToolStatus::NoMemory),
    }
}
