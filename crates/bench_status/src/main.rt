//! The program `bench_status`: one operation of a library on an input of a given size, for the
//! scripts in bench/.
//!
//! Its words are `status COUNT`: two words of each of so many cases are taken, then the rows and
//! the wanted paths; `reconcile COUNT`: an actuator that holds so many paths is brought to hold as
//! many, half of them others; `held COUNT`: what that needs is made; `memory COUNT`: the same as
//! `reconcile` of an actuator in memory; `entries COUNT`: so many entries are made; or
//! `errors COUNT`: so many entries are made, and their lines are put to standard output. It ends
//! with status 0 where that went well, with 1 where not, and with 2 where the words are others.
#![tactic(auto)]

mod actuators;
mod cases;
mod lines;
mod made;
mod marked;

use std::alloc::AllocError;
use std::env;
use std::process::ExitCode;

/// Where the words are none of the program's.
const USAGE: u8 = 2;

/// Does what the words say: whether it went well, none where they say nothing.
fn run(rt: &HostRuntime) -> Result<Option<bool>, AllocError> {
    let mut words = env::args(rt).map_err(|_| AllocError)?.skip(1);
    let (Some(operation), Some(size)) = (words.next(), words.next()) else {
        return Ok(None);
    };
    let Ok(count) = size.as_str().parse::<u32>() else {
        return Ok(None);
    };
    match operation.as_str() {
        "status" => Ok(Some(cases::take_words(rt.alloc(), count)?)),
        "held" => Ok(Some(actuators::make(rt.alloc(), count)?)),
        "reconcile" => Ok(Some(actuators::bring_marked(rt.alloc(), count)?)),
        "memory" => Ok(Some(actuators::bring_in_memory(rt.alloc(), count)?)),
        "entries" => Ok(Some(lines::make(rt.alloc(), count)?)),
        "errors" => Ok(Some(lines::put(rt, count)?)),
        _ => Ok(None),
    }
}

fn main(rt: HostRuntime) -> ExitCode {
    match run(&rt) {
        Ok(Some(true)) => ExitCode::SUCCESS,
        Ok(Some(false)) | Err(_) => ExitCode::FAILURE,
        Ok(None) => ExitCode::from(USAGE),
    }
}
