//! The program `bench_core`: one operation of a library on an input of a given size, for the
//! scripts in bench/.
//!
//! Its words are `nv COUNT`: a spelled name-value list of so many pairs is made, read and written
//! again; `core COUNT`: a core of two counters takes so many reports, all in memory, and both
//! are worked to the end; or `fill COUNT`: it takes them, and neither is worked. It ends with
//! status 0 where what was written is what was read, or each report was taken, with 1 where not,
//! and with 2 where the words are others.
#![tactic(auto)]

mod cores;
mod lists;

use std::alloc::AllocError;
use std::env;
use std::process::ExitCode;

/// Where the words are none of the program's.
const USAGE: u8 = 2;

/// Does what the words say: whether it went well, none where they say nothing.
fn run(rt: &HostRuntime) -> Result<Option<bool>, AllocError> {
    let mut words = env::args(rt).map_err(|_| AllocError)?.skip(1);
    let (Some(operation), Some(size)) = (words.next(), words.next()) else {
        return Ok(None);
    };
    let size = size.as_str();
    match (operation.as_str(), size.parse::<u16>(), size.parse::<u32>()) {
        ("nv", Ok(count), _) => Ok(Some(lists::read_and_write(rt.alloc(), count)?)),
        ("core", _, Ok(count)) => Ok(Some(cores::accept_and_drain(rt.alloc(), count)?)),
        ("fill", _, Ok(count)) => Ok(Some(cores::accept_only(rt.alloc(), count)?)),
        _ => Ok(None),
    }
}

fn main(rt: HostRuntime) -> ExitCode {
    match run(&rt) {
        Ok(Some(true)) => ExitCode::SUCCESS,
        Ok(Some(false)) | Err(_) => ExitCode::FAILURE,
        Ok(None) => ExitCode::from(USAGE),
    }
}
