//! The program `bench_store`: a store over disks in memory with a given number of entries past its
//! base, or a journal in a file, for the script bench/store.
//!
//! Its words are a step and the number: `open` opens the store with two modules that count reports;
//! `drain` also lets both take all entries; `checkpoint` then moves the base, and `rotate` begins
//! another error journal; `journal` opens the file `journal`, which has so many payloads. It ends
//! with status 0 where the store, or the journal, then tells what it should, with 1 where not, and
//! with 2 where the words are others.
#![tactic(auto)]

mod files;
mod journals;
mod stores;

use std::alloc::{AllocError, Global};
use std::env;
use std::process::ExitCode;
use test_small_store::{Told, opened};

/// Where the words are none of the program's.
const USAGE: u8 = 2;

/// What a store of so many entries tells after the step, and what it should; none where the word is
/// no step.
fn told_after(
    alloc: Global,
    step: &str,
    count: u32,
) -> Result<Option<(Option<Told>, Told)>, AllocError> {
    let said = if step == "open" { 0 } else { count };
    let disks = stores::disks(alloc, count, said)?;
    let end = u64::from(count);
    Ok(match step {
        "open" => Some((stores::told(opened(alloc, disks)), (0, end, 0, 0))),
        "drain" => Some((
            stores::told(stores::drain(alloc, disks)),
            (0, end, end, end),
        )),
        "checkpoint" => Some((
            stores::told(stores::checkpoint(alloc, disks)),
            (end, end, end, end),
        )),
        "rotate" => Some((
            stores::told(stores::rotate(alloc, disks)),
            (end, end, end, end),
        )),
        _ => None,
    })
}

/// Does what the words say: whether it went well, none where they say nothing.
fn run(rt: &HostRuntime) -> Result<Option<bool>, AllocError> {
    let mut words = env::args(rt).map_err(|_| AllocError)?.skip(1);
    let (Some(step), Some(size)) = (words.next(), words.next()) else {
        return Ok(None);
    };
    let Ok(count) = size.as_str().parse::<u32>() else {
        return Ok(None);
    };
    if step.as_str() == "journal" {
        return Ok(Some(files::is_opened(rt, count)));
    }
    match told_after(rt.alloc(), step.as_str(), count)? {
        Some((found, wanted)) => Ok(Some(found == Some(wanted))),
        None => Ok(None),
    }
}

fn main(rt: HostRuntime) -> ExitCode {
    match run(&rt) {
        Ok(Some(true)) => ExitCode::SUCCESS,
        Ok(Some(false)) | Err(_) => ExitCode::FAILURE,
        Ok(None) => ExitCode::from(USAGE),
    }
}
