// Commands that try steps while calls of a disk fail, and alterations of a disk.
use crate::alterations::try_alterations;
use crate::failures::try_failures;
use crate::fault::ScriptFault;
use crate::runs::{Ran, calls_of_opening, run};
use crate::stops::{StopCounts, Trial, left_at, try_stops, try_stops_twice};
use crate::store_bytes::{FailingCalls, StoreBytes};
use crate::told::ran_text;
use fm_logs::DiskName;
use fm_outer::{Image, NoMemory};
use std::alloc::{AllocError, Global};

/// What is left where the disk stops at a call, counted behind those of the opening.
pub fn left_behind_opening(
    alloc: Global,
    trial: Trial<'_>,
    call: u64,
    image: Image,
) -> Result<Ran, NoMemory> {
    let opening = calls_of_opening(alloc, trial.bytes, trial.disk)?;
    left_at(alloc, trial, opening.saturating_add(call), image)
}

/// What the steps answer where one call of the disk fails, counted behind those of the opening.
pub fn fail(alloc: Global, trial: Trial<'_>, call: u64) -> Result<String, ScriptFault> {
    let opening = calls_of_opening(alloc, trial.bytes, trial.disk)?;
    let failing = FailingCalls::One {
        disk: trial.disk,
        call: opening.saturating_add(call),
    };
    let ran = run(alloc, trial.bytes, failing, trial.steps, None)?;
    Ok(ran_text(alloc, trial.bytes, &ran)?)
}

/// What was wrong, of so many cases.
fn counts_text(alloc: Global, counts: &StopCounts) -> Result<String, AllocError> {
    let cases = counts.cases();
    let (answered, one_more) = (counts.answered, counts.one_more);
    match counts.first_wrong {
        None => {
            format!(in alloc;
                "{cases} cases: {answered} as answered, {one_more} with one more, 0 wrong"
            )
        }
        Some((call, image)) => {
            let wrong = counts.wrong;
            format!(in alloc; "{cases} cases: {wrong} wrong, first at {call} {image:?}")
        }
    }
}

/// Tries a stop at each call of the disk.
pub fn stops(alloc: Global, trial: Trial<'_>) -> Result<String, ScriptFault> {
    let counts = try_stops(alloc, trial)?;
    Ok(counts_text(alloc, &counts)?)
}

/// Tries a stop of a checkpoint at each call of a second disk, behind one of the first.
pub fn stops_twice(alloc: Global, trial: Trial<'_>, disk: DiskName) -> Result<String, ScriptFault> {
    let counts = try_stops_twice(alloc, trial, disk)?;
    Ok(counts_text(alloc, &counts)?)
}

/// Tries a failure of each call of the disk.
pub fn failures(alloc: Global, trial: Trial<'_>) -> Result<String, ScriptFault> {
    let counts = try_failures(alloc, trial)?;
    let (unopened, closed) = (counts.unopened, counts.closed);
    match counts.first_wrong {
        None => Ok(format!(in alloc; "{unopened} not opened, {closed} closed, 0 wrong")?),
        Some(call) => {
            let wrong = counts.wrong;
            Ok(format!(in alloc; "{wrong} wrong, first at {call}")?)
        }
    }
}

/// Tries each alteration of the disk.
pub fn alterations(
    alloc: Global,
    bytes: &StoreBytes,
    disk: DiskName,
) -> Result<String, ScriptFault> {
    let counts = try_alterations(alloc, bytes, disk)?;
    let (cases, wrong) = (counts.cases, counts.wrong);
    match counts.first_wrong {
        None => Ok(format!(in alloc; "{cases} cases, 0 wrong")?),
        Some(at) => Ok(format!(in alloc; "{cases} cases, {wrong} wrong, first at {at}")?),
    }
}
