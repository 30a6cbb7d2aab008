// Runs of which one call of a disk fails.
use crate::left::reports_in;
use crate::runs::{Ran, calls_of_opening, run};
use crate::stops::{Trial, extent_of, is_error_journal};
use crate::store_bytes::FailingCalls;
use fm_logs::{DiskName, StoreFault};
use fm_outer::NoMemory;
use std::alloc::Global;

/// How many failures there were, by what came of them, and the first call at which it is not as it
/// should be.
#[derive(Clone, Copy, Drop)]
pub struct FailureCounts {
    /// The store was not opened.
    pub unopened: u64,
    /// The store was closed, with the disk and its one failure.
    pub closed: u64,
    pub wrong: u64,
    pub first_wrong: Option<u64>,
}

impl FailureCounts {
    fn count(&mut self, is_right: bool, is_open: bool, call: u64) {
        if !is_right {
            self.wrong = self.wrong.saturating_add(1);
            self.first_wrong = self.first_wrong.or(Some(call));
        } else if is_open {
            self.closed = self.closed.saturating_add(1);
        } else {
            self.unopened = self.unopened.saturating_add(1);
        }
    }
}

/// The run of which this call of the disk fails.
fn ran_with(alloc: Global, trial: Trial<'_>, call: u64) -> Result<Ran, NoMemory> {
    let failing = FailingCalls::One {
        disk: trial.disk,
        call,
    };
    run(alloc, trial.bytes, failing, trial.steps, None)
}

/// Whether a store has the reports that were answered; of an error journal also one more.
fn are_kept(disk: DiskName, answered: u64, reports: Option<u64>) -> bool {
    let one_more = answered.saturating_add(1);
    match reports {
        Some(reports) => reports == answered || is_error_journal(disk) && reports == one_more,
        None => false,
    }
}

/// Whether the run ends with this call, later calls answer so, and the store then has the reports
/// that were answered; of an error journal also one more.
fn is_right(
    alloc: Global,
    trial: Trial<'_>,
    before: u64,
    call: u64,
    closed: Option<(DiskName, u64)>,
) -> Result<bool, NoMemory> {
    let ran = ran_with(alloc, trial, call)?;
    let reports = reports_in(alloc, &ran.left)?;
    let answered = before.saturating_add(ran.answer.taken);
    let ended = ran.answer.fault == Some(StoreFault::Disk) && ran.answer.closed == closed;
    Ok(ended && are_kept(trial.disk, answered, reports))
}

/// Tries a failure of each call of the disk.
pub fn try_failures(alloc: Global, trial: Trial<'_>) -> Result<FailureCounts, NoMemory> {
    let mut counts = FailureCounts {
        unopened: 0,
        closed: 0,
        wrong: 0,
        first_wrong: None,
    };
    let Some((before, calls)) = extent_of(alloc, trial)? else {
        counts.count(false, false, 0);
        return Ok(counts);
    };
    let opening = calls_of_opening(alloc, trial.bytes, trial.disk)?;
    for call in 0..calls {
        let is_open = call >= opening;
        let closed = if is_open { Some((trial.disk, 1)) } else { None };
        let is_right = is_right(alloc, trial, before, call, closed)?;
        counts.count(is_right, is_open, call);
    }
    Ok(counts)
}
