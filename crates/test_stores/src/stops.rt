// Runs that stop at a call of a disk, and what a crash then leaves.
use crate::left::reports_in;
use crate::openings::{OpeningAnswer, answer_of_two};
use crate::runs::{Ran, run};
use crate::steps::Step;
use crate::store_bytes::{FailingCalls, StoreBytes};
use fm_logs::{DiskName, StoreFault};
use fm_outer::{Image, NoMemory};
use std::alloc::Global;

/// What a crash may leave of the ranges that were written since the last sync.
const IMAGES: [Image; 5] = [
    Image::Old,
    Image::New,
    Image::Fill(0),
    Image::Fill(1),
    Image::Fill(255),
];

/// Steps over a store, during which a disk is to fail.
#[derive(Clone, Copy, Drop)]
pub struct Trial<'a> {
    pub bytes: &'a StoreBytes,
    pub disk: DiskName,
    pub steps: &'a [Step],
}

/// How many entries there were before the steps, and how many calls of the disk they make; `None`
/// where the store doesn't open twice alike, or the steps are not done.
pub fn extent_of(alloc: Global, trial: Trial<'_>) -> Result<Option<(u64, u64)>, NoMemory> {
    let OpeningAnswer::Tells((_, before, _, _)) = answer_of_two(alloc, trial.bytes)? else {
        return Ok(None);
    };
    let whole = run(alloc, trial.bytes, FailingCalls::None, trial.steps, None)?;
    if whole.answer.fault.is_some() {
        return Ok(None);
    }
    Ok(Some((before, whole.calls.of(trial.disk))))
}

/// Whether an append of an entry to the disk may have been cut short.
pub fn is_error_journal(disk: DiskName) -> bool {
    disk == DiskName::ErrA || disk == DiskName::ErrB
}

/// What is left where each call of the disk fails from this one on, and the power then.
pub fn left_at(alloc: Global, trial: Trial<'_>, call: u64, image: Image) -> Result<Ran, NoMemory> {
    let failing = FailingCalls::From {
        disk: trial.disk,
        call,
    };
    run(alloc, trial.bytes, failing, trial.steps, Some(image))
}

/// What became of a stop.
#[derive(Clone, Copy, Drop)]
enum StopKind {
    /// The store has the reports that were answered.
    Answered,
    /// It has one more, of which nothing was answered.
    OneMore,
    Wrong,
}

/// What becomes of a stop of the disk that left so many reports, where so many were answered.
fn kind_of(disk: DiskName, answered: u64, reports: Option<u64>) -> StopKind {
    let one_more = answered.saturating_add(1);
    match reports {
        Some(reports) if reports == answered => StopKind::Answered,
        Some(reports) if reports == one_more && is_error_journal(disk) => StopKind::OneMore,
        _ => StopKind::Wrong,
    }
}

/// What becomes of a stop at this call, where there were so many entries before.
fn kind_at(
    alloc: Global,
    trial: Trial<'_>,
    before: u64,
    call: u64,
    image: Image,
) -> Result<StopKind, NoMemory> {
    let ran = left_at(alloc, trial, call, image)?;
    if ran.answer.fault != Some(StoreFault::Disk) {
        return Ok(StopKind::Wrong);
    }
    let reports = reports_in(alloc, &ran.left)?;
    let answered = before.saturating_add(ran.answer.taken);
    Ok(kind_of(trial.disk, answered, reports))
}

/// How many cases there were of each kind, and the first that is not as it should be.
#[derive(Clone, Copy, Drop)]
pub struct StopCounts {
    pub answered: u64,
    pub one_more: u64,
    pub wrong: u64,
    pub first_wrong: Option<(u64, Image)>,
}

impl StopCounts {
    /// No cases yet.
    pub fn new() -> StopCounts {
        StopCounts {
            answered: 0,
            one_more: 0,
            wrong: 0,
            first_wrong: None,
        }
    }

    /// How many cases there were.
    pub fn cases(&self) -> u64 {
        self.answered
            .saturating_add(self.one_more)
            .saturating_add(self.wrong)
    }

    /// Counts a case.
    fn count(&mut self, kind: StopKind, call: u64, image: Image) {
        match kind {
            StopKind::Answered => self.answered = self.answered.saturating_add(1),
            StopKind::OneMore => self.one_more = self.one_more.saturating_add(1),
            StopKind::Wrong => {
                self.wrong = self.wrong.saturating_add(1);
                self.first_wrong = self.first_wrong.or(Some((call, image)));
            }
        }
    }
}

/// Counts the stops at each call of the disk, with this image.
fn count_calls(
    alloc: Global,
    trial: Trial<'_>,
    image: Image,
    counts: &mut StopCounts,
) -> Result<(), NoMemory> {
    let Some((before, calls)) = extent_of(alloc, trial)? else {
        counts.count(StopKind::Wrong, 0, image);
        return Ok(());
    };
    for call in 0..calls {
        counts.count(kind_at(alloc, trial, before, call, image)?, call, image);
    }
    Ok(())
}

/// Tries a stop at each call of the disk, with each image.
pub fn try_stops(alloc: Global, trial: Trial<'_>) -> Result<StopCounts, NoMemory> {
    let mut counts = StopCounts::new();
    for image in IMAGES {
        count_calls(alloc, trial, image, &mut counts)?;
    }
    Ok(counts)
}

/// Counts the stops of a checkpoint at each call of the disk, with this image.
fn count_next(
    alloc: Global,
    bytes: &StoreBytes,
    disk: DiskName,
    image: Image,
    counts: &mut StopCounts,
) -> Result<(), NoMemory> {
    let steps = [Step::Checkpoint];
    let trial = Trial {
        bytes,
        disk,
        steps: &steps,
    };
    count_calls(alloc, trial, image, counts)
}

/// Tries a stop of a checkpoint at each call of a second disk, behind a stop at each call of the
/// trial's, with this image of both.
fn count_twice(
    alloc: Global,
    trial: Trial<'_>,
    disk: DiskName,
    image: Image,
    counts: &mut StopCounts,
) -> Result<(), NoMemory> {
    let Some((_, calls)) = extent_of(alloc, trial)? else {
        counts.count(StopKind::Wrong, 0, image);
        return Ok(());
    };
    for call in 0..calls {
        let ran = left_at(alloc, trial, call, image)?;
        count_next(alloc, &ran.left, disk, image, counts)?;
    }
    Ok(())
}

/// The same with each image.
pub fn try_stops_twice(
    alloc: Global,
    trial: Trial<'_>,
    disk: DiskName,
) -> Result<StopCounts, NoMemory> {
    let mut counts = StopCounts::new();
    for image in IMAGES {
        count_twice(alloc, trial, disk, image, &mut counts)?;
    }
    Ok(counts)
}
