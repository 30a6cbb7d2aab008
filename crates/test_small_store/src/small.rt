//! A small store, and its steps.

ghost use Rattle.std.specs.Prelude.{◌≡◌, [], ◌∷◌, IfOk};
ghost use Rattle.fm_entry.specs.Entries.{IsSpelled};
ghost use Rattle.fm_store.specs.StoreCalls.{AreAtEnd};
ghost use Rattle.test_small_store.specs.Small.{HasHandsAtCursors, fresh_counter};

use crate::later::closed_with;
use crate::parts::{counters, mixed_report, report};
use fm_core::{Counter, Hand};
use fm_entry::Entry;
use fm_logs::{DiskName, Disks, StoreFault};
use fm_outer::MemDisk;
use fm_store::{Opened, Store, StoreRefused};
use std::alloc::Global;

/// A store of two counters, a hand of each, and how many reports it took since it was opened.
#[derive(Drop)]
pub struct SmallStore {
    pub store: Store<MemDisk, Counter>,
    pub hands: Vec<Hand<Counter>>,
    pub taken: u64,
}

/// A step that was not done, with the disks, why, and how many reports were taken before it. Where
/// the store is closed, `closed` has the disk and the count that each later call named.
#[derive(Drop)]
pub struct Stopped {
    pub disks: Disks<MemDisk>,
    pub fault: StoreFault,
    pub taken: u64,
    pub closed: Option<(DiskName, u64)>,
}

/// An opening that was refused.
fn refuse(refused: StoreRefused<MemDisk>) -> Stopped {
    Stopped {
        disks: refused.disks,
        fault: refused.fault,
        taken: 0,
        closed: None,
    }
}

/// The store that is on the disks.
pub fn opened(alloc: Global, disks: Disks<MemDisk>) -> Result<SmallStore, Stopped>
    ensures { IfOk result HasHandsAtCursors }
{
    match (counters(alloc), counters(alloc)) {
        (Ok(fresh), Ok(kept)) => adopted(alloc, disks, fresh, kept),
        _ => Err(refuse(StoreRefused {
            disks,
            fault: StoreFault::NoMemory,
        })),
    }
}

/// What is on the disks, with its modules.
fn adopted(
    alloc: Global,
    disks: Disks<MemDisk>,
    fresh: Vec<Counter>,
    kept: Vec<Counter>,
) -> Result<SmallStore, Stopped>
    requires fresh { fresh.items ≡ fresh_counter 0 ∷ fresh_counter 1 ∷ [] }
    requires kept { kept.items ≡ fresh_counter 0 ∷ fresh_counter 1 ∷ [] }
    ensures { IfOk result HasHandsAtCursors }
{
    match Opened::open(alloc, disks) {
        Ok(open) => match open.adopt(alloc, fresh, kept) {
            Ok((store, hands)) => Ok(SmallStore {
                store,
                hands,
                taken: 0,
            }),
            Err(refused) => Err(refuse(refused)),
        },
        Err(refused) => Err(refuse(refused)),
    }
}

impl SmallStore {
    /// The disks, where a step was not done, and what later calls answer then.
    pub fn stop(self, alloc: Global, fault: StoreFault) -> Stopped {
        let SmallStore {
            mut store,
            hands,
            taken,
        } = self;
        let closed = closed_with(alloc, &mut store, &hands);
        Stopped {
            disks: store.into_disks(),
            fault,
            taken,
            closed,
        }
    }

    /// The disks, and how many reports were taken.
    pub fn close(self) -> (Disks<MemDisk>, u64) {
        let SmallStore {
            store,
            hands: _,
            taken,
        } = self;
        (store.into_disks(), taken)
    }

    /// Takes an entry.
    fn take_entry(self, alloc: Global, entry: Entry) -> Result<SmallStore, Stopped>
        requires ready { HasHandsAtCursors self }
        requires spelled { IsSpelled entry }
        ensures { IfOk result HasHandsAtCursors }
    {
        let mut small = self;
        match small.store.accept(alloc, entry) {
            Ok(_) => {
                small.taken = small.taken.saturating_add(1);
                Ok(small)
            }
            Err(fault) => Err(small.stop(alloc, fault)),
        }
    }

    /// Takes a report.
    fn take_one(self, alloc: Global) -> Result<SmallStore, Stopped>
        requires ready { HasHandsAtCursors self }
        ensures { IfOk result HasHandsAtCursors }
    {
        match report(alloc, 5) {
            Ok(Some(entry)) => self.take_entry(alloc, entry),
            _ => Err(self.stop(alloc, StoreFault::NoMemory)),
        }
    }

    /// Takes so many reports, one after another.
    pub fn take(self, alloc: Global, count: u32) -> Result<SmallStore, Stopped>
        requires ready { HasHandsAtCursors self }
        ensures { IfOk result HasHandsAtCursors }
    {
        let mut small = self;
        'reports: for _report in 0..count {
            small = small.take_one(alloc)?;
        }
        Ok(small)
    }

    /// Takes the next of the mixed reports.
    fn take_next(self, alloc: Global) -> Result<SmallStore, Stopped>
        requires ready { HasHandsAtCursors self }
        ensures { IfOk result HasHandsAtCursors }
    {
        match mixed_report(alloc, self.store.next_entry()) {
            Ok(Some(entry)) => self.take_entry(alloc, entry),
            _ => Err(self.stop(alloc, StoreFault::NoMemory)),
        }
    }

    /// Takes so many of the mixed reports, one after another.
    pub fn take_mixed(self, alloc: Global, count: u32) -> Result<SmallStore, Stopped>
        requires ready { HasHandsAtCursors self }
        ensures { IfOk result HasHandsAtCursors }
    {
        let mut small = self;
        'reports: for _report in 0..count {
            small = small.take_next(alloc)?;
        }
        Ok(small)
    }

    /// Writes a checkpoint, where both modules are at the end.
    pub fn checkpoint(self, alloc: Global) -> Result<SmallStore, Stopped>
        requires ready { HasHandsAtCursors self }
        requires at_end { AreAtEnd self.store.logs }
        ensures { IfOk result HasHandsAtCursors }
    {
        let mut small = self;
        match small.store.checkpoint(alloc, &small.hands) {
            Ok(()) => Ok(small),
            Err(fault) => Err(small.stop(alloc, fault)),
        }
    }

    /// Rotates the error journals, where both modules are at the end.
    pub fn rotate(self, alloc: Global) -> Result<SmallStore, Stopped>
        requires ready { HasHandsAtCursors self }
        requires at_end { AreAtEnd self.store.logs }
        ensures { IfOk result HasHandsAtCursors }
    {
        let mut small = self;
        match small.store.rotate(alloc, &small.hands) {
            Ok(_) => Ok(small),
            Err(fault) => Err(small.stop(alloc, fault)),
        }
    }
}
