//! What a store that was closed answers to later calls.

use crate::parts::report;
use fm_core::{Counter, Hand};
use fm_logs::{DiskName, StoreFault};
use fm_outer::MemDisk;
use fm_store::Store;
use std::alloc::Global;

/// Whether an entry is refused with this fault.
fn refuses_entry(alloc: Global, store: &mut Store<MemDisk, Counter>, fault: StoreFault) -> bool {
    match report(alloc, 5) {
        Ok(Some(entry)) => store.accept(alloc, entry).err() == Some(fault),
        _ => false,
    }
}

/// Whether a step of the first module is refused with this fault.
fn refuses_step(store: &mut Store<MemDisk, Counter>, fault: StoreFault) -> bool {
    if store.modules() == 0 {
        return false;
    }
    let number = store.cursor(0);
    number < 1 << 46 && store.commit(0, number, None).err() == Some(fault)
}

/// Whether a checkpoint is refused with this fault, where one may be written.
fn refuses_checkpoint(
    alloc: Global,
    store: &mut Store<MemDisk, Counter>,
    hands: &[Hand<Counter>],
    fault: StoreFault,
) -> bool {
    if !store.is_done() || hands.len() as u64 != u64::from(store.modules()) {
        return true;
    }
    store.checkpoint(alloc, hands).err() == Some(fault)
}

/// Whether a rotation is refused with this fault, where one may be made.
fn refuses_rotation(
    alloc: Global,
    store: &mut Store<MemDisk, Counter>,
    hands: &[Hand<Counter>],
    fault: StoreFault,
) -> bool {
    if !store.is_done() || hands.len() as u64 != u64::from(store.modules()) {
        return true;
    }
    store.rotate(alloc, hands).err() == Some(fault)
}

/// Whether a reading of the records and one of the entries are refused with this fault.
fn refuses_reading(alloc: Global, store: &mut Store<MemDisk, Counter>, fault: StoreFault) -> bool {
    store.spoken(alloc).err() == Some(fault) && store.logged(alloc).err() == Some(fault)
}

/// The disk and the count with which a closed store refuses an entry, a step, a reading, and where
/// they may be a checkpoint and a rotation; `None` where it is not closed, or one is answered
/// otherwise.
pub(crate) fn closed_with(
    alloc: Global,
    store: &mut Store<MemDisk, Counter>,
    hands: &[Hand<Counter>],
) -> Option<(DiskName, u64)> {
    let (disk, faults) = store.closed()?;
    let fault = StoreFault::Closed { disk, faults };
    let refuses_bases = refuses_checkpoint(alloc, store, hands, fault)
        && refuses_rotation(alloc, store, hands, fault);
    let refuses_work = refuses_entry(alloc, store, fault) && refuses_step(store, fault);
    if refuses_bases && refuses_work && refuses_reading(alloc, store, fault) {
        Some((disk, faults))
    } else {
        None
    }
}
