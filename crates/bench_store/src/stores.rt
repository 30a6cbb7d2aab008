// A store in memory with many entries past its base, and steps of it.
ghost use Rattle.std.specs.Prelude.{IfOk};
ghost use Rattle.fm_store.specs.StoreCalls.{AreAtEnd};
ghost use Rattle.test_small_store.specs.Small.{HasHandsAtCursors};

use crate::journals::journal;
use fm_logs::Disks;
use fm_outer::MemDisk;
use std::alloc::{AllocError, Global};
use test_small_store::{SmallStore, Stopped, Told, new_store, opened};

/// A disk with these bytes and room for so many more, of which each is written at most once.
fn disk(alloc: Global, bytes: &[u8], more: u64) -> Result<MemDisk, AllocError> {
    let room = (bytes.len() as u64).saturating_add(more);
    MemDisk::new(alloc, bytes, room, more.saturating_mul(2), Vec::new(alloc)).map_err(
        |_| AllocError,
    )
}

/// The bytes of a fault log without records.
const NO_RECORDS: &[u8] = b"FMAJRNL1\0\0\0\0\0\0\0\0\0";

/// The disks of a store of so many reports, none of which its two modules have taken, with room for
/// what these say of so many.
pub fn disks(alloc: Global, count: u32, said: u32) -> Result<Disks<MemDisk>, AllocError> {
    let Ok(Some(disks)) = new_store(alloc) else {
        return Err(AllocError);
    };
    let err_a = disk(alloc, &journal(alloc, count)?, 64)?;
    let flt = disk(
        alloc,
        NO_RECORDS,
        u64::from(said).saturating_mul(70).saturating_add(64),
    )?;
    Ok(Disks {
        err_a,
        flt,
        ..disks
    })
}

/// What a store tells once a step is done; `None` where it was not.
pub fn told(step: Result<SmallStore, Stopped>) -> Option<Told> {
    match step {
        Ok(small) => Some(small.told()),
        Err(_) => None,
    }
}

/// Opens the store and lets its modules take all entries.
pub fn drain(alloc: Global, disks: Disks<MemDisk>) -> Result<SmallStore, Stopped>
    ensures ready { IfOk result HasHandsAtCursors }
    ensures at_end { IfOk result (λ small. AreAtEnd small.store.logs) }
{
    let SmallStore {
        mut store,
        hands,
        taken,
    } = opened(alloc, disks)?;
    let (hands, done) = fm_drain::drain(&mut store, alloc, hands);
    let small = SmallStore {
        store,
        hands,
        taken,
    };
    match done {
        Ok(()) => Ok(small),
        Err(fault) => Err(small.stop(alloc, fault)),
    }
}

/// The same, and then moves the base.
pub fn checkpoint(alloc: Global, disks: Disks<MemDisk>) -> Result<SmallStore, Stopped> {
    drain(alloc, disks)?.checkpoint(alloc)
}

/// The same, and then begins another error journal.
pub fn rotate(alloc: Global, disks: Disks<MemDisk>) -> Result<SmallStore, Stopped> {
    drain(alloc, disks)?.rotate(alloc)
}
