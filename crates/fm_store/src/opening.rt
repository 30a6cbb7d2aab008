//! The looks of an opening, one after another.

ghost use Rattle.std.specs.Prelude.{◌≡◌, ◌<◌, ◌≤◌, ℕ, List, length, Some, None, IfOk, IfErr};
ghost use Rattle.fm_outer.specs.Moments.{OnlyRead};
ghost use Rattle.fm_logs.specs.Contents.{WereOnlyRead};
ghost use Rattle.fm_looks.specs.Entries.{EntriesKept, AreEntries};
ghost use Rattle.fm_store.specs.Opened.{ErrorsCause, RestDoes, active_disk, errors_back, fault_at};
ghost use Rattle.fm_looks.specs.Looks.{AreKeptConfs};
ghost use Rattle.fm_store.specs.Opened.{six_disks, disks_of, opened_disks, AreErrorsRead};
ghost use Rattle.fm_store.specs.Opened.{NoneFailed};

use crate::opened::Opened;
use fm_entry::Entry;
use fm_init::StoreRefused;
use fm_journal::Journal;
use fm_logs::{DiskName, Disks, StoreFault};
use fm_looks::{BaseRead, ConfsRead, LookFault, open_entries, read_base};
use fm_outer::Disk;
use fm_saved::Checkpoint;
use std::alloc::Global;

/// The disks beside that of the configurations.
#[derive(Drop)]
pub(crate) struct OtherDisks<D> {
    pub(crate) err_a: D,
    pub(crate) err_b: D,
    pub(crate) slot_a: D,
    pub(crate) slot_b: D,
    pub(crate) flt: D,
}

/// The active error journal, its entries from the base on, and the other one's disk.
#[derive(Drop)]
struct ErrorsRead<D: Disk> {
    active: Journal<D>,
    entries: Vec<Entry>,
    spare: D,
}

/// The disks of both error journals, of which the active one was not read.
#[derive(Drop)]
struct ErrorsRefused<D> {
    err_a: D,
    err_b: D,
    fault: StoreFault,
}

/// What a fault of a look at this disk is to the store.
pub(crate) fn store_fault(disk: DiskName, fault: LookFault) -> StoreFault
    ensures { result ≡ fault_at disk fault }
{
    match fault {
        LookFault::Disk => StoreFault::Disk,
        LookFault::Damaged { place } => StoreFault::Damaged { disk, place },
        LookFault::NoMemory => StoreFault::NoMemory,
    }
}

/// Reads the entries of the error journal that the checkpoint names.
fn open_errors<D: Disk>(
    alloc: Global,
    err_a: D,
    err_b: D,
    known: u64,
    checkpoint: &Checkpoint,
) -> Result<ErrorsRead<D>, ErrorsRefused<D>>
    requires known { checkpoint.now.conf < known }
    ensures passes { IfOk result (λ read. (c : List ℕ)
        → D.seen (active_disk checkpoint.now.second err_a err_b) ≡ Some c
        → EntriesKept D.Disk c known checkpoint.now read.active read.entries.items) }
    ensures are { IfOk result (λ read. AreEntries known checkpoint.now read.active
        read.entries.items) }
    ensures kept { AreErrorsRead D.Disk checkpoint.now.second err_a err_b
        (errors_back checkpoint.now.second result) }
    ensures count_kept { IfOk result (λ read. D.failures read.active.disk
        ≡ D.failures (active_disk checkpoint.now.second err_a err_b)) }
    ensures cause { IfErr result (λ refused. ErrorsCause D.Disk known checkpoint.now
        (active_disk checkpoint.now.second err_a err_b)
        (active_disk checkpoint.now.second refused.err_a refused.err_b) refused.fault) }
{
    if checkpoint.second {
        match open_entries(alloc, err_b, known, checkpoint) {
            Ok(read) => Ok(ErrorsRead {
                active: read.journal,
                entries: read.entries,
                spare: err_a,
            }),
            Err(refused) => Err(ErrorsRefused {
                err_a,
                err_b: refused.disk,
                fault: store_fault(DiskName::ErrB, refused.fault),
            }),
        }
    } else {
        match open_entries(alloc, err_a, known, checkpoint) {
            Ok(read) => Ok(ErrorsRead {
                active: read.journal,
                entries: read.entries,
                spare: err_b,
            }),
            Err(refused) => Err(ErrorsRefused {
                err_a: refused.disk,
                err_b,
                fault: store_fault(DiskName::ErrA, refused.fault),
            }),
        }
    }
}

/// All disks, and why the others were not opened.
fn refuse_rest<D: Disk>(
    journal: Journal<D>,
    others: OtherDisks<D>,
    fault: StoreFault,
) -> StoreRefused<D>
    ensures { result ≡ record { disks = six_disks journal.disk others; fault = fault } }
{
    let OtherDisks {
        err_a,
        err_b,
        slot_a,
        slot_b,
        flt,
    } = others;
    let disks = Disks {
        conf: journal.into_disk(),
        err_a,
        err_b,
        slot_a,
        slot_b,
        flt,
    };
    StoreRefused { disks, fault }
}

/// Reads the slots and the active error journal, beside configurations that were read.
pub(crate) fn open_rest<D: Disk>(
    alloc: Global,
    confs: ConfsRead<D>,
    others: OtherDisks<D>,
) -> Result<Opened<D>, StoreRefused<D>>
    requires is_open { confs.journal.closed ≡ None }
    requires some { 1 ≤ length confs.confs.items }
    requires kept { AreKeptConfs confs.confs.items }
    ensures does { RestDoes D.Disk confs.journal confs.confs.items others result }
    ensures still { WereOnlyRead D.Disk (six_disks confs.journal.disk others)
        (opened_disks result) }
    ensures counts_kept { IfOk result
        (λ opened. NoneFailed D.Disk (six_disks confs.journal.disk others) (disks_of opened)) }
{
    let ConfsRead { journal, confs } = confs;
    let mut others = others;
    let known = confs.len() as u64;
    let base = match read_base(alloc, &mut others.slot_a, &mut others.slot_b, known) {
        Ok(base) => base,
        Err(fault) => return Err(refuse_rest(journal, others, fault)),
    };
    let BaseRead { newest, checkpoint } = base;
    match open_errors(alloc, others.err_a, others.err_b, known, &checkpoint) {
        Ok(read) => Ok(Opened {
            conf: journal,
            confs,
            slot_a: others.slot_a,
            slot_b: others.slot_b,
            newest,
            checkpoint,
            active: read.active,
            spare: read.spare,
            flt: others.flt,
            entries: read.entries,
        }),
        Err(refused) => {
            let (err_a, err_b) = (refused.err_a, refused.err_b);
            let others = OtherDisks {
                err_a,
                err_b,
                ..others
            };
            Err(refuse_rest(journal, others, refused.fault))
        }
    }
}
