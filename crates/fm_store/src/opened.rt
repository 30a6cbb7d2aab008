//! A store that is open, before its modules are adopted.

ghost use Rattle.std.specs.Prelude.{◌≡◌, ◌<◌, length, slice_get, Some, IfOk};
ghost use Rattle.fm_logs.specs.Contents.{WereOnlyRead};
ghost use Rattle.fm_logs.specs.StoreBook.{force_along};
ghost use Rattle.fm_looks.specs.Looks.{AreKeptConfs};
ghost use Rattle.fm_store.specs.Opened.{OpenDoes, NoneFailed, opened_disks, disks_of};

use crate::opening::{OtherDisks, open_rest, store_fault};
use fm_entry::Entry;
use fm_init::StoreRefused;
use fm_journal::Journal;
use fm_logs::{DiskName, Disks};
use fm_looks::{force_of, open_confs};
use fm_outer::Disk;
use fm_saved::{Checkpoint, Conf};
use std::alloc::Global;
use std::marker::Model;

/// A store that is open: what its configurations, its slots and its active error journal say. Its
/// states and its fault log are looked at once modules are adopted.
#[derive(Drop)]
pub struct Opened<D: Disk> {
    pub(crate) conf: Journal<D>,
    pub(crate) confs: Vec<Conf>,
    pub(crate) slot_a: D,
    pub(crate) slot_b: D,
    pub(crate) newest: Option<(bool, u64)>,
    pub(crate) checkpoint: Checkpoint,
    pub(crate) active: Journal<D>,
    pub(crate) spare: D,
    pub(crate) flt: D,
    pub(crate) entries: Vec<Entry>,
}

impl<D: Disk> Model for Opened<D> {
    ghost use Rattle.fm_store.specs.Opened.{OpenedOf, IsOpened, opened_of};
    ghost use Rattle.std.specs.Coded.{codes};
    ghost use Rattle.fm_entry.specs.contracts.entry.Entry as entry_row;

    ghost Value = { OpenedOf D };

    ghost coded = { Prim.hlevel (codes, entry_row.the_row.coded) };

    ghost view = { λ o. opened_of o.conf o.confs.items o.slot_a o.slot_b o.newest o.checkpoint
        o.active o.spare o.flt o.entries.items };

    ghost invariant = { λ o. IsOpened (opened_of o.conf o.confs.items o.slot_a o.slot_b o.newest
        o.checkpoint o.active o.spare o.flt o.entries.items) };
}

impl<D: Disk> Opened<D> {
    /// Opens a store. Each disk that is read is synced first, and nothing is written. `Damaged`
    /// exactly where the configurations, the slots or the active error journal are no part of any
    /// book, with the first place.
    pub fn open(alloc: Global, disks: Disks<D>) -> Result<Opened<D>, StoreRefused<D>>
        ensures does { OpenDoes D.Disk disks result }
        ensures still { WereOnlyRead D.Disk disks (opened_disks result) }
        ensures counts_kept { IfOk result (λ opened. NoneFailed D.Disk disks (disks_of opened)) }
    {
        let Disks {
            conf,
            err_a,
            err_b,
            slot_a,
            slot_b,
            flt,
        } = disks;
        match open_confs(alloc, conf) {
            Ok(confs) => {
                let others = OtherDisks {
                    err_a,
                    err_b,
                    slot_a,
                    slot_b,
                    flt,
                };
                open_rest(alloc, confs, others)
            }
            Err(refused) => {
                let fault = store_fault(DiskName::Conf, refused.fault);
                let disks = Disks {
                    conf: refused.disk,
                    err_a,
                    err_b,
                    slot_a,
                    slot_b,
                    flt,
                };
                Err(StoreRefused { disks, fault })
            }
        }
    }

    /// The configurations, by number.
    pub fn confs(&self) -> &[Conf]
        ensures confs { result.now ≡ self.now.confs }
        ensures kept { AreKeptConfs self.now.confs }
    {
        self.confs.as_slice()
    }

    /// The configuration in force at the end of the entries.
    pub fn conf(&self) -> &Conf
        ensures { slice_get self.now.confs
            (force_along self.now.checkpoint.conf self.now.entries) ≡ Some result.now }
    {
        let force = force_of(self.checkpoint.conf, self.entries.as_slice());
        &self.confs[force as usize]
    }

    /// The entries from the base on.
    pub fn entries(&self) -> &[Entry]
        ensures { result.now ≡ self.now.entries }
    {
        self.entries.as_slice()
    }

    /// The six disks.
    pub fn into_disks(self) -> Disks<D>
        ensures { result ≡ disks_of self }
    {
        let Opened {
            conf,
            confs: _,
            slot_a,
            slot_b,
            newest: _,
            checkpoint,
            active,
            spare,
            flt,
            entries: _,
        } = self;
        let (err_a, err_b) = if checkpoint.second {
            (spare, active.into_disk())
        } else {
            (active.into_disk(), spare)
        };
        Disks {
            conf: conf.into_disk(),
            err_a,
            err_b,
            slot_a,
            slot_b,
            flt,
        }
    }
}
