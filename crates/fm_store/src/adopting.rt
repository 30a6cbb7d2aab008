//! An open store adopts its modules.

ghost use Rattle.std.specs.Prelude.{◌≡◌, ◌+◌, ◌<◌, ◌≤◌, ◌^◌, List, length, All, Some, None, IfOk};
ghost use Rattle.std.specs.Prelude.{IfErr, if◌then◌else◌};
ghost use Rattle.fm_outer.specs.Moments.{OnlyRead};
ghost use Rattle.fm_entry.specs.Entries.{IsSpelled};
ghost use Rattle.fm_logs.specs.Contents.{Contents, AreTold, WereOnlyRead, disk_named};
ghost use Rattle.fm_logs.specs.LogsLimits.{logs_of};
ghost use Rattle.fm_logs.specs.declared.disks.DiskName.{DiskName};
ghost use Rattle.fm_init.specs.Making.{AreFirstModules};
ghost use Rattle.fm_store.specs.Adopting.{Adopts, AdoptRefused, IsAdopted, KnowAll};
ghost use Rattle.fm_store.specs.Beside.{beside_of};
ghost use Rattle.fm_store.specs.Opened.{IsOpened, Opens, disks_of};
ghost use Rattle.fm_store.specs.StoreLeft.{store_disk};
ghost use Rattle.fm_store.specs.StoreLimits.{base_of};
ghost use Rattle.fm_store.specs.StoreOf.{made_modules};

use crate::loading::{AtBase, modules_at_base};
use crate::opened::Opened;
use crate::opening::store_fault;
use crate::store::Store;
use crate::store_base::StoreBase;
use fm_bytes::NoMemory;
use fm_core::{Hand, Module};
use fm_entry::Entry;
use fm_init::StoreRefused;
use fm_journal::Journal;
use fm_logs::{DiskName, Disks, Logs, LogsParts, StoreFault};
use fm_looks::{RecordsRead, open_records};
use fm_outer::Disk;
use fm_retrace::hands_of;
use fm_saved::{Checkpoint, SavedStates};
use std::alloc::Global;

/// An open store without its fault log, its entries and its states.
#[derive(Drop)]
struct Beside<D: Disk> {
    conf: Journal<D>,
    active: Journal<D>,
    spare: D,
    slot_a: D,
    slot_b: D,
    second: bool,
    newest: Option<(bool, u64)>,
    base: u64,
    moment: u64,
    in_force: u32,
}

impl<D: Disk> Beside<D> {
    /// All disks, and why no modules were adopted.
    fn refuse(self, flt: D, fault: StoreFault) -> StoreRefused<D>
        ensures { result ≡ record {
          disks = record {
            conf = self.conf.disk;
            err_a = if self.second then self.spare else self.active.disk;
            err_b = if self.second then self.active.disk else self.spare;
            slot_a = self.slot_a;
            slot_b = self.slot_b;
            flt = flt;
          };
          fault = fault;
        } }
    {
        let active = self.active.into_disk();
        let (err_a, err_b) = if self.second {
            (self.spare, active)
        } else {
            (active, self.spare)
        };
        let disks = Disks {
            conf: self.conf.into_disk(),
            err_a,
            err_b,
            slot_a: self.slot_a,
            slot_b: self.slot_b,
            flt,
        };
        StoreRefused { disks, fault }
    }

    /// The store of these, the fault log, the entries from the base on, and how far each module
    /// has come.
    fn store<M>(
        self,
        kept: Vec<M>,
        saves: SavedStates,
        flt: Journal<D>,
        entries: Vec<Entry>,
        cursors: Vec<u64>,
    ) -> Store<D, M>
        requires active_open { self.active.closed ≡ None }
        requires flt_open { flt.closed ≡ None }
        requires numbered { self.active.first + self.active.count
            ≡ self.base + length entries.items }
        requires few { self.base + length entries.items ≤ 2 ^ 46 }
        requires spelled { All IsSpelled entries.items }
        requires moment_fits { self.moment < 2 ^ 62 }
        requires few_modules { length cursors.items < 2 ^ 32 }
        ensures { result ≡ record {
          logs = logs_of self.active flt self.second self.base entries.items cursors.items None;
          base = base_of self.conf self.spare self.slot_a self.slot_b self.newest self.moment
              self.in_force kept.items saves;
        } }
    {
        let logs = Logs::new(LogsParts {
            active: self.active,
            flt,
            second: self.second,
            base: self.base,
            entries,
            cursors,
        });
        let base = StoreBase {
            conf: self.conf,
            spare: Some(self.spare),
            slot_a: self.slot_a,
            slot_b: self.slot_b,
            newest: self.newest,
            moment: self.moment,
            in_force: self.in_force,
            kept,
            states: saves,
        };
        Store::whole(logs, base)
    }
}

/// An open store, taken apart.
#[derive(Drop)]
struct Apart<D: Disk> {
    beside: Beside<D>,
    states: SavedStates,
    entries: Vec<Entry>,
    flt: D,
}

impl<D: Disk> Opened<D> {
    /// Its parts.
    fn apart(self) -> Apart<D>
        ensures beside { result.beside ≡ beside_of self }
        ensures states { result.states ≡ self.checkpoint.states }
        ensures entries { result.entries.items ≡ self.entries }
        ensures flt { result.flt ≡ self.flt }
        ensures opened { IsOpened self }
    {
        let Opened {
            conf,
            confs: _,
            slot_a,
            slot_b,
            newest,
            checkpoint,
            active,
            spare,
            flt,
            entries,
        } = self;
        let Checkpoint {
            second,
            base,
            moment,
            conf: in_force,
            states,
        } = checkpoint;
        let beside = Beside {
            conf,
            active,
            spare,
            slot_a,
            slot_b,
            second,
            newest,
            base,
            moment,
            in_force,
        };
        Apart {
            beside,
            states,
            entries,
            flt,
        }
    }

    /// The store with its modules, of which `fresh` become the hands and `kept` stay as they were
    /// made. The hands have come to where each module last spoke, or to the base. Nothing is
    /// written. `Damaged` exactly where the states in the slot in force are not such modules', or
    /// the fault log has not just what these say, with the first place.
    pub fn adopt<M: Module>(
        self,
        alloc: Global,
        fresh: Vec<M>,
        kept: Vec<M>,
    ) -> Result<(Store<D, M>, Vec<Hand<M>>), StoreRefused<D>>
        requires alike { made_modules M.Module fresh.items ≡ made_modules M.Module kept.items }
        requires made { AreFirstModules (made_modules M.Module kept.items) }
        requires know { KnowAll (length self.confs) (made_modules M.Module kept.items) }
        ensures adopts { IfOk result (λ (store, hands). (c : Contents) → Opens D.Disk c self
            → AreTold D.Disk (disks_of self) c → Adopts D.Disk M.Module c
            (made_modules M.Module kept.items) store hands.items) }
        ensures is { IfOk result
            (λ (store, hands). IsAdopted M.Module self kept.items store hands.items) }
        ensures read { IfOk result (λ (store, _). (name : DiskName) → OnlyRead D.Disk
            (disk_named name (disks_of self)) (store_disk name store)) }
        ensures counts_kept { IfOk result (λ (store, _). (name : DiskName)
            → D.failures (store_disk name store) ≡ D.failures (disk_named name (disks_of self))) }
        ensures refused { IfErr result (λ refused. AdoptRefused D.Disk
            (made_modules M.Module kept.items) self refused.disks refused.fault) }
        ensures back { IfErr result (λ refused. WereOnlyRead D.Disk (disks_of self) refused.disks) }
    {
        let Apart {
            beside,
            states,
            entries,
            flt,
        } = self.apart();
        let (newest, in_force) = (beside.newest, beside.in_force);
        let AtBase { modules, saves } = match modules_at_base(
            alloc, newest, in_force, states, fresh, &kept,
        ) {
            Ok(found) => found,
            Err(fault) => return Err(beside.refuse(flt, fault)),
        };
        if modules.len() >= 1 << 32 {
            return Err(beside.refuse(flt, StoreFault::NoMemory));
        }
        let RecordsRead { journal, modules } = match open_records(
            alloc,
            flt,
            beside.base,
            &entries,
            modules,
        ) {
            Ok(read) => read,
            Err(refused) => {
                let fault = store_fault(DiskName::Flt, refused.fault);
                return Err(beside.refuse(refused.disk, fault));
            }
        };
        match hands_of(alloc, beside.base, modules) {
            Ok((hands, cursors)) => Ok((
                beside.store(kept, saves, journal, entries, cursors),
                hands,
            )),
            Err(NoMemory) => Err(beside.refuse(journal.into_disk(), StoreFault::NoMemory)),
        }
    }
}
