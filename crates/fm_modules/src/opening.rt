//! A store that is opened with its modules.

ghost use Rattle.std.specs.Prelude.{◌≡◌, IfOk, IfErr};
ghost use Rattle.fm_logs.specs.Contents.{Contents, AreTold, WereOnlyRead, disk_named};
ghost use Rattle.fm_logs.specs.declared.disks.DiskName.{DiskName as NamesDisk};
ghost use Rattle.fm_outer.specs.Moments.{OnlyRead};
ghost use Rattle.fm_looks.specs.Looks.{AreKeptConfs};
ghost use Rattle.fm_store.specs.Opened.{Opens, disks_of};
ghost use Rattle.fm_store.specs.StoreLeft.{store_disk};
ghost use Rattle.fm_modules.specs.Modules.{ModulesCause};
ghost use Rattle.fm_modules.specs.OpenStore.{IsOpenStore, ModulesRefused, OpenStoreRefused};
ghost use Rattle.fm_modules.specs.OpenStore.{OpensStore, fault_of_modules};

use crate::fault::ModulesFault;
use crate::modules::make_modules;
use crate::places::gate_of;
use dx_engine::Diagnoser;
use fm_bytes::{Copies, NoMemory};
use fm_core::Hand;
use fm_init::StoreRefused;
use fm_logs::{DiskName, Disks, StoreFault};
use fm_outer::Disk;
use fm_saved::Conf;
use fm_store::{Opened, Store};
use std::alloc::Global;

/// A store with the modules of what it keeps, a hand of each, and its configuration in force.
#[derive(Drop)]
pub struct OpenStore<D: Disk> {
    pub store: Store<D, Diagnoser>,
    pub hands: Vec<Hand<Diagnoser>>,
    pub conf: Conf,
}

/// What the want of modules is to a store of these configurations.
fn modules_fault(confs: &[Conf], fault: ModulesFault) -> StoreFault
    requires kept { AreKeptConfs confs.now }
    requires cause { ModulesCause confs.now fault }
    ensures { result ≡ fault_of_modules confs.now fault }
{
    match fault {
        ModulesFault::Refused { conf } => StoreFault::Damaged {
            disk: DiskName::Conf,
            place: gate_of(confs, conf as usize),
        },
        ModulesFault::NoMemory => StoreFault::NoMemory,
    }
}

/// All disks of a store that was open, and why it has no modules.
fn close<D: Disk>(opened: Opened<D>, fault: StoreFault) -> StoreRefused<D>
    ensures { result ≡ record { disks = disks_of opened; fault = fault } }
{
    let disks = opened.into_disks();
    StoreRefused { disks, fault }
}

/// A store that is open adopts the modules of the texts that it keeps.
fn with_modules<D: Disk>(alloc: Global, opened: Opened<D>) -> Result<OpenStore<D>, StoreRefused<D>>
    ensures opens { IfOk result (λ open_store. (c : Contents) → Opens D.Disk c opened
        → AreTold D.Disk (disks_of opened) c → OpensStore D.Disk c open_store) }
    ensures is { IfOk result IsOpenStore }
    ensures read { IfOk result (λ open_store. (name : NamesDisk) → OnlyRead D.Disk
        (disk_named name (disks_of opened)) (store_disk name open_store.store)) }
    ensures counts_kept { IfOk result (λ open_store. (name : NamesDisk)
        → D.failures (store_disk name open_store.store)
        ≡ D.failures (disk_named name (disks_of opened))) }
    ensures refused { IfErr result (λ refused.
        ModulesRefused D.Disk opened refused.disks refused.fault) }
    ensures back { IfErr result
        (λ refused. WereOnlyRead D.Disk (disks_of opened) refused.disks) }
{
    let conf = match opened.conf().copy(alloc) {
        Ok(conf) => conf,
        Err(NoMemory) => return Err(close(opened, StoreFault::NoMemory)),
    };
    match make_modules(alloc, opened.confs()) {
        Ok((fresh, kept)) => match opened.adopt(alloc, fresh, kept) {
            Ok((store, hands)) => Ok(OpenStore { store, hands, conf }),
            Err(refused) => Err(refused),
        },
        Err(fault) => {
            let fault = modules_fault(opened.confs(), fault);
            Err(close(opened, fault))
        }
    }
}

/// Opens a store with the modules of the texts that it keeps. Each disk that is read is synced
/// first, and nothing is written. `Damaged` exactly where the disks are no part of any book, or
/// else a text that is kept is refused, or else the modules say other than the disks, with the
/// first place: of a text that is refused the gate of its configuration.
pub fn open_store<D: Disk>(alloc: Global, disks: Disks<D>) -> Result<OpenStore<D>, StoreRefused<D>>
    ensures opens { IfOk result (λ open_store. (c : Contents) → AreTold D.Disk disks c
        → OpensStore D.Disk c open_store) }
    ensures is { IfOk result IsOpenStore }
    ensures read { IfOk result (λ open_store. (name : NamesDisk) → OnlyRead D.Disk
        (disk_named name disks) (store_disk name open_store.store)) }
    ensures counts_kept { IfOk result (λ open_store. (name : NamesDisk)
        → D.failures (store_disk name open_store.store) ≡ D.failures (disk_named name disks)) }
    ensures refused { IfErr result (λ refused.
        OpenStoreRefused D.Disk disks refused.disks refused.fault) }
    ensures back { IfErr result (λ refused. WereOnlyRead D.Disk disks refused.disks) }
{
    match Opened::open(alloc, disks) {
        Ok(opened) => with_modules(alloc, opened),
        Err(refused) => Err(refused),
    }
}
