//! A store that is drained and rotated.

ghost use Rattle.std.specs.Prelude.{◌≡◌, ◌≤◌, List, length, IfOk, IfErr, OnOk};
ghost use Rattle.fm_admin.specs.Rotation.{IsRotated, RotatesDrained, RotationRefused};
ghost use Rattle.fm_core.specs.Book.{ModuleState};
ghost use Rattle.fm_drain.specs.DrainCalls.{AllFollow};
ghost use Rattle.fm_logs.specs.StoreBook.{StoreBook};
ghost use Rattle.fm_logs.specs.declared.disks.DiskName.{DiskName};
ghost use Rattle.fm_store.specs.Cursors.{AreAtCursors};
ghost use Rattle.fm_store.specs.StoreLeft.{AreSameStore, store_disk};
ghost use Rattle.fm_store.specs.StoreOf.{StoreStandsFor};

use fm_core::{Hand, Module};
use fm_drain::drain;
use fm_outer::Disk;
use fm_store::{Store, StoreFault};
use std::alloc::Global;

/// Drains the store, and rotates it: entries to come go into another journal, and the base is moved
/// to the end. The new base.
pub fn rotate_drained<D: Disk, M: Module>(
    store: &mut Store<D, M>,
    alloc: Global,
    hands: Vec<Hand<M>>,
) -> Result<u64, StoreFault>
    requires few { length hands.items ≤ 8 }
    requires at_cursors { AreAtCursors M.Module store.old.logs hands.items }
    ensures rotated { IfOk result (IsRotated store.old store.new) }
    ensures quiet { OnOk result ((name : DiskName)
        → D.failures (store_disk name store.new) ≡ D.failures (store_disk name store.old)) }
    ensures refused { IfErr result
        (RotationRefused D.Disk M.Module store.old store.new hands.items) }
    ensures book { (fresh : List ModuleState) (k : StoreBook)
        → StoreStandsFor D.Disk fresh store.old k → AllFollow M.Module k.book hands.items
        → RotatesDrained D.Disk fresh store.old store.new k result }
    ensures same_disks { AreSameStore D.Disk store.old store.new }
{
    let (hands, drained) = drain(store, alloc, hands);
    match drained {
        Ok(()) => store.rotate(alloc, &hands),
        Err(fault) => Err(fault),
    }
}
