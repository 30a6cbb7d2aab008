//! A store that is drained, and what is told of its status.

ghost use Rattle.std.specs.Prelude.{◌≡◌, ◌≤◌, List, length, IfOk, IfErr, OnOk};
ghost use Rattle.fm_adm.specs.Faulty.{faulty_text};
ghost use Rattle.fm_admin.specs.Telling.{AreHandsAndStatus, IsFaultyOf, TellRefused, TellsBook};
ghost use Rattle.fm_admin.specs.Telling.{WasDrained};
ghost use Rattle.fm_core.specs.Book.{ModuleState};
ghost use Rattle.fm_core.specs.Drained.{drained};
ghost use Rattle.fm_drain.specs.DrainCalls.{AllFollow};
ghost use Rattle.fm_logs.specs.StoreBook.{StoreBook};
ghost use Rattle.fm_logs.specs.declared.disks.DiskName.TheVariants.{Flt};
ghost use Rattle.fm_store.specs.Cursors.{AreAtCursors};
ghost use Rattle.fm_store.specs.StoreLeft.{AreSameStore};
ghost use Rattle.fm_store.specs.StoreOf.{StoreStandsFor};

use fm_adm::write_faulty;
use fm_bytes::NoMemory;
use fm_core::{Hand, Module};
use fm_drain::{drain, read_status};
use fm_outer::Disk;
use fm_status::Status;
use fm_store::{Store, StoreFault};
use std::alloc::Global;

/// Drains the store, and reads its status: the hands, which have come to the end, and the rows.
pub(crate) fn drain_status<D: Disk, M: Module>(
    store: &mut Store<D, M>,
    alloc: Global,
    hands: Vec<Hand<M>>,
) -> Result<(Vec<Hand<M>>, Status), StoreFault>
    requires few { length hands.items ≤ 8 }
    requires at_cursors { AreAtCursors M.Module store.old.logs hands.items }
    ensures drained { OnOk result (WasDrained D.Disk store.old store.new) }
    ensures at_cursors { IfOk result
        (λ (now, _). AreAtCursors M.Module store.new.logs now.items) }
    ensures as_many { IfOk result (λ (now, _). length now.items ≡ length hands.items) }
    ensures refused { IfErr result
        (TellRefused D.Disk M.Module Flt store.old store.new hands.items) }
    ensures book { (fresh : List ModuleState) (k : StoreBook)
        → StoreStandsFor D.Disk fresh store.old k → AllFollow M.Module k.book hands.items
        → TellsBook D.Disk fresh Flt store.old store.new k result
        (λ now told. AreHandsAndStatus M.Module now told.0.items told.1) }
    ensures same_disks { AreSameStore D.Disk store.old store.new }
{
    let (hands, drained) = drain(store, alloc, hands);
    match drained {
        Ok(()) => match read_status(store, alloc) {
            Ok(status) => Ok((hands, status)),
            Err(fault) => Err(fault),
        },
        Err(fault) => Err(fault),
    }
}

/// The text of what is faulty.
fn faulty_of(alloc: Global, status: &Status, namespace: &[u8; 16]) -> Result<Vec<u8>, NoMemory>
    ensures { IfOk result (λ text. text.items ≡ faulty_text namespace.now status.now) }
{
    let mut text = Vec::new(alloc);
    write_faulty(alloc, status, namespace, &mut text)?;
    Ok(text)
}

/// Drains the store, and tells what is faulty: for each case that is solved and not yet repaired a
/// line with its UUID under the namespace, and a line for each of its suspects. No checkpoint is
/// written.
pub fn tell_faulty<D: Disk, M: Module>(
    store: &mut Store<D, M>,
    alloc: Global,
    hands: Vec<Hand<M>>,
    namespace: &[u8; 16],
) -> Result<Vec<u8>, StoreFault>
    requires few { length hands.items ≤ 8 }
    requires at_cursors { AreAtCursors M.Module store.old.logs hands.items }
    ensures drained { OnOk result (WasDrained D.Disk store.old store.new) }
    ensures refused { IfErr result
        (TellRefused D.Disk M.Module Flt store.old store.new hands.items) }
    ensures book { (fresh : List ModuleState) (k : StoreBook)
        → StoreStandsFor D.Disk fresh store.old k → AllFollow M.Module k.book hands.items
        → TellsBook D.Disk fresh Flt store.old store.new k result
        (λ now text. IsFaultyOf namespace.now (drained k.book) text.items) }
    ensures same_disks { AreSameStore D.Disk store.old store.new }
{
    let (_hands, status) = drain_status(store, alloc, hands)?;
    Ok(faulty_of(alloc, &status, namespace)?)
}
