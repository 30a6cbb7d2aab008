//! The drain of a store, and the checkpoint that follows it.

ghost use Rattle.std.specs.Prelude.{◌≤◌, List, length, IfErr, OnOk};
ghost use Rattle.fm_core.specs.Book.{ModuleState};
ghost use Rattle.fm_drain.specs.DrainCalls.{AllFollow};
ghost use Rattle.fm_logs.specs.StoreBook.{StoreBook};
ghost use Rattle.fm_drain.specs.ToBase.{ToBaseDoes, ToBaseRefused, ToBaseOnBook, IsAtBase};
ghost use Rattle.fm_store.specs.Cursors.{AreAtCursors};
ghost use Rattle.fm_store.specs.StoreLeft.{AreSameStore};
ghost use Rattle.fm_store.specs.StoreOf.{StoreStandsFor};

use crate::draining::drain;
use fm_core::{Hand, Module};
use fm_outer::Disk;
use fm_store::{Store, StoreFault};
use std::alloc::Global;

/// Drains the store, and moves its base to its end by a checkpoint. There is a hand of each module,
/// at the module's cursor, and it comes back. Where no entry is past the base nothing is written.
/// After a refusal the hand of one module may be a step past the module's cursor.
pub fn drain_to_base<D: Disk, M: Module>(
    store: &mut Store<D, M>,
    alloc: Global,
    hands: Vec<Hand<M>>,
) -> (Vec<Hand<M>>, Result<(), StoreFault>)
    requires few { length hands.items ≤ 8 }
    requires at_cursors { AreAtCursors M.Module store.old.logs hands.items }
    ensures does { ToBaseDoes D.Disk M.Module store.old store.new hands.items result.0.items
        result.1 }
    ensures at_base { OnOk result.1 (IsAtBase M.Module store.old store.new result.0.items) }
    ensures refused { IfErr result.1 (ToBaseRefused D.Disk store.old store.new) }
    ensures book { (fresh : List ModuleState) (k : StoreBook)
        → StoreStandsFor D.Disk fresh store.old k → AllFollow M.Module k.book hands.items
        → ToBaseOnBook D.Disk M.Module fresh store.old store.new k result.0.items result.1 }
    ensures same_disks { AreSameStore D.Disk store.old store.new }
{
    if let Some((disk, faults)) = store.closed() {
        return (hands, Err(StoreFault::Closed { disk, faults }));
    }
    if store.entries().is_empty() {
        return (hands, Ok(()));
    }
    let (hands, drained) = drain(store, alloc, hands);
    match drained {
        Ok(()) => {
            let based = store.checkpoint(alloc, &hands);
            (hands, based)
        }
        Err(fault) => (hands, Err(fault)),
    }
}
