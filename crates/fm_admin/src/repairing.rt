//! A store that accepts what an operator said of repairs.

ghost use Rattle.std.specs.Prelude.{◌≡◌, ◌<◌, ◌≤◌, ◌^◌, List, length, IfOk, IfErr, IfSome};
ghost use Rattle.std.specs.Prelude.{OnOk};
ghost use Rattle.fm_admin.specs.Limits.{TakeLimit};
ghost use Rattle.fm_admin.specs.Repairing.{AreHandsAndEntry, IsRepairedBy, RepairDid};
ghost use Rattle.fm_admin.specs.Repairing.{RepairRefused, RepairsBook, TakeRefused};
ghost use Rattle.fm_admin.specs.Repairing.{TakesAndTells, TellsRepaired, TookOne};
ghost use Rattle.fm_admin.specs.Telling.{TellRefused, TellsBook, WasDrained};
ghost use Rattle.fm_core.specs.Book.{IsAdmitted, ModuleState};
ghost use Rattle.fm_drain.specs.DrainCalls.{AllFollow};
ghost use Rattle.fm_logs.specs.StoreBook.{StoreBook};
ghost use Rattle.fm_logs.specs.declared.disks.DiskName.TheVariants.{Flt};
ghost use Rattle.fm_store.specs.Cursors.{AreAtCursors};
ghost use Rattle.fm_store.specs.StoreLeft.{AreSameStore};
ghost use Rattle.fm_store.specs.StoreOf.{StoreStandsFor};
ghost use Rattle.dx_engine.specs.Diagnosers.{diagnosers};

use crate::marking::entry_by;
use crate::telling::drain_status;
use dx_engine::Diagnoser;
use fm_bytes::NoMemory;
use fm_command::RepairOrder;
use fm_core::{Hand, Module};
use fm_entry::Entry;
use fm_outer::Disk;
use fm_status::{Status, Wanted};
use fm_store::{Store, StoreFault};
use std::alloc::Global;

/// The number of the entry that was accepted, and what is wanted out of use then.
#[derive(Drop)]
pub struct Repaired {
    pub number: u64,
    pub wanted: Wanted,
}

/// What is told once the entry with this number was accepted.
fn repaired_of(alloc: Global, number: u64, status: &Status) -> Result<Option<Repaired>, NoMemory>
    ensures { IfOk result (TellsRepaired number status.now) }
{
    let wanted = status.wanted(alloc)?;
    Ok(Some(Repaired { number, wanted }))
}

/// Accepts the entry, drains the store again, and tells of it.
fn take_entry<D: Disk, M: Module>(
    store: &mut Store<D, M>,
    alloc: Global,
    hands: Vec<Hand<M>>,
    entry: Entry,
) -> Result<Option<Repaired>, StoreFault>
    requires few { length hands.items ≤ 8 }
    requires at_cursors { AreAtCursors M.Module store.old.logs hands.items }
    requires admitted { IsAdmitted entry }
    ensures took { IfOk result (TookOne D.Disk store.old store.new entry) }
    ensures refused { IfErr result
        (TakeRefused D.Disk M.Module store.old store.new hands.items entry) }
    ensures book { (fresh : List ModuleState) (k : StoreBook)
        → StoreStandsFor D.Disk fresh store.old k → AllFollow M.Module k.book hands.items
        → TakesAndTells D.Disk fresh store.old store.new k entry result
        (λ now told. IsRepairedBy k entry told) }
    ensures limit { (fresh : List ModuleState) (k : StoreBook)
        → StoreStandsFor D.Disk fresh store.old k → AllFollow M.Module k.book hands.items
        → IfErr result (TakeLimit store.old k entry) }
    ensures same_disks { AreSameStore D.Disk store.old store.new }
{
    let number = store.accept(alloc, entry)?;
    let (_hands, status) = drain_status(store, alloc, hands)?;
    Ok(repaired_of(alloc, number, &status)?)
}

/// Drains the store, and looks for the entry that says what the operator said and marks something.
/// The hands have come to the end.
fn find_entry<D: Disk>(
    store: &mut Store<D, Diagnoser>,
    alloc: Global,
    hands: Vec<Hand<Diagnoser>>,
    order: &RepairOrder,
) -> Result<(Vec<Hand<Diagnoser>>, Option<Entry>), StoreFault>
    requires few { length hands.items ≤ 8 }
    requires at_cursors { AreAtCursors diagnosers store.old.logs hands.items }
    requires moment { order.now.moment < 2 ^ 62 }
    ensures drained { OnOk result (WasDrained D.Disk store.old store.new) }
    ensures at_cursors { IfOk result
        (λ (now, _). AreAtCursors diagnosers store.new.logs now.items) }
    ensures as_many { IfOk result (λ (now, _). length now.items ≡ length hands.items) }
    ensures admitted { IfOk result (λ (_, entry). IfSome entry IsAdmitted) }
    ensures refused { IfErr result
        (TellRefused D.Disk diagnosers Flt store.old store.new hands.items) }
    ensures book { (fresh : List ModuleState) (k : StoreBook)
        → StoreStandsFor D.Disk fresh store.old k → AllFollow diagnosers k.book hands.items
        → TellsBook D.Disk fresh Flt store.old store.new k result
        (λ now found. AreHandsAndEntry diagnosers order.now k now found.0.items found.1) }
    ensures same_disks { AreSameStore D.Disk store.old store.new }
{
    let (hands, status) = drain_status(store, alloc, hands)?;
    let entry = entry_by(alloc, order, &status, &hands)?;
    Ok((hands, entry))
}

/// Drains the store, and accepts the entry that says what the operator said, where that marks a
/// suspect of the drained book, then drains it again. `None` where it marks none: then nothing is
/// accepted. No checkpoint is written.
pub fn repair<D: Disk>(
    store: &mut Store<D, Diagnoser>,
    alloc: Global,
    hands: Vec<Hand<Diagnoser>>,
    order: &RepairOrder,
) -> Result<Option<Repaired>, StoreFault>
    requires few { length hands.items ≤ 8 }
    requires at_cursors { AreAtCursors diagnosers store.old.logs hands.items }
    requires moment { order.now.moment < 2 ^ 62 }
    ensures did { IfOk result (RepairDid D.Disk store.old store.new) }
    ensures refused { IfErr result
        (RepairRefused D.Disk diagnosers store.old store.new hands.items) }
    ensures book { (fresh : List ModuleState) (k : StoreBook)
        → StoreStandsFor D.Disk fresh store.old k → AllFollow diagnosers k.book hands.items
        → RepairsBook D.Disk fresh store.old store.new k order.now result }
    ensures same_disks { AreSameStore D.Disk store.old store.new }
{
    match find_entry(store, alloc, hands, order) {
        Ok((hands, found)) => match found {
            Some(entry) => take_entry(store, alloc, hands, entry),
            None => Ok(None),
        },
        Err(fault) => Err(fault),
    }
}
