//! A store drained to its base, and what is told of its drained book.

ghost use Rattle.std.specs.Prelude.{◌≡◌, ◌≤◌, ◌^◌, IsTrue, List, length, IfOk, IfErr, OnOk};
ghost use Rattle.fm_core.specs.Book.{Book, ModuleState, is_done, next_number};
ghost use Rattle.fm_core.specs.Drained.{drained};
ghost use Rattle.fm_drain.specs.DrainCalls.{AllFollow};
ghost use Rattle.fm_logs.specs.LogReads.{ReadsSpoken, UnreadLog};
ghost use Rattle.fm_logs.specs.StoreBook.{StoreBook};
ghost use Rattle.fm_logs.specs.declared.disks.DiskName.TheVariants.{Flt};
ghost use Rattle.fm_drain.specs.CaseStatus.{IsStatusOf};
ghost use Rattle.fm_store.specs.Cursors.{AreAtCursors};
ghost use Rattle.fm_store.specs.StoreCalls.{HandsAreDone, next_entry};
ghost use Rattle.fm_store.specs.StoreLeft.{AreSameStore};
ghost use Rattle.fm_store.specs.StoreOf.{StoreStandsFor};
ghost use Rattle.fm_store.specs.StoreReading.{IsNoDamage};
ghost use Rattle.dx_engine.specs.Diagnosers.{diagnosers};
ghost use Rattle.fm_conclude.specs.Concluding.{ConcludeRefused, ConcludesBook, FullAtLimit};
ghost use Rattle.fm_conclude.specs.Concluding.{IsConcluded, NoDiskFailed, TellsOf};

use crate::summing::write_drained;
use dx_engine::Diagnoser;
use fm_bytes::NoMemory;
use fm_core::Hand;
use fm_drain::{drain_to_base, read_status};
use fm_outer::Disk;
use fm_status::{Status, Wanted};
use fm_store::{Store, StoreFault};
use std::alloc::Global;

/// What is told of a drained book: the text of its summary, and what it wants out of use.
#[derive(Drop)]
pub struct Conclusion {
    pub summary: Vec<u8>,
    pub wanted: Wanted,
}

/// What is told of a book that the hands have come to the end of.
fn conclusion_of(
    alloc: Global,
    entries: u64,
    hands: &[Hand<Diagnoser>],
    status: &Status,
) -> Result<Conclusion, NoMemory>
    ensures { IfOk result (λ told. (k : Book) → HandsAreDone diagnosers k hands.now
        → entries ≡ next_number k → IsStatusOf (drained k) status.now
        → TellsOf (drained k) told) }
{
    let mut summary = Vec::new(alloc);
    let wanted = write_drained(alloc, entries, hands, status, &mut summary)?;
    Ok(Conclusion { summary, wanted })
}

/// What is told of the book that the store stands for, where all modules and hands are at its end.
/// The records are read, and nothing else is done.
fn read_conclusion<D: Disk>(
    store: &mut Store<D, Diagnoser>,
    alloc: Global,
    hands: &[Hand<Diagnoser>],
) -> Result<Conclusion, StoreFault>
    ensures reads { ReadsSpoken D.Disk store.old.logs store.new.logs }
    ensures base_same { store.new.base ≡ store.old.base }
    ensures count_kept { OnOk result
        (D.failures store.new.logs.flt.disk ≡ D.failures store.old.logs.flt.disk) }
    ensures few { OnOk result (next_entry store.new.logs ≤ 2 ^ 46) }
    ensures refused { IfErr result (UnreadLog D.Disk Flt store.old.logs store.new.logs
        store.old.logs.flt.disk store.new.logs.flt.disk) }
    ensures book { (fresh : List ModuleState) (k : StoreBook)
        → StoreStandsFor D.Disk fresh store.old k → StoreStandsFor D.Disk fresh store.new k }
    ensures tells { (fresh : List ModuleState) (k : StoreBook)
        → StoreStandsFor D.Disk fresh store.old k → HandsAreDone diagnosers k.book hands.now
        → IsTrue (is_done k.book) → IfOk result (TellsOf (drained k.book)) }
    ensures undamaged { (fresh : List ModuleState) (k : StoreBook)
        → StoreStandsFor D.Disk fresh store.old k → IfErr result IsNoDamage }
    ensures same_disks { AreSameStore D.Disk store.old store.new }
{
    let status = read_status(store, alloc)?;
    Ok(conclusion_of(alloc, store.next_entry(), hands, &status)?)
}

/// Drains the store, moves its base to its end by a checkpoint, and tells of the drained book. A
/// hand of each module is at the module's cursor. Where no entry is past the base nothing is
/// written.
pub fn conclude<D: Disk>(
    store: &mut Store<D, Diagnoser>,
    alloc: Global,
    hands: Vec<Hand<Diagnoser>>,
) -> Result<Conclusion, StoreFault>
    requires few { length hands.items ≤ 8 }
    requires at_cursors { AreAtCursors diagnosers store.old.logs hands.items }
    ensures quiet { OnOk result (NoDiskFailed D.Disk store.old store.new) }
    ensures concluded { OnOk result (IsConcluded store.old store.new) }
    ensures refused { IfErr result (ConcludeRefused D.Disk store.old store.new) }
    ensures limit { IfErr result (FullAtLimit D.Disk diagnosers store.old store.new hands.items) }
    ensures book { (fresh : List ModuleState) (k : StoreBook)
        → StoreStandsFor D.Disk fresh store.old k → AllFollow diagnosers k.book hands.items
        → ConcludesBook D.Disk fresh store.old store.new k result }
    ensures same_disks { AreSameStore D.Disk store.old store.new }
{
    let (hands, based) = drain_to_base(store, alloc, hands);
    match based {
        Ok(()) => read_conclusion(store, alloc, &hands),
        Err(fault) => Err(fault),
    }
}
