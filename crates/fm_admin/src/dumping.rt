//! A store that is drained, and the texts of its logs.

ghost use Rattle.std.specs.Prelude.{◌≡◌, ◌+◌, ◌≤◌, ◌^◌, List, length, IfOk, IfErr, OnOk};
ghost use Rattle.fm_admin.specs.Dumping.{DumpsErrors, IsErrorsOf, IsErrorsText, IsFaultsOf};
ghost use Rattle.fm_admin.specs.Dumping.{IsFaultsText};
ghost use Rattle.fm_admin.specs.Telling.{TellRefused, TellsBook, WasDrained};
ghost use Rattle.fm_core.specs.Book.{ModuleState};
ghost use Rattle.fm_drain.specs.DrainCalls.{AllFollow};
ghost use Rattle.fm_dump.specs.Errors.{errors_text};
ghost use Rattle.fm_dump.specs.Faults.{faults_text};
ghost use Rattle.fm_logs.specs.LogReads.{ReadsLogged, ReadsSpoken, UnreadLog};
ghost use Rattle.fm_logs.specs.LogsOf.{name_of_two};
ghost use Rattle.fm_logs.specs.StoreBook.{StoreBook};
ghost use Rattle.fm_logs.specs.declared.disks.DiskName.TheVariants.{Flt};
ghost use Rattle.fm_store.specs.Cursors.{AreAtCursors};
ghost use Rattle.fm_store.specs.StoreLeft.{AreSameStore};
ghost use Rattle.fm_store.specs.StoreOf.{StoreStandsFor};
ghost use Rattle.fm_store.specs.StoreReading.{IsNoDamage};

use fm_bytes::NoMemory;
use fm_core::{Hand, Module};
use fm_drain::drain;
use fm_dump::{DumpOptions, write_errors, write_faults};
use fm_entry::{Entry, Spoken};
use fm_outer::Disk;
use fm_store::{Store, StoreFault};
use std::alloc::Global;

/// The text of records.
fn faults_of(
    alloc: Global,
    namespace: &[u8; 16],
    options: &DumpOptions,
    records: &[Spoken],
) -> Result<Vec<u8>, NoMemory>
    ensures { IfOk result
        (λ text. text.items ≡ faults_text options.now namespace.now records.now) }
{
    let mut text = Vec::new(alloc);
    write_faults(alloc, records, namespace, options, &mut text)?;
    Ok(text)
}

/// The text of the records of the fault log, which is read once, and nothing else is done.
fn read_faults<D: Disk, M>(
    store: &mut Store<D, M>,
    alloc: Global,
    namespace: &[u8; 16],
    options: &DumpOptions,
) -> Result<Vec<u8>, StoreFault>
    ensures reads { ReadsSpoken D.Disk store.old.logs store.new.logs }
    ensures base_same { store.new.base ≡ store.old.base }
    ensures text { IfOk result (λ text. IsFaultsOf D.Disk options.now namespace.now
        store.old.logs store.new.logs text.items) }
    ensures refused { IfErr result (UnreadLog D.Disk Flt store.old.logs store.new.logs
        store.old.logs.flt.disk store.new.logs.flt.disk) }
    ensures book { (fresh : List ModuleState) (k : StoreBook)
        → StoreStandsFor D.Disk fresh store.old k → StoreStandsFor D.Disk fresh store.new k }
    ensures told { (fresh : List ModuleState) (k : StoreBook)
        → StoreStandsFor D.Disk fresh store.old k → IfOk result (λ text.
        IsFaultsText options.now namespace.now k.book.records text.items) }
    ensures undamaged { (fresh : List ModuleState) (k : StoreBook)
        → StoreStandsFor D.Disk fresh store.old k → IfErr result IsNoDamage }
    ensures same_disks { AreSameStore D.Disk store.old store.new }
{
    let records = store.spoken(alloc)?;
    Ok(faults_of(alloc, namespace, options, &records)?)
}

/// Drains the store, and dumps the words about cases that its fault log has, with UUIDs under the
/// namespace.
pub fn dump_faults<D: Disk, M: Module>(
    store: &mut Store<D, M>,
    alloc: Global,
    hands: Vec<Hand<M>>,
    namespace: &[u8; 16],
    options: &DumpOptions,
) -> Result<Vec<u8>, StoreFault>
    requires few { length hands.items ≤ 8 }
    requires at_cursors { AreAtCursors M.Module store.old.logs hands.items }
    ensures drained { OnOk result (WasDrained D.Disk store.old store.new) }
    ensures refused { IfErr result
        (TellRefused D.Disk M.Module Flt store.old store.new hands.items) }
    ensures book { (fresh : List ModuleState) (k : StoreBook)
        → StoreStandsFor D.Disk fresh store.old k → AllFollow M.Module k.book hands.items
        → TellsBook D.Disk fresh Flt store.old store.new k result (λ now text.
        IsFaultsText options.now namespace.now now.book.records text.items) }
    ensures same_disks { AreSameStore D.Disk store.old store.new }
{
    let (hands, drained) = drain(store, alloc, hands);
    match drained {
        Ok(()) => read_faults(store, alloc, namespace, options),
        Err(fault) => Err(fault),
    }
}

/// The text of entries, of which the first has this number.
fn errors_of(
    alloc: Global,
    first: u64,
    entries: &[Entry],
    options: &DumpOptions,
) -> Result<Vec<u8>, NoMemory>
    requires { first + length entries.now ≤ 2 ^ 64 }
    ensures { IfOk result (λ text. text.items ≡ errors_text options.now first entries.now) }
{
    let mut text = Vec::new(alloc);
    write_errors(alloc, first, entries, options, &mut text)?;
    Ok(text)
}

/// The text of the entries of the active error journal, which is read once, and nothing else is
/// done.
fn read_errors<D: Disk, M>(
    store: &mut Store<D, M>,
    alloc: Global,
    options: &DumpOptions,
) -> Result<Vec<u8>, StoreFault>
    ensures reads { ReadsLogged D.Disk store.old.logs store.new.logs }
    ensures base_same { store.new.base ≡ store.old.base }
    ensures text { IfOk result (λ text.
        IsErrorsOf D.Disk options.now store.old.logs store.new.logs text.items) }
    ensures refused { IfErr result (UnreadLog D.Disk (name_of_two store.old.logs.second)
        store.old.logs store.new.logs store.old.logs.active.disk store.new.logs.active.disk) }
    ensures book { (fresh : List ModuleState) (k : StoreBook)
        → StoreStandsFor D.Disk fresh store.old k → StoreStandsFor D.Disk fresh store.new k }
    ensures told { (fresh : List ModuleState) (k : StoreBook)
        → StoreStandsFor D.Disk fresh store.old k → IfOk result (λ text.
        IsErrorsText options.now store.old.logs.active.first k.book text.items) }
    ensures undamaged { (fresh : List ModuleState) (k : StoreBook)
        → StoreStandsFor D.Disk fresh store.old k → IfErr result IsNoDamage }
    ensures same_disks { AreSameStore D.Disk store.old store.new }
{
    let entries = store.logged(alloc)?;
    let first = store.next_entry().saturating_sub(entries.len() as u64);
    Ok(errors_of(alloc, first, &entries, options)?)
}

/// Drains the store, and dumps the entries that its active error journal has.
pub fn dump_errors<D: Disk, M: Module>(
    store: &mut Store<D, M>,
    alloc: Global,
    hands: Vec<Hand<M>>,
    options: &DumpOptions,
) -> Result<Vec<u8>, StoreFault>
    requires few { length hands.items ≤ 8 }
    requires at_cursors { AreAtCursors M.Module store.old.logs hands.items }
    ensures dumped { IfOk result
        (λ text. DumpsErrors D.Disk options.now store.old store.new text.items) }
    ensures refused { IfErr result (TellRefused D.Disk M.Module
        (name_of_two store.old.logs.second) store.old store.new hands.items) }
    ensures book { (fresh : List ModuleState) (k : StoreBook)
        → StoreStandsFor D.Disk fresh store.old k → AllFollow M.Module k.book hands.items
        → TellsBook D.Disk fresh (name_of_two store.old.logs.second) store.old store.new k result
        (λ now text. IsErrorsText options.now store.old.logs.active.first now.book text.items) }
    ensures same_disks { AreSameStore D.Disk store.old store.new }
{
    let (hands, drained) = drain(store, alloc, hands);
    match drained {
        Ok(()) => read_errors(store, alloc, options),
        Err(fault) => Err(fault),
    }
}
