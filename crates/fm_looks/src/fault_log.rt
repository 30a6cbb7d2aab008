//! The fault log of a store, read and held against what the modules say.

ghost use Rattle.std.specs.Prelude.{◌≡◌, ◌+◌, ◌<◌, ◌≤◌, ◌^◌, ℕ, List, [], ◌∷◌, ◌++◌, length, All};
ghost use Rattle.std.specs.Prelude.{Some, None, IfOk, IfErr, OnOk, IfSome, IsNone, true, false};
ghost use Rattle.fm_outer.specs.Moments.{OnlyRead};
ghost use Rattle.fm_core.specs.Book.{Book};
ghost use Rattle.fm_entry.specs.Entries.{IsSpelled};
ghost use Rattle.fm_journal.specs.Keeps.{Keeps};
ghost use Rattle.fm_logs.specs.ReadsAsBook.{SpellsSpoken};
ghost use Rattle.fm_payloads.specs.Reading.{ReadingCause};
ghost use Rattle.fm_payloads.specs.Spelling.{SpellsNothing};
ghost use Rattle.fm_retrace.specs.Retracing.{AreNumbered, AreWithin, meanings_of};
ghost use Rattle.fm_retrace.specs.declared.retraced.Retraced.{Retraced};
ghost use Rattle.fm_looks.specs.FaultLog.{AreSameModules, BeginsAt, FaultsDamage, RecordsKept};
ghost use Rattle.fm_looks.specs.FaultLog.{RefusesRecord, SaysLog, TookRecords, records_disk};
ghost use Rattle.fm_looks.specs.Looks.{LookCause};

use crate::look::{LookFault, LookRefused, look_fault, open_log, refuse};
use fm_bytes::NoMemory;
use fm_core::Module;
use fm_entry::{Entry, Spoken, read_spoken};
use fm_journal::{Journal, Piece};
use fm_outer::Disk;
use fm_payloads::{ReadingFault, read_into};
use fm_retrace::{Retraced, retrace_record};
use std::alloc::Global;

/// The record that a payload spells; `None` exactly where it spells none.
fn record_in(alloc: Global, payload: &[u8]) -> Result<Option<Spoken>, NoMemory>
    ensures found { IfOk result (λ o. IfSome o (SpellsSpoken payload.now)) }
    ensures none { IfOk result (λ o. IsNone o → SpellsNothing SpellsSpoken payload.now) }
{
    read_spoken(alloc, payload)
}

/// Whether a payload is a record which its module says next. Then that has come there.
fn retrace_payload<M: Module>(
    alloc: Global,
    base: u64,
    entries: &[Entry],
    modules: &mut Vec<Retraced<M>>,
    payload: &[u8],
) -> Result<bool, NoMemory>
    requires few { base + length entries.now ≤ 2 ^ 46 }
    requires entries { All IsSpelled entries.now }
    requires numbered { AreNumbered (meanings_of M.Module modules.old.items) }
    ensures yes { IfOk result (λ says. says ≡ true → (start : List (Retraced M))
        (payloads : List (List ℕ))
        → TookRecords M.Module base entries.now start modules.old.items payloads
        → TookRecords M.Module base entries.now start modules.new.items
        (payloads ++ payload.now ∷ [])) }
    ensures no { IfOk result (λ says. says ≡ false
        → RefusesRecord M.Module base entries.now modules.old.items payload.now) }
    ensures kept { AreSameModules M.Module (base + length entries.now) modules.old.items
        modules.new.items }
{
    match record_in(alloc, payload)? {
        Some(record) => retrace_record(alloc, base, entries, modules, &record),
        None => Ok(false),
    }
}

/// Lets the modules take the entries from the base on again, as far as the records of an open log
/// tell that they had come. The place of the first payload that is no record which they say; `None`
/// where they say all, and then each has come to its floor. One record is in memory at a time.
fn retrace_log<D: Disk, M: Module>(
    alloc: Global,
    journal: &mut Journal<D>,
    base: u64,
    entries: &[Entry],
    modules: &mut Vec<Retraced<M>>,
) -> Result<Option<u64>, ReadingFault>
    requires is_open { journal.old.closed ≡ None }
    requires few { base + length entries.now ≤ 2 ^ 46 }
    requires entries { All IsSpelled entries.now }
    requires numbered { AreNumbered (meanings_of M.Module modules.old.items) }
    ensures says { IfOk result (λ stop. (payloads : List (List ℕ)) (k : Book)
        → Keeps D.Disk journal.old payloads
        → BeginsAt M.Module base entries.now modules.old.items k
        → SaysLog M.Module k payloads modules.new.items stop) }
    ensures kept { OnOk result (AreSameModules M.Module (base + length entries.now)
        modules.old.items modules.new.items) }
    ensures same { journal.new ≡ record journal.old { disk = journal.new.disk } }
    ensures still { OnlyRead D.Disk journal.old.disk journal.new.disk }
    ensures cause { IfErr result (ReadingCause D.Disk journal.old journal.new) }
    ensures count_kept { OnOk result (D.failures journal.new.disk ≡ D.failures journal.old.disk) }
{
    let mut piece = Piece::none();
    let mut buffer = Vec::new(alloc);
    let end = journal.end();
    let mut place = 16;
    'payloads: while place < end {
        let size = read_into(journal, &mut piece, place, &mut buffer)?;
        if !retrace_payload(alloc, base, entries, modules, &buffer[..size as usize])? {
            return Ok(Some(place));
        }
        place += 5 + size as u64;
    }
    Ok(None)
}

/// The fault log, and the modules, which have come to their floors.
#[derive(Drop)]
pub struct RecordsRead<D: Disk, M> {
    pub journal: Journal<D>,
    pub modules: Vec<Retraced<M>>,
}

/// Opens the fault log, of which the modules at the base say all records.
pub fn open_records<D: Disk, M: Module>(
    alloc: Global,
    disk: D,
    base: u64,
    entries: &[Entry],
    modules: Vec<Retraced<M>>,
) -> Result<RecordsRead<D, M>, LookRefused<D>>
    requires few { base + length entries.now ≤ 2 ^ 46 }
    requires entries { All IsSpelled entries.now }
    requires numbered { AreNumbered (meanings_of M.Module modules.items) }
    ensures passes { IfOk result (λ read. (c : List ℕ) (k : Book) → D.seen disk ≡ Some c
        → BeginsAt M.Module base entries.now modules.items k
        → RecordsKept D.Disk M.Module c k read.journal read.modules.items) }
    ensures is_open { IfOk result (λ read. read.journal.closed ≡ None) }
    ensures count_kept { IfOk result
        (λ read. D.failures read.journal.disk ≡ D.failures disk) }
    ensures kept { IfOk result (λ read. meanings_of M.Module read.modules.items
        ≡ meanings_of M.Module modules.items) }
    ensures within { IfOk result
        (λ read. AreWithin (base + length entries.now) modules.items
        → AreWithin (base + length entries.now) read.modules.items) }
    ensures still { OnlyRead D.Disk disk (records_disk result) }
    ensures cause { IfErr result (λ refused. LookCause D.Disk
        (FaultsDamage M.Module base entries.now modules.items) disk refused.disk refused.fault) }
{
    let mut journal = open_log(disk)?;
    let mut modules = modules;
    match retrace_log(alloc, &mut journal, base, entries, &mut modules) {
        Ok(None) => Ok(RecordsRead { journal, modules }),
        Ok(Some(place)) => Err(refuse(journal, LookFault::Damaged { place })),
        Err(fault) => Err(refuse(journal, look_fault(fault))),
    }
}
