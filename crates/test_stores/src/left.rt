// What a store has come to: how many of the mixed reports it has taken, and just these.
use crate::fold::{RECORD, base, entry_records, fault_records};
use crate::openings::{OpeningAnswer, answer_of_two};
use crate::runs::run;
use crate::steps::Step;
use crate::store_bytes::{FailingCalls, StoreBytes};
use fm_logs::DiskName;
use fm_outer::NoMemory;
use std::alloc::Global;

/// The bytes of the slot in force, which is open and has the greater sequence.
fn slot_in_force(bytes: &StoreBytes) -> &[u8] {
    let first = bytes.of(DiskName::SlotA);
    let second = bytes.of(DiskName::SlotB);
    if second.first() == Some(&1) && second.get(..9) > first.get(..9) {
        second
    } else {
        first
    }
}

/// The bytes of the error journal that a slot names.
fn journal_named<'a>(bytes: &'a StoreBytes, slot: &[u8]) -> &'a [u8] {
    if slot.get(13) == Some(&3) {
        bytes.of(DiskName::ErrB)
    } else {
        bytes.of(DiskName::ErrA)
    }
}

/// Whether the bytes are a slot whose base is behind so many reports.
fn is_base(alloc: Global, slot: &[u8], count: u64) -> Result<bool, NoMemory> {
    let base = base(alloc, count)?;
    let end = base.len().saturating_add(14);
    Ok(slot.first() == Some(&1) && slot.get(14..end) == Some(base.as_slice()))
}

/// Whether these records stand from the front of the bytes on, and a closed gate behind them.
fn begins_with(bytes: &[u8], records: &[u8]) -> bool {
    match (bytes.get(..records.len()), bytes.get(records.len())) {
        (Some(front), Some(gate)) => front == records && *gate != 1,
        _ => false,
    }
}

/// The first number of a journal.
fn first_number(bytes: &[u8]) -> u64 {
    let mut number = 0u64;
    for byte in bytes.get(8..16).unwrap_or(&[]) {
        number = number << 8 | u64::from(*byte);
    }
    number
}

/// Whether an error journal has the reports from its first number on, up to so many.
fn has_entries(alloc: Global, journal: &[u8], count: u64) -> Result<bool, NoMemory> {
    let records = entry_records(alloc, first_number(journal), count)?;
    Ok(begins_with(journal.get(16..).unwrap_or(&[]), &records))
}

/// Whether one of the records is this one.
fn has_record(records: &[u8], wanted: &[u8]) -> bool {
    records.chunks(RECORD).any(|record| record == wanted)
}

/// Whether the fault log has just what both modules say along so many reports, in any order.
fn has_words(alloc: Global, log: &[u8], count: u64) -> Result<bool, NoMemory> {
    let wanted = fault_records(alloc, count)?;
    let end = wanted.len().saturating_add(16);
    let Some(records) = log.get(16..end) else {
        return Ok(false);
    };
    let are_there = wanted
        .chunks(RECORD)
        .all(|record| has_record(records, record));
    Ok(are_there && log.get(end).is_some_and(|gate| *gate != 1))
}

/// Whether these are the bytes of a drained store whose base is behind so many mixed reports.
fn is_fold(alloc: Global, bytes: &StoreBytes, count: u64) -> Result<bool, NoMemory> {
    let slot = slot_in_force(bytes);
    let journal = journal_named(bytes, slot);
    Ok(
        is_base(alloc, slot, count)?
            && has_entries(alloc, journal, count)?
            && has_words(alloc, bytes.of(DiskName::Flt), count)?,
    )
}

/// The step behind which a store with so many reports has its base at its end.
fn step_to_end(reports: u64) -> Step {
    if reports == 0 {
        Step::Checkpoint
    } else {
        Step::End
    }
}

/// Whether the store drains to what just the first so many of the mixed reports come to.
fn comes_to(alloc: Global, bytes: &StoreBytes, reports: u64) -> Result<bool, NoMemory> {
    let steps = [step_to_end(reports)];
    let ran = run(alloc, bytes, FailingCalls::None, &steps, None)?;
    if ran.answer.fault.is_some() {
        return Ok(false);
    }
    is_fold(alloc, &ran.left, reports)
}

/// How many reports the store has taken. It is opened twice, tells the same both times, writes
/// nothing, and drains to what just the first so many of the mixed reports come to; `None` where it
/// does not.
pub fn reports_in(alloc: Global, bytes: &StoreBytes) -> Result<Option<u64>, NoMemory> {
    let OpeningAnswer::Tells((_, reports, _, _)) = answer_of_two(alloc, bytes)? else {
        return Ok(None);
    };
    if comes_to(alloc, bytes, reports)? {
        Ok(Some(reports))
    } else {
        Ok(None)
    }
}
