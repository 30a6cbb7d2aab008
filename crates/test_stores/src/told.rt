// What stores, their records and their runs come to, as text.
use crate::fault::ScriptFault;
use crate::openings::OpeningAnswer;
use crate::runs::{Ran, RunAnswer};
use crate::store_bytes::{NAMES, StoreBytes};
use fm_entry::{CaseName, ListEvent, Spoken};
use fm_logs::{DiskName, StoreFault};
use fm_status::Status;
use std::alloc::{AllocError, Global};
use test_small_store::Told;

/// The name of a disk.
pub fn name_text(disk: DiskName) -> &'static str {
    match disk {
        DiskName::Conf => "conf",
        DiskName::ErrA => "err_a",
        DiskName::ErrB => "err_b",
        DiskName::SlotA => "slot_a",
        DiskName::SlotB => "slot_b",
        DiskName::Flt => "flt",
    }
}

/// The disk that closed a store, and its count of failures.
pub fn closed_text(alloc: Global, disk: DiskName, faults: u64) -> Result<String, AllocError> {
    let name = name_text(disk);
    format!(in alloc; "closed by {name} {faults}")
}

/// Why a call was refused.
pub fn fault_text(alloc: Global, fault: StoreFault) -> Result<String, AllocError> {
    match fault {
        StoreFault::Disk => String::from_str(alloc, "disk fault"),
        StoreFault::Full(kind) => format!(in alloc; "full {kind:?}"),
        StoreFault::Closed { disk, faults } => closed_text(alloc, disk, faults),
        StoreFault::Damaged { disk, place } => {
            let name = name_text(disk);
            format!(in alloc; "damaged {name} {place}")
        }
        StoreFault::Exists => String::from_str(alloc, "store exists"),
        StoreFault::NoMemory => String::from_str(alloc, "no memory"),
    }
}

/// The base, the number of the next entry, and both cursors.
pub fn told_text(alloc: Global, told: Told) -> Result<String, AllocError> {
    let (base, next, first, second) = told;
    format!(in alloc; "base {base} next {next} cursors {first} {second}")
}

/// The module and the number of each record.
pub fn records_text(alloc: Global, records: &[Spoken]) -> Result<String, AllocError> {
    let mut text = String::from_str(alloc, "spoken")?;
    for record in records {
        let number = record.number;
        let module = record.module;
        let item = format!(in alloc; " {number}/{module}")?;
        text.push_str(&item)?;
    }
    Ok(text)
}

/// What is known of a case.
fn put_row(alloc: Global, row: &ListEvent, text: &mut String) -> Result<(), AllocError> {
    let CaseName { module, case } = row.case;
    let kind = row.kind;
    let item = format!(in alloc; " {module}/{case} {kind:?}")?;
    text.push_str(&item)
}

/// What is known of each case.
pub fn rows_text(alloc: Global, status: &Status) -> Result<String, ScriptFault> {
    let mut text = String::from_str(alloc, "rows")?;
    for row in status.rows(alloc)? {
        put_row(alloc, row, &mut text)?;
    }
    Ok(text)
}

/// What openings come to.
pub fn opening_text(alloc: Global, answer: OpeningAnswer) -> Result<String, AllocError> {
    match answer {
        OpeningAnswer::Tells(told) => told_text(alloc, told),
        OpeningAnswer::Refused(fault) => fault_text(alloc, fault),
        OpeningAnswer::Wrote => String::from_str(alloc, "an opening wrote"),
        OpeningAnswer::Differ => String::from_str(alloc, "openings differ"),
    }
}

/// Which disks were written.
pub fn wrote_text(
    alloc: Global,
    before: &StoreBytes,
    after: &StoreBytes,
) -> Result<String, AllocError> {
    let mut text = String::from_str(alloc, "wrote")?;
    for disk in NAMES {
        if before.of(disk) != after.of(disk) {
            text.push_str(" ")?;
            text.push_str(name_text(disk))?;
        }
    }
    if before.equals(after) {
        text.push_str(" nothing")?;
    }
    Ok(text)
}

/// What was met, and what closed the store.
fn met_text(
    alloc: Global,
    fault: StoreFault,
    closed: Option<(DiskName, u64)>,
) -> Result<String, AllocError> {
    let fault = fault_text(alloc, fault)?;
    match closed {
        Some((disk, faults)) => {
            let closed = closed_text(alloc, disk, faults)?;
            format!(in alloc; "{fault}, {closed}")
        }
        None => Ok(fault),
    }
}

/// What a run told at its end, or what it met.
fn answer_text(alloc: Global, answer: RunAnswer) -> Result<String, AllocError> {
    match answer.fault {
        Some(fault) => met_text(alloc, fault, answer.closed),
        None => told_text(alloc, answer.told),
    }
}

/// What a run over these bytes came to, and which disks it wrote.
pub fn ran_text(alloc: Global, before: &StoreBytes, ran: &Ran) -> Result<String, AllocError> {
    let answer = answer_text(alloc, ran.answer)?;
    let wrote = wrote_text(alloc, before, &ran.left)?;
    format!(in alloc; "{answer}, {wrote}")
}

/// How many reports a store has.
pub fn reports_text(alloc: Global, reports: Option<u64>) -> Result<String, AllocError> {
    match reports {
        Some(reports) => format!(in alloc; "{reports}"),
        None => String::from_str(alloc, "another store"),
    }
}

/// What a run came to that stopped, and how many reports the store has then.
pub fn left_text(
    alloc: Global,
    answer: RunAnswer,
    reports: Option<u64>,
) -> Result<String, AllocError> {
    let reports = reports_text(alloc, reports)?;
    let taken = answer.taken;
    match answer.fault {
        Some(fault) => {
            let fault = fault_text(alloc, fault)?;
            format!(in alloc; "{fault}, answered {taken}, left {reports}")
        }
        None => format!(in alloc; "answered {taken}, left {reports}"),
    }
}
