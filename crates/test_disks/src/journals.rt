// Journals over the disk: made, opened, appended to and read.
use crate::setting::Setting;
use fm_journal::{Frame, FrameFault, FullKind, Journal, JournalFault, Refused};
use fm_outer::{Disk, MemDisk};
use std::alloc::Global;
use test_words::{Named, ScriptFault, first_word, number_in, show_bytes, show_count, show_number};

/// Appends why a journal did not do what it was asked.
pub fn show_fault(fault: JournalFault, out: &mut String) -> Result<(), ScriptFault> {
    match fault {
        JournalFault::Disk => out.push_str("disk fault")?,
        JournalFault::Full(FullKind::Numbers) => out.push_str("full numbers")?,
        JournalFault::Full(_) => out.push_str("full")?,
        JournalFault::Damaged { place } => show_count("damaged", place as usize, out)?,
        JournalFault::Closed { faults } => show_count("closed by", faults as usize, out)?,
    }
    Ok(())
}

/// Appends the first number, how many payloads there are, the place of the last gate, and what
/// closed the journal.
fn show_journal(journal: &Journal<MemDisk>, out: &mut String) -> Result<(), ScriptFault> {
    show_count("first", journal.first() as usize, out)?;
    show_count(" count", journal.count() as usize, out)?;
    show_count(" end", journal.end() as usize, out)?;
    match journal.closed() {
        Some(faults) => show_count(" closed", faults as usize, out),
        None => Ok(out.push_str(" open")?),
    }
}

/// Appends the number that a payload was given.
fn show_number_of(answer: Result<u64, JournalFault>, out: &mut String) -> Result<(), ScriptFault> {
    match answer {
        Ok(number) => show_number(number, out),
        Err(fault) => show_fault(fault, out),
    }
}

/// Adds a payload at the end.
fn append(
    alloc: Global,
    journal: &mut Journal<MemDisk>,
    payload: &[u8],
    out: &mut String,
) -> Result<(), ScriptFault> {
    match Frame::new(alloc, payload) {
        Ok(frame) => show_number_of(journal.append(&frame), out),
        Err(FrameFault::TooLong) => Ok(out.push_str("too long")?),
        Err(FrameFault::NoMemory) => Err(ScriptFault::NoMemory),
    }
}

/// Appends how many bytes the payload at a place has.
fn show_size(
    journal: &mut Journal<MemDisk>,
    place: u64,
    out: &mut String,
) -> Result<(), ScriptFault> {
    match journal.size(place) {
        Ok(Some(size)) => show_number(u64::from(size), out),
        Ok(None) => Ok(out.push_str("none")?),
        Err(fault) => show_fault(fault, out),
    }
}

/// Reads the payload at a place into so many bytes.
fn read(
    alloc: Global,
    journal: &mut Journal<MemDisk>,
    place: u64,
    count: u64,
    out: &mut String,
) -> Result<(), ScriptFault> {
    let mut into = vec![in alloc; 0; count as usize]?;
    match journal.read(place, &mut into) {
        Ok(next) => {
            show_bytes(&into, out)?;
            show_count(" next", next as usize, out)
        }
        Err(fault) => show_fault(fault, out),
    }
}

/// Makes a step of a journal.
fn step(
    alloc: Global,
    named: &Named,
    journal: &mut Journal<MemDisk>,
    text: &str,
    out: &mut String,
) -> Result<(), ScriptFault> {
    let (word, rest) = first_word(text);
    match word {
        "append" => append(alloc, journal, &named.bytes_in(alloc, rest)?, out),
        "size" => show_size(journal, number_in(rest)?, out),
        "read" => {
            let (place, count) = first_word(rest);
            read(alloc, journal, number_in(place)?, number_in(count)?, out)
        }
        _ => Err(ScriptFault::Words),
    }
}

/// Makes steps of a journal, with commas between them.
fn make_steps(
    alloc: Global,
    named: &Named,
    journal: &mut Journal<MemDisk>,
    steps: &str,
    out: &mut String,
) -> Result<(), ScriptFault> {
    for text in steps.split(", ") {
        if !text.is_empty() {
            step(alloc, named, journal, text, out)?;
            out.push_str(", ")?;
        }
    }
    Ok(())
}

/// Appends why a disk was refused, and leaves it.
fn leave_refused(
    alloc: Global,
    setting: &mut Setting,
    refused: Refused<MemDisk>,
    out: &mut String,
) -> Result<(), ScriptFault> {
    show_fault(refused.fault, out)?;
    setting.leave(alloc, refused.into_disk(), out)
}

/// Appends what a journal is, and leaves its disk.
fn leave_journal(
    alloc: Global,
    setting: &mut Setting,
    journal: Journal<MemDisk>,
    out: &mut String,
) -> Result<(), ScriptFault> {
    show_journal(&journal, out)?;
    setting.leave(alloc, journal.into_disk(), out)
}

/// Opens the journal on the disk, and makes steps of it.
pub fn use_journal(
    alloc: Global,
    named: &Named,
    setting: &mut Setting,
    steps: &str,
    out: &mut String,
) -> Result<(), ScriptFault> {
    match Journal::open(setting.disk(alloc)?) {
        Ok(mut journal) => {
            let done = make_steps(alloc, named, &mut journal, steps, out);
            leave_journal(alloc, setting, journal, out)?;
            done
        }
        Err(refused) => leave_refused(alloc, setting, refused, out),
    }
}

/// Makes a journal on the disk, whose first number this is.
pub fn create(
    alloc: Global,
    setting: &mut Setting,
    first: u64,
    out: &mut String,
) -> Result<(), ScriptFault> {
    if first >= 1 << 46 {
        return Err(ScriptFault::Words);
    }
    match Journal::create(setting.disk(alloc)?, first) {
        Ok(journal) => leave_journal(alloc, setting, journal, out),
        Err(refused) => leave_refused(alloc, setting, refused, out),
    }
}

/// Whether so many zeros are a frame.
pub fn show_frame(alloc: Global, count: u64, out: &mut String) -> Result<(), ScriptFault> {
    let payload = vec![in alloc; 0; count as usize]?;
    match Frame::new(alloc, &payload) {
        Ok(_frame) => Ok(out.push_str("a frame")?),
        Err(FrameFault::TooLong) => Ok(out.push_str("too long")?),
        Err(FrameFault::NoMemory) => Err(ScriptFault::NoMemory),
    }
}

/// The bytes of a journal of so many payloads, each of so many bytes.
pub fn many(alloc: Global, count: u64, length: u32) -> Result<Vec<u8>, ScriptFault> {
    let mut bytes = b"FMAJRNL1\0\0\0\0\0\0\0\0\0".to_vec(alloc)?;
    let payload = vec![in alloc; 7; length as usize]?;
    for _ in 0..count {
        bytes.pop();
        bytes.push(1)?;
        bytes.extend_from_slice(&length.to_be_bytes())?;
        bytes.extend_from_slice(&payload)?;
        bytes.push(0)?;
    }
    Ok(bytes)
}
