// How often a disk is called that is lent.
use fm_journal::{Frame, Journal};
use fm_outer::{Disk, MemDisk};
use std::alloc::Global;
use test_words::{ScriptFault, show_count};

/// A disk without bytes.
fn empty_disk(alloc: Global) -> Result<MemDisk, ScriptFault> {
    Ok(MemDisk::new(alloc, b"", 4096, 4096, Vec::new(alloc))?)
}

/// The disk after a journal of one payload was made on it.
fn with_one<D: Disk + Drop>(alloc: Global, disk: D) -> Result<D, ScriptFault> {
    let frame = Frame::new(alloc, b"x").ok().ok_or(ScriptFault::NoMemory)?;
    let mut journal = Journal::create(disk, 0)
        .ok()
        .ok_or(ScriptFault::NoSpelling)?;
    journal.append(&frame).ok().ok_or(ScriptFault::NoSpelling)?;
    Ok(journal.into_disk())
}

/// The disk after its journal was opened.
fn opened<D: Disk + Drop>(disk: D) -> Result<D, ScriptFault> {
    let journal = Journal::open(disk).ok().ok_or(ScriptFault::NoSpelling)?;
    Ok(journal.into_disk())
}

/// How often a disk is called while a journal is made on it, one payload is appended, and it is
/// opened again.
fn own_calls(alloc: Global) -> Result<u64, ScriptFault> {
    let disk: MemDisk = with_one(alloc, empty_disk(alloc)?)?;
    let disk: MemDisk = opened(disk)?;
    Ok(disk.calls())
}

/// The same of a disk that is lent.
fn lent_calls(alloc: Global) -> Result<u64, ScriptFault> {
    let mut disk = empty_disk(alloc)?;
    with_one(alloc, &mut disk)?;
    opened(&mut disk)?;
    Ok(disk.calls())
}

/// How often a disk is called, and one that is lent.
pub fn show_lent(alloc: Global, out: &mut String) -> Result<(), ScriptFault> {
    show_count("own", own_calls(alloc)? as usize, out)?;
    show_count(", lent", lent_calls(alloc)? as usize, out)
}
