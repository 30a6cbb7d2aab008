// A stop at each of some calls, with each image that a crash then leaves.
use crate::setting::{Setting, bytes_left, bytes_of};
use crate::slots::{found_of, replaced};
use fm_journal::{Frame, Journal, JournalFault};
use fm_outer::{Image, MemDisk};
use std::alloc::Global;
use test_words::{Named, ScriptFault, first_word, number_in, show_number};

/// What a crash may leave of each range that was not synced, and how it is called.
const IMAGES: [(&str, Image); 6] = [
    ("old", Image::Old),
    ("new", Image::New),
    ("0", Image::Fill(0)),
    ("1", Image::Fill(1)),
    ("7", Image::Fill(7)),
    ("255", Image::Fill(255)),
];

/// A work that is stopped.
#[derive(Clone, Copy)]
enum Work {
    Append,
    Create(u64),
    Replace(u64),
}

/// A disk that a work was stopped on, and whether the work was done.
type Stopped = (MemDisk, bool);

/// Adds a payload to the journal on the disk.
fn appended(alloc: Global, setting: &Setting, payload: &[u8]) -> Result<Stopped, ScriptFault> {
    let frame = Frame::new(alloc, payload)
        .ok()
        .ok_or(ScriptFault::NoMemory)?;
    match Journal::open(setting.disk(alloc)?) {
        Ok(mut journal) => {
            let done = journal.append(&frame).is_ok();
            Ok((journal.into_disk(), done))
        }
        Err(refused) => Ok((refused.into_disk(), false)),
    }
}

/// Makes a journal on the disk.
fn created(alloc: Global, setting: &Setting, first: u64) -> Result<Stopped, ScriptFault> {
    if first >= 1 << 46 {
        return Err(ScriptFault::Words);
    }
    match Journal::create(setting.disk(alloc)?, first) {
        Ok(journal) => Ok((journal.into_disk(), true)),
        Err(refused) => Ok((refused.into_disk(), false)),
    }
}

/// Puts a slot on the disk.
fn put(
    alloc: Global,
    setting: &Setting,
    sequence: u64,
    payload: &[u8],
) -> Result<Stopped, ScriptFault> {
    let (disk, answer) = replaced(alloc, setting, sequence, payload)?;
    Ok((disk, answer == "done"))
}

/// The place of the last gate of the journal on a disk, which is handed back.
fn end_on(disk: MemDisk) -> (MemDisk, Result<u64, JournalFault>) {
    match Journal::open(disk) {
        Ok(journal) => {
            let end = journal.end();
            (journal.into_disk(), Ok(end))
        }
        Err(refused) => {
            let fault = refused.fault;
            (refused.into_disk(), Err(fault))
        }
    }
}

/// What two openings of a disk find, and its bytes then.
fn opened_twice(
    alloc: Global,
    disk: MemDisk,
) -> Result<(Result<u64, JournalFault>, Vec<u8>), ScriptFault> {
    let (disk, first) = end_on(disk);
    let (mut disk, second) = end_on(disk);
    if first != second {
        return Err(ScriptFault::NoSpelling);
    }
    Ok((second, bytes_of(alloc, &mut disk)?))
}

/// What a journal is that an adding left: the old list or the new one, up to its last gate.
fn list_word(end: Result<u64, JournalFault>, bytes: &[u8], lists: (&[u8], &[u8])) -> &'static str {
    let (old, new) = lists;
    if end == Ok(new.len() as u64) && bytes.starts_with(new) {
        "new"
    } else if end == Ok(old.len() as u64) && bytes.starts_with(old) {
        "old"
    } else {
        "other"
    }
}

/// What a disk is that a making left: the new journal, the old one, or damaged in its header.
fn made_word(end: Result<u64, JournalFault>, bytes: &[u8], lists: (&[u8], &[u8])) -> &'static str {
    let (old, new) = lists;
    if bytes == new {
        "new"
    } else if end == Err(JournalFault::Damaged { place: 0 }) {
        "damaged"
    } else if bytes.starts_with(old) {
        "old"
    } else {
        "other"
    }
}

/// Which slot is in force of the disk beside and of what a putting left.
fn slot_word(alloc: Global, setting: &Setting, left: &[u8]) -> Result<&'static str, ScriptFault> {
    let mut disk = MemDisk::new(alloc, left, 4096, 4096, Vec::new(alloc))?;
    match found_of(alloc, &setting.beside, &mut disk)? {
        Ok(Some(found)) => Ok(if found.second { "new" } else { "old" }),
        _ => Ok("other"),
    }
}

/// What a crash leaves of a journal's disk.
fn journal_word(
    alloc: Global,
    named: &Named,
    work: Work,
    left: &[u8],
) -> Result<&'static str, ScriptFault> {
    let disk = MemDisk::new(alloc, left, 4096, 4096, Vec::new(alloc))?;
    let (end, bytes) = opened_twice(alloc, disk)?;
    let old = named.bytes_in(alloc, "$old")?;
    match work {
        Work::Append => Ok(list_word(end, &bytes, (&old, &named.bytes_in(alloc, "$new")?))),
        _ => Ok(made_word(end, &bytes, (&old, &named.bytes_in(alloc, "$made")?))),
    }
}

/// The disk on which a work was begun.
fn stopped(
    alloc: Global,
    setting: &Setting,
    work: Work,
    payload: &[u8],
) -> Result<Stopped, ScriptFault> {
    match work {
        Work::Append => appended(alloc, setting, payload),
        Work::Create(first) => created(alloc, setting, first),
        Work::Replace(sequence) => put(alloc, setting, sequence, payload),
    }
}

/// Appends what a crash with an image leaves, and says whether the work was done.
fn show_left(
    alloc: Global,
    named: &Named,
    setting: &Setting,
    work: Work,
    payload: &[u8],
    image: Image,
    out: &mut String,
) -> Result<bool, ScriptFault> {
    let (disk, done) = stopped(alloc, setting, work, payload)?;
    let left = bytes_left(alloc, disk, image)?;
    let word = match work {
        Work::Replace(_) => slot_word(alloc, setting, &left)?,
        _ => journal_word(alloc, named, work, &left)?,
    };
    out.push_str(word)?;
    Ok(done)
}

/// Appends what each image leaves of a work, and whether it was done.
fn show_images(
    alloc: Global,
    named: &Named,
    setting: &Setting,
    work: Work,
    payload: &[u8],
    out: &mut String,
) -> Result<(), ScriptFault> {
    let mut done = false;
    for (name, image) in IMAGES {
        out.push_str(" ")?;
        out.push_str(name)?;
        out.push_str("=")?;
        done = show_left(alloc, named, setting, work, payload, image, out)?;
    }
    out.push_str(if done { ", done" } else { ", stopped" })?;
    Ok(())
}

/// The work of a text, and the payload behind it.
fn work_in(text: &str) -> Result<(Work, &str), ScriptFault> {
    let (word, rest) = first_word(text);
    let (number, payload) = first_word(rest);
    match word {
        "append" => Ok((Work::Append, rest)),
        "create" => Ok((Work::Create(number_in(number)?), "")),
        "replace" => Ok((Work::Replace(number_in(number)?), payload)),
        _ => Err(ScriptFault::Words),
    }
}

/// Stops a work at each call from one to another.
pub fn sweep(
    alloc: Global,
    named: &Named,
    setting: &mut Setting,
    text: &str,
    out: &mut String,
) -> Result<(), ScriptFault> {
    let (from, rest) = first_word(text);
    let (to, rest) = first_word(rest);
    let (work, words) = work_in(rest)?;
    let payload = named.bytes_in(alloc, words)?;
    for stop in number_in(from)?..number_in(to)? {
        setting.stop = Some(stop);
        out.push_str("\n| ")?;
        show_number(stop, out)?;
        show_images(alloc, named, setting, work, &payload, out)?;
    }
    Ok(())
}
