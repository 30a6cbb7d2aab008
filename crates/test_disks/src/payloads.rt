// What the payloads of a journal spell, and their places.
ghost use Rattle.std.specs.Prelude.{◌≡◌, ◌≤◌, length, None, IfOk};

use crate::setting::Setting;
use fm_journal::Journal;
use fm_outer::MemDisk;
use fm_payloads::{NoMemory, PayloadCodec, ReadValues, ReadingFault, place_of, read_values};
use std::alloc::Global;
use test_words::{ScriptFault, show_count, show_found, show_item};

/// A payload of at most three bytes spells how many it has.
#[derive(Drop)]
struct ShortLength;

impl PayloadCodec<u64> for ShortLength {
    ghost spells = { λ payload x. (x ≡ length payload) × (length payload ≤ 3) };

    fn read(&self, _alloc: Global, payload: &[u8]) -> Result<Option<u64>, NoMemory> {
        if payload.len() > 3 {
            return Ok(None);
        }
        Ok(Some(payload.len() as u64))
    }
}

/// The journal on the disk.
fn opened(alloc: Global, setting: &Setting) -> Result<Journal<MemDisk>, ScriptFault>
    ensures { IfOk result (λ journal. journal.closed ≡ None) }
{
    match Journal::open(setting.disk(alloc)?) {
        Ok(journal) => Ok(journal),
        Err(_refused) => Err(ScriptFault::NoSpelling),
    }
}

/// Appends why payloads were not read.
fn show_fault(fault: ReadingFault, out: &mut String) -> Result<(), ScriptFault> {
    match fault {
        ReadingFault::Disk => Ok(out.push_str("disk fault")?),
        ReadingFault::Changed { place } => show_count("changed", place as usize, out),
        ReadingFault::NoMemory => Err(ScriptFault::NoMemory),
    }
}

/// Appends values, and the place of the payload that spells none.
fn show_read(read: &ReadValues<u64>, out: &mut String) -> Result<(), ScriptFault> {
    for value in read.values.as_slice() {
        show_item(*value, out)?;
    }
    out.push_str("stop ")?;
    show_found(read.stop, out)
}

/// What the payloads of the journal on the disk spell.
pub fn show_values(alloc: Global, setting: &Setting, out: &mut String) -> Result<(), ScriptFault> {
    let mut journal = opened(alloc, setting)?;
    match read_values(alloc, &mut journal, ShortLength) {
        Ok(read) => show_read(&read, out),
        Err(fault) => show_fault(fault, out),
    }
}

/// The place of the payload that so many stand before, and how often the disk was called since it
/// was opened, the opening with it.
pub fn show_place(
    alloc: Global,
    setting: &Setting,
    before: u64,
    out: &mut String,
) -> Result<(), ScriptFault> {
    let mut journal = opened(alloc, setting)?;
    match place_of(alloc, &mut journal, before) {
        Ok(place) => show_count("place", place as usize, out)?,
        Err(fault) => show_fault(fault, out)?,
    }
    show_count("; calls", journal.into_disk().calls() as usize, out)
}
