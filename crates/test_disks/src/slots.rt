// Slots on the disk and the one beside it: put, cleared, and which is in force.
ghost use Rattle.std.specs.Prelude.{◌<◌, ◌≤◌, ◌^◌};

use crate::setting::{Setting, ending};
use fm_outer::{FrameFault, MemDisk};
use fm_slots::{Found, SlotFault, SlotFrame, clear, newest, replace};
use std::alloc::Global;
use test_words::{ScriptFault, show_bytes, show_count};

/// The frame of a payload, which is not too long.
fn frame_of(alloc: Global, sequence: u64, payload: &[u8]) -> Result<SlotFrame, ScriptFault>
    requires positive { 1 ≤ sequence }
    requires fits { sequence < 2 ^ 62 }
{
    match SlotFrame::new(alloc, sequence, payload) {
        Ok(frame) => Ok(frame),
        Err(FrameFault::TooLong) => Err(ScriptFault::NoSpelling),
        Err(FrameFault::NoMemory) => Err(ScriptFault::NoMemory),
    }
}

/// Whether so many zeros are a frame.
pub fn show_slot_frame(alloc: Global, count: u64, out: &mut String) -> Result<(), ScriptFault> {
    let payload = vec![in alloc; 0; count as usize]?;
    let _frame = frame_of(alloc, 1, &payload)?;
    out.push_str("a frame")?;
    Ok(())
}

/// The disk, where a slot was put on it; and how that ended.
pub fn replaced(
    alloc: Global,
    setting: &Setting,
    sequence: u64,
    payload: &[u8],
) -> Result<(MemDisk, &'static str), ScriptFault> {
    if sequence < 1 || sequence >= 1 << 62 {
        return Err(ScriptFault::Words);
    }
    let frame = frame_of(alloc, sequence, payload)?;
    let mut disk = setting.disk(alloc)?;
    let answer = ending(replace(&mut disk, &frame));
    Ok((disk, answer))
}

/// Puts a slot on the disk.
pub fn put_slot(
    alloc: Global,
    setting: &mut Setting,
    sequence: u64,
    payload: &[u8],
    out: &mut String,
) -> Result<(), ScriptFault> {
    let (disk, answer) = replaced(alloc, setting, sequence, payload)?;
    out.push_str(answer)?;
    setting.leave(alloc, disk, out)
}

/// Clears the disk.
pub fn clear_slot(
    alloc: Global,
    setting: &mut Setting,
    out: &mut String,
) -> Result<(), ScriptFault> {
    let mut disk = setting.disk(alloc)?;
    let answer = ending(clear(&mut disk));
    out.push_str(answer)?;
    setting.leave(alloc, disk, out)
}

/// The slot in force of the disk beside and a disk.
pub fn found_of(
    alloc: Global,
    beside: &[u8],
    disk: &mut MemDisk,
) -> Result<Result<Option<Found>, SlotFault>, ScriptFault> {
    let mut first = MemDisk::new(alloc, beside, 4096, 4096, Vec::new(alloc))?;
    Ok(newest(alloc, &mut first, disk))
}

/// The name of a disk.
fn place_name(second: bool) -> &'static str {
    if second { "second" } else { "first" }
}

/// Appends a slot: on which disk, its sequence and its payload.
fn show_found(found: &Found, out: &mut String) -> Result<(), ScriptFault> {
    show_count(place_name(found.second), found.sequence as usize, out)?;
    out.push_str(" ")?;
    show_bytes(&found.payload, out)
}

/// Appends why no slot was found.
fn show_fault(fault: SlotFault, out: &mut String) -> Result<(), ScriptFault> {
    match fault {
        SlotFault::Disk => Ok(out.push_str("disk fault")?),
        SlotFault::Damaged { second, place } => {
            out.push_str("damaged ")?;
            show_count(place_name(second), place as usize, out)
        }
        SlotFault::NoMemory => Err(ScriptFault::NoMemory),
    }
}

/// The slot in force of the disk beside and the disk.
pub fn show_newest(alloc: Global, setting: &Setting, out: &mut String) -> Result<(), ScriptFault> {
    let mut disk = setting.disk(alloc)?;
    match found_of(alloc, &setting.beside, &mut disk)? {
        Ok(Some(found)) => show_found(&found, out),
        Ok(None) => Ok(out.push_str("none")?),
        Err(fault) => show_fault(fault, out),
    }
}
