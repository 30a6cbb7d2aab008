// Disks of a machine by their names.
ghost use Rattle.std.specs.Prelude.{◌≡◌, ◌+◌, length, OnOk};

use crate::undone::Undone;
use fm_outer::{Disk, Image, MemDisk, NoMemory};
use fm_top::{DiskName, Disks};
use std::alloc::Global;
use std::mem;

/// The six disks.
pub const ALL: [DiskName; 6] = [
    DiskName::Conf,
    DiskName::ErrA,
    DiskName::ErrB,
    DiskName::SlotA,
    DiskName::SlotB,
    DiskName::Flt,
];

/// The disk of this name.
pub fn disk_name(word: &str) -> Result<DiskName, Undone> {
    match word {
        "conf" => Ok(DiskName::Conf),
        "err_a" => Ok(DiskName::ErrA),
        "err_b" => Ok(DiskName::ErrB),
        "slot_a" => Ok(DiskName::SlotA),
        "slot_b" => Ok(DiskName::SlotB),
        "flt" => Ok(DiskName::Flt),
        _ => Err(Undone::Unread),
    }
}

/// Whether a word is the disk's name, or `all`.
pub fn is_named(name: DiskName, word: &str) -> bool {
    match disk_name(word) {
        Ok(named) => named == name,
        Err(_) => word == "all",
    }
}

/// One of six disks.
pub fn disk_of(disks: &mut Disks<MemDisk>, name: DiskName) -> &mut MemDisk {
    match name {
        DiskName::Conf => &mut disks.conf,
        DiskName::ErrA => &mut disks.err_a,
        DiskName::ErrB => &mut disks.err_b,
        DiskName::SlotA => &mut disks.slot_a,
        DiskName::SlotB => &mut disks.slot_b,
        DiskName::Flt => &mut disks.flt,
    }
}

/// A list of one number, or of none.
pub fn numbers(alloc: Global, number: Option<u64>) -> Result<Vec<u64>, NoMemory> {
    let mut list = Vec::new(alloc);
    if let Some(number) = number {
        list.push(number)?;
    }
    Ok(list)
}

/// A disk of these bytes with so much room, of which this call fails.
pub fn made(
    alloc: Global,
    bytes: &[u8],
    room: u64,
    fails: Option<u64>,
) -> Result<MemDisk, NoMemory> {
    let fails = numbers(alloc, fails)?;
    MemDisk::new(alloc, bytes, room, room.saturating_mul(2), fails)
}

/// Appends a disk without bytes and without room.
fn push_empty(alloc: Global, disks: &mut Vec<MemDisk>) -> Result<(), NoMemory>
    ensures { OnOk result (length disks.new.items ≡ length disks.old.items + 1) }
{
    disks.push(made(alloc, b"", 0, None)?)?;
    Ok(())
}

/// Appends six of them.
fn push_six(alloc: Global, disks: &mut Vec<MemDisk>) -> Result<(), NoMemory>
    ensures { OnOk result (length disks.new.items ≡ length disks.old.items + 6) }
{
    push_empty(alloc, disks)?;
    push_empty(alloc, disks)?;
    push_empty(alloc, disks)?;
    push_empty(alloc, disks)?;
    push_empty(alloc, disks)?;
    push_empty(alloc, disks)
}

/// Six disks without bytes and without room. They are made in a list first: six disks that each
/// were let go where the next is not to be had would take long to prove.
pub fn empty_disks(alloc: Global) -> Result<Disks<MemDisk>, NoMemory> {
    let mut disks = Vec::new(alloc);
    push_six(alloc, &mut disks)?;
    Ok(Disks {
        conf: disks.remove(0),
        err_a: disks.remove(0),
        err_b: disks.remove(0),
        slot_a: disks.remove(0),
        slot_b: disks.remove(0),
        flt: disks.remove(0),
    })
}

/// The bytes that a disk reads as.
fn read_whole(alloc: Global, disk: &mut MemDisk) -> Result<Vec<u8>, Undone> {
    let Ok(count) = disk.len() else {
        return Err(Undone::Unread);
    };
    let mut bytes = vec![in alloc; 0; count as usize]?;
    match disk.read(0, &mut bytes) {
        Ok(()) => Ok(bytes),
        Err(_) => Err(Undone::Unread),
    }
}

/// The bytes that a disk reads as. It is read once more where a call fails.
pub fn bytes_of(alloc: Global, disk: &mut MemDisk) -> Result<Vec<u8>, Undone> {
    match read_whole(alloc, disk) {
        Err(Undone::Unread) => read_whole(alloc, disk),
        done => done,
    }
}

/// What a crash leaves of a disk.
fn left_of(alloc: Global, disk: MemDisk, image: Image) -> Result<MemDisk, NoMemory> {
    match disk.crash(alloc, image) {
        Ok(left) => Ok(left),
        Err((_, fault)) => Err(fault),
    }
}

/// Has a disk be what a crash leaves of it.
pub fn crash(alloc: Global, disk: &mut MemDisk, image: Image) -> Result<(), NoMemory> {
    let spare = made(alloc, b"", 0, None)?;
    let crashed = mem::replace(disk, spare);
    *disk = left_of(alloc, crashed, image)?;
    Ok(())
}
