//! Disks in memory, and what crashes leave of them.

use crate::parts::small_conf;
use fm_init::init;
use fm_logs::Disks;
use fm_outer::{Disk, Image, MemDisk, NoMemory};
use std::alloc::Global;

/// The most bytes of a disk.
const ROOM: u64 = 2048;

/// A disk of these bytes, of which these calls fail.
pub fn disk_of(alloc: Global, bytes: &[u8], fails: &[u64]) -> Result<MemDisk, NoMemory> {
    MemDisk::new(alloc, bytes, ROOM, 2 * ROOM, fails.to_vec(alloc)?)
}

/// A disk without bytes.
fn empty_disk(alloc: Global) -> Result<MemDisk, NoMemory> {
    disk_of(alloc, b"", &[])
}

/// Three disks without bytes.
fn three_empty(alloc: Global) -> Result<(MemDisk, MemDisk, MemDisk), NoMemory> {
    let first = empty_disk(alloc)?;
    let second = empty_disk(alloc)?;
    let third = empty_disk(alloc)?;
    Ok((first, second, third))
}

/// Six disks without bytes.
pub fn empty_disks(alloc: Global) -> Result<Disks<MemDisk>, NoMemory> {
    let (conf, err_a, err_b) = three_empty(alloc)?;
    let (slot_a, slot_b, flt) = three_empty(alloc)?;
    Ok(Disks {
        conf,
        err_a,
        err_b,
        slot_a,
        slot_b,
        flt,
    })
}

/// The six disks of a store that was just made; `None` where it was not.
pub fn new_store(alloc: Global) -> Result<Option<Disks<MemDisk>>, NoMemory> {
    let Some(conf) = small_conf(alloc, 2)? else {
        return Ok(None);
    };
    Ok(init(alloc, empty_disks(alloc)?, &conf).ok())
}

/// What a crash leaves of a disk.
fn left_of(alloc: Global, disk: MemDisk, image: Image) -> Result<MemDisk, NoMemory> {
    match disk.crash(alloc, image) {
        Ok(left) => Ok(left),
        Err(back) => Err(back.1),
    }
}

/// What a crash leaves of three disks, with the same image of each.
fn left_of_three(
    alloc: Global,
    first: MemDisk,
    second: MemDisk,
    third: MemDisk,
    image: Image,
) -> Result<(MemDisk, MemDisk, MemDisk), NoMemory> {
    let first = left_of(alloc, first, image)?;
    let second = left_of(alloc, second, image)?;
    let third = left_of(alloc, third, image)?;
    Ok((first, second, third))
}

/// What a crash leaves of six disks, with the same image of each.
pub fn crashed(
    alloc: Global,
    disks: Disks<MemDisk>,
    image: Image,
) -> Result<Disks<MemDisk>, NoMemory> {
    let Disks {
        conf,
        err_a,
        err_b,
        slot_a,
        slot_b,
        flt,
    } = disks;
    let (conf, err_a, err_b) = left_of_three(alloc, conf, err_a, err_b, image)?;
    let (slot_a, slot_b, flt) = left_of_three(alloc, slot_a, slot_b, flt, image)?;
    Ok(Disks {
        conf,
        err_a,
        err_b,
        slot_a,
        slot_b,
        flt,
    })
}

/// The bytes that a disk reads as; none where it fails.
pub fn bytes_of(alloc: Global, disk: &mut MemDisk) -> Result<Vec<u8>, NoMemory> {
    let Ok(count) = disk.len() else {
        return Ok(Vec::new(alloc));
    };
    let mut bytes = vec![in alloc; 0; count as usize]?;
    match disk.read(0, &mut bytes) {
        Ok(()) => Ok(bytes),
        Err(_) => Ok(Vec::new(alloc)),
    }
}
