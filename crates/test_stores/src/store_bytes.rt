// The bytes of six disks, and disks in memory that have them.
use fm_logs::{DiskName, Disks};
use fm_outer::{Image, MemDisk, NoMemory};
use std::alloc::Global;
use test_small_store::{bytes_of, crashed, disk_of};

/// The names of the disks, in order.
pub const NAMES: [DiskName; 6] = [
    DiskName::Conf,
    DiskName::ErrA,
    DiskName::ErrB,
    DiskName::SlotA,
    DiskName::SlotB,
    DiskName::Flt,
];

/// The place of a disk among the six.
pub fn place_of(name: DiskName) -> usize {
    match name {
        DiskName::Conf => 0,
        DiskName::ErrA => 1,
        DiskName::ErrB => 2,
        DiskName::SlotA => 3,
        DiskName::SlotB => 4,
        DiskName::Flt => 5,
    }
}

/// The bytes of six disks, in the order of their names.
#[derive(Drop)]
pub struct StoreBytes {
    disks: Vec<Vec<u8>>,
}

impl StoreBytes {
    /// Six disks without bytes.
    pub fn empty(alloc: Global) -> Result<StoreBytes, NoMemory> {
        let mut disks = Vec::new(alloc);
        for _ in NAMES {
            disks.push(Vec::new(alloc))?;
        }
        Ok(StoreBytes { disks })
    }

    /// The bytes of a disk.
    pub fn of(&self, name: DiskName) -> &[u8] {
        match self.disks.get(place_of(name)) {
            Some(bytes) => bytes.as_slice(),
            None => b"",
        }
    }

    /// Gives a disk other bytes.
    pub fn put(&mut self, name: DiskName, bytes: Vec<u8>) {
        let place = place_of(name);
        if place < self.disks.len() {
            self.disks[place] = bytes;
        }
    }

    /// The same bytes.
    pub fn copy(&self, alloc: Global) -> Result<StoreBytes, NoMemory> {
        let mut copy = StoreBytes::empty(alloc)?;
        for name in NAMES {
            copy.put(name, self.of(name).to_vec(alloc)?);
        }
        Ok(copy)
    }

    /// Whether all six disks have the same bytes.
    pub fn equals(&self, other: &StoreBytes) -> bool {
        for name in NAMES {
            if self.of(name) != other.of(name) {
                return false;
            }
        }
        true
    }
}

/// Appends the bytes that a disk reads as.
fn push_bytes(alloc: Global, disk: &mut MemDisk, all: &mut StoreBytes) -> Result<(), NoMemory> {
    all.disks.push(bytes_of(alloc, disk)?)?;
    Ok(())
}

/// Appends the bytes that six disks read as.
fn push_six(
    alloc: Global,
    disks: &mut Disks<MemDisk>,
    all: &mut StoreBytes,
) -> Result<(), NoMemory> {
    push_bytes(alloc, &mut disks.conf, all)?;
    push_bytes(alloc, &mut disks.err_a, all)?;
    push_bytes(alloc, &mut disks.err_b, all)?;
    push_bytes(alloc, &mut disks.slot_a, all)?;
    push_bytes(alloc, &mut disks.slot_b, all)?;
    push_bytes(alloc, &mut disks.flt, all)
}

/// The bytes that six disks read as.
fn bytes_of_six(alloc: Global, disks: &mut Disks<MemDisk>) -> Result<StoreBytes, NoMemory> {
    let mut bytes = StoreBytes {
        disks: Vec::new(alloc),
    };
    push_six(alloc, disks, &mut bytes)?;
    Ok(bytes)
}

/// The bytes that a crash with this image leaves of six disks; with none, those that they have.
pub fn bytes_left(
    alloc: Global,
    disks: Disks<MemDisk>,
    image: Option<Image>,
) -> Result<StoreBytes, NoMemory> {
    let mut left = match image {
        Some(image) => crashed(alloc, disks, image)?,
        None => disks,
    };
    bytes_of_six(alloc, &mut left)
}

/// Which calls of which disk fail: none, one, or each from one on.
#[derive(Clone, Copy, Drop)]
pub enum FailingCalls {
    None,
    One { disk: DiskName, call: u64 },
    From { disk: DiskName, call: u64 },
}

/// The disk of this name.
fn disk_named(
    alloc: Global,
    bytes: &StoreBytes,
    name: DiskName,
    failing: FailingCalls,
) -> Result<MemDisk, NoMemory> {
    match failing {
        FailingCalls::One { disk, call } if disk == name => {
            disk_of(alloc, bytes.of(name), &[call])
        }
        FailingCalls::From { disk, call } if disk == name => {
            let mut stopped = disk_of(alloc, bytes.of(name), &[])?;
            stopped.stop_at(call);
            Ok(stopped)
        }
        _ => disk_of(alloc, bytes.of(name), &[]),
    }
}

/// The disks of these three names.
fn three_named(
    alloc: Global,
    bytes: &StoreBytes,
    names: (DiskName, DiskName, DiskName),
    failing: FailingCalls,
) -> Result<(MemDisk, MemDisk, MemDisk), NoMemory> {
    let first = disk_named(alloc, bytes, names.0, failing)?;
    let second = disk_named(alloc, bytes, names.1, failing)?;
    let third = disk_named(alloc, bytes, names.2, failing)?;
    Ok((first, second, third))
}

/// Disks with these bytes.
pub fn disks_with(
    alloc: Global,
    bytes: &StoreBytes,
    failing: FailingCalls,
) -> Result<Disks<MemDisk>, NoMemory> {
    let logs = (DiskName::Conf, DiskName::ErrA, DiskName::ErrB);
    let others = (DiskName::SlotA, DiskName::SlotB, DiskName::Flt);
    let (conf, err_a, err_b) = three_named(alloc, bytes, logs, failing)?;
    let (slot_a, slot_b, flt) = three_named(alloc, bytes, others, failing)?;
    Ok(Disks {
        conf,
        err_a,
        err_b,
        slot_a,
        slot_b,
        flt,
    })
}

/// How many calls of each disk were made.
#[derive(Clone, Copy, Drop)]
pub struct CallCounts {
    counts: [u64; 6],
}

impl CallCounts {
    /// Those of the disks.
    pub fn on(disks: &Disks<MemDisk>) -> CallCounts {
        CallCounts {
            counts: [
                disks.conf.calls(),
                disks.err_a.calls(),
                disks.err_b.calls(),
                disks.slot_a.calls(),
                disks.slot_b.calls(),
                disks.flt.calls(),
            ],
        }
    }

    /// Those of one disk.
    pub fn of(&self, name: DiskName) -> u64 {
        match self.counts.get(place_of(name)) {
            Some(count) => *count,
            None => 0,
        }
    }
}
