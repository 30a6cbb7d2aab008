// Each byte of a disk set to 0, 1 and 255, and the disk cut at each length.
use crate::openings::opening_answer;
use crate::reading::read_store;
use crate::store_bytes::StoreBytes;
use fm_logs::DiskName;
use fm_outer::NoMemory;
use std::alloc::Global;

/// How many alterations there were, how many an opening finds otherwise than the reader, and the
/// first place of these.
#[derive(Clone, Copy, Drop)]
pub struct AlterationCounts {
    pub cases: u64,
    pub wrong: u64,
    pub first_wrong: Option<usize>,
}

impl AlterationCounts {
    fn count(&mut self, is_right: bool, at: usize) {
        self.cases = self.cases.saturating_add(1);
        if !is_right {
            self.wrong = self.wrong.saturating_add(1);
            self.first_wrong = self.first_wrong.or(Some(at));
        }
    }
}

/// Whether an opening finds what the reader does.
fn agrees(alloc: Global, bytes: &StoreBytes) -> Result<bool, NoMemory> {
    Ok(opening_answer(alloc, bytes)? == read_store(alloc, bytes)?)
}

/// Whether it does with this byte at a place of the disk.
fn agrees_with(
    alloc: Global,
    store: &mut StoreBytes,
    disk: DiskName,
    at: usize,
    byte: u8,
) -> Result<bool, NoMemory> {
    let whole = store.of(disk).to_vec(alloc)?;
    let mut bytes = whole.clone()?;
    if let Some(place) = bytes.get_mut(at) {
        *place = byte;
    }
    store.put(disk, bytes);
    let agrees = agrees(alloc, store)?;
    store.put(disk, whole);
    Ok(agrees)
}

/// Whether it does with the disk cut at a length.
fn agrees_cut(
    alloc: Global,
    store: &mut StoreBytes,
    disk: DiskName,
    length: usize,
) -> Result<bool, NoMemory> {
    let whole = store.of(disk).to_vec(alloc)?;
    let mut bytes = whole.clone()?;
    bytes.truncate(length);
    store.put(disk, bytes);
    let agrees = agrees(alloc, store)?;
    store.put(disk, whole);
    Ok(agrees)
}

/// Tries each alteration of the disk.
pub fn try_alterations(
    alloc: Global,
    bytes: &StoreBytes,
    disk: DiskName,
) -> Result<AlterationCounts, NoMemory> {
    let mut store = bytes.copy(alloc)?;
    let mut counts = AlterationCounts {
        cases: 0,
        wrong: 0,
        first_wrong: None,
    };
    for at in 0..bytes.of(disk).len() {
        counts.count(agrees_cut(alloc, &mut store, disk, at)?, at);
        for byte in [0, 1, 255] {
            counts.count(agrees_with(alloc, &mut store, disk, at, byte)?, at);
        }
    }
    Ok(counts)
}
