// Records behind their gates: what a journal holds, or where it is damaged.

use crate::numbers::{behind, piece, spelled_at, stands_at};
use fm_outer::NoMemory;
use std::alloc::Global;

/// Where a payload begins and ends.
pub type Held = (usize, usize);

/// The first number and the payloads of a journal, and its end gate; or, where it is damaged, the
/// place of that.
#[derive(Drop)]
pub struct Walked {
    pub is_damaged: bool,
    pub place: usize,
    pub first: u64,
    pub payloads: Vec<Held>,
}

/// The first number, where the header is there.
fn number_in_header(bytes: &[u8]) -> Option<u64> {
    let first = spelled_at(bytes, 8, 8)?;
    if stands_at(bytes, 0, b"FMAJRNL1") && bytes.len() > 16 && first < 1 << 46 {
        Some(first)
    } else {
        None
    }
}

/// The payload of this number behind the open gate at a place, which a gate follows.
fn payload_behind(bytes: &[u8], gate: usize, number: u64) -> Option<Held> {
    let from = gate.saturating_add(5);
    let length = spelled_at(bytes, gate.saturating_add(1), 4)?;
    let to = behind(bytes, from, length)?;
    if to < bytes.len() && length <= 1 << 28 && number < 1 << 46 {
        Some((from, to))
    } else {
        None
    }
}

/// Walks from gate to gate up to the first that is closed, or that no record follows.
pub fn walk_gates(alloc: Global, bytes: &[u8]) -> Result<Walked, NoMemory> {
    let mut walked = Walked {
        is_damaged: true,
        place: 0,
        first: 0,
        payloads: Vec::new(alloc),
    };
    let Some(first) = number_in_header(bytes) else {
        return Ok(walked);
    };
    walked.first = first;
    walked.place = 16;
    let mut number = first;
    for _ in bytes {
        if bytes.get(walked.place) != Some(&1) {
            walked.is_damaged = false;
            return Ok(walked);
        }
        let Some(held) = payload_behind(bytes, walked.place, number) else {
            return Ok(walked);
        };
        walked.payloads.push(held)?;
        walked.place = held.1;
        number = number.saturating_add(1);
    }
    Ok(walked)
}

/// The place of the gate before a payload.
pub fn gate_before(held: Held) -> u64 {
    held.0.saturating_sub(5) as u64
}

/// The bytes of a payload.
pub fn held_in(bytes: &[u8], held: Held) -> &[u8] {
    piece(bytes, held.0, held.1)
}
