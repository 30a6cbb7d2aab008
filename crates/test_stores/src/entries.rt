// Entries: which bytes spell one, and the first payload that is none.

use crate::gates::{Held, gate_before, held_in};
use crate::grammar::{behind_event, behind_path};
use crate::numbers::{piece, spelled_at, stands_at};

/// Whether a moment is at the place, and nothing but these bytes behind it.
fn ends_with_moment(bytes: &[u8], at: usize, rest: &[u8]) -> bool {
    match spelled_at(bytes, at, 8) {
        Some(moment) => {
            moment < 1 << 62 && piece(bytes, at.saturating_add(8), bytes.len()) == rest
        }
        None => false,
    }
}

/// Where the moment of a report stands; `None` where the bytes are no report without pairs.
pub fn moment_place(bytes: &[u8]) -> Option<usize> {
    let at = behind_event(bytes, 1)?;
    let is_report = bytes.first() == Some(&1) && stands_at(bytes, 3, b"ereport.");
    if is_report && ends_with_moment(bytes, at, b"\0\0") {
        Some(at)
    } else {
        None
    }
}

/// Whether the bytes are an acquittal.
fn is_acquittal(bytes: &[u8]) -> bool {
    match (spelled_at(bytes, 1, 4), spelled_at(bytes, 5, 8)) {
        (Some(module), Some(case)) => {
            module < 8 && case < 1 << 63 && ends_with_moment(bytes, 13, b"")
        }
        _ => false,
    }
}

/// Whether a path and a moment are behind the first byte.
fn has_path_and_moment(bytes: &[u8]) -> bool {
    match behind_path(bytes, 1) {
        Some(at) => ends_with_moment(bytes, at, b""),
        None => false,
    }
}

/// Whether the bytes are an entry. A reload is none here, since there is one configuration.
fn is_spelled_entry(bytes: &[u8]) -> bool {
    match bytes.first() {
        Some(1) => moment_place(bytes).is_some(),
        Some(2) => ends_with_moment(bytes, 1, b""),
        Some(3) => has_path_and_moment(bytes),
        Some(4) => has_path_and_moment(bytes),
        Some(5) => is_acquittal(bytes),
        _ => false,
    }
}

/// The gate of the first payload that is no entry.
pub fn entry_fault(bytes: &[u8], payloads: &[Held]) -> Option<u64> {
    for held in payloads {
        if !is_spelled_entry(held_in(bytes, *held)) {
            return Some(gate_before(*held));
        }
    }
    None
}
