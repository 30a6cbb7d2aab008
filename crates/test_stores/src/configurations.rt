// The configurations of a store: which bytes spell one, and the first payload that is none.

use crate::gates::{Held, gate_before, held_in};
use crate::numbers::{behind_texts, piece, spelled_at};

/// How many rule files the configuration has that the bytes spell.
pub fn files_of(bytes: &[u8]) -> Option<u64> {
    let files = spelled_at(bytes, 16, 1)?;
    let end = behind_texts(bytes, 17, files.saturating_add(1))?;
    if files <= 8 && end == bytes.len() {
        Some(files)
    } else {
        None
    }
}

/// Whether the bytes spell a configuration with this namespace and number of rule files.
fn is_beside(bytes: &[u8], namespace: &[u8], files: Option<u64>) -> bool {
    files.is_some() && files_of(bytes) == files && piece(bytes, 0, 16) == namespace
}

/// The gate of the first payload that is no configuration of the store, 16 where there is none.
pub fn configuration_fault(bytes: &[u8], payloads: &[Held]) -> Option<u64> {
    let Some(first) = payloads.first() else {
        return Some(16);
    };
    let own = held_in(bytes, *first);
    let mut count = 0u8;
    for held in payloads {
        if count == 16 || !is_beside(held_in(bytes, *held), piece(own, 0, 16), files_of(own)) {
            return Some(gate_before(*held));
        }
        count = count.saturating_add(1);
    }
    None
}
