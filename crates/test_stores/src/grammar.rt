// The grammar of classes and paths, and the events that short texts spell.

use crate::numbers::{behind_text, piece};

fn is_in_piece(byte: u8) -> bool {
    byte.is_ascii_alphanumeric() || byte == b'_'
}

/// Whether the bytes are pieces that single hyphens join, and not too long.
fn joins_pieces(bytes: &[u8]) -> bool {
    let mut was_in_piece = false;
    for byte in bytes {
        let is_in = is_in_piece(*byte);
        if !is_in && (*byte != b'-' || !was_in_piece) {
            return false;
        }
        was_in_piece = is_in;
    }
    was_in_piece && bytes.len() <= 32
}

fn has_letter_first(bytes: &[u8]) -> bool {
    match bytes.first() {
        Some(byte) => byte.is_ascii_alphabetic(),
        None => false,
    }
}

/// The place of the next such byte, or the end.
fn place_of_mark(bytes: &[u8], from: usize, mark: u8) -> usize {
    let mut at = from;
    for byte in piece(bytes, from, bytes.len()) {
        if *byte == mark {
            return at;
        }
        at = at.saturating_add(1);
    }
    at
}

/// How many components dots join, none where something else is between two dots.
fn count_joined(bytes: &[u8]) -> usize {
    let mut from = 0;
    for count in 1..256 {
        let to = place_of_mark(bytes, from, b'.');
        if !joins_pieces(piece(bytes, from, to)) {
            return 0;
        }
        if to >= bytes.len() {
            return count;
        }
        from = to.saturating_add(1);
    }
    0
}

/// Whether the bytes are a class.
fn is_spelled_class(bytes: &[u8]) -> bool {
    has_letter_first(bytes) && bytes.len() <= 255 && count_joined(bytes) >= 2
}

/// Whether the bytes are a u32 in decimal, without a zero in front.
fn is_decimal(bytes: &[u8]) -> bool {
    let mut number = 0u64;
    for byte in bytes {
        if !byte.is_ascii_digit() {
            return false;
        }
        number = number
            .saturating_mul(10)
            .saturating_add(u64::from(byte.wrapping_sub(b'0')));
    }
    let has_zero_first = bytes.len() > 1 && bytes.first() == Some(&b'0');
    !bytes.is_empty() && !has_zero_first && number < 1 << 32
}

/// Whether the bytes are a part of a path, a name and an instance.
fn is_spelled_part(bytes: &[u8]) -> bool {
    let mark = place_of_mark(bytes, 0, b'=');
    let name = piece(bytes, 0, mark);
    let instance = piece(bytes, mark.saturating_add(1), bytes.len());
    has_letter_first(name) && joins_pieces(name) && is_decimal(instance)
}

/// Whether slashes join one to sixteen parts.
fn joins_parts(bytes: &[u8]) -> bool {
    let mut from = 0;
    for _ in 0..16 {
        let to = place_of_mark(bytes, from, b'/');
        if !is_spelled_part(piece(bytes, from, to)) {
            return false;
        }
        if to >= bytes.len() {
            return true;
        }
        from = to.saturating_add(1);
    }
    false
}

/// Whether the bytes are a path.
fn is_spelled_path(bytes: &[u8]) -> bool {
    match bytes.strip_prefix(b"hc:///") {
        Some(parts) => joins_parts(parts),
        None => false,
    }
}

/// The place behind the path at a place.
pub fn behind_path(bytes: &[u8], at: usize) -> Option<usize> {
    let end = behind_text(bytes, at, 2)?;
    if is_spelled_path(piece(bytes, at.saturating_add(2), end)) {
        Some(end)
    } else {
        None
    }
}

/// The place behind the class at a place.
pub fn behind_class(bytes: &[u8], at: usize) -> Option<usize> {
    let end = behind_text(bytes, at, 2)?;
    if is_spelled_class(piece(bytes, at.saturating_add(2), end)) {
        Some(end)
    } else {
        None
    }
}

/// The place behind the event at a place.
pub fn behind_event(bytes: &[u8], at: usize) -> Option<usize> {
    behind_path(bytes, behind_class(bytes, at)?)
}
