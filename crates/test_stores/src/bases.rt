// Slots, and what the one in force says of the base.

use crate::grammar::behind_class;
use crate::numbers::{behind, behind_text, behind_texts, spelled_at, stands_at};

/// The sequence of a slot and the place behind it, 0 and 13 of one that is closed; `None` where its
/// rest is short or out of range.
pub fn slot_in(bytes: &[u8]) -> Option<(u64, usize)> {
    if bytes.len() < 13 || bytes.first() != Some(&1) {
        return Some((0, 13));
    }
    let sequence = spelled_at(bytes, 1, 8)?;
    let length = spelled_at(bytes, 9, 4)?;
    let end = behind(bytes, 13, length)?;
    if sequence >= 1 && sequence < 1 << 62 && length <= 1 << 28 {
        Some((sequence, end))
    } else {
        None
    }
}

/// The base, whether the second error journal is active, and where the states begin.
#[derive(Clone, Copy, Drop)]
pub struct BaseFound {
    pub base: u64,
    pub is_second: bool,
    pub states_at: usize,
}

/// The place behind the number in force of so many configurations; the older form has none.
fn behind_force(bytes: &[u8], active: u64, confs: u64) -> Option<usize> {
    if active < 2 {
        return Some(17);
    }
    if active < 4 && spelled_at(bytes, 17, 4)? < confs {
        Some(21)
    } else {
        None
    }
}

/// The base that a slot's payload says; `None` where it has not the form.
pub fn base_in(bytes: &[u8], confs: u64) -> Option<BaseFound> {
    let active = spelled_at(bytes, 0, 1)?;
    let base = spelled_at(bytes, 1, 8)?;
    let moment = spelled_at(bytes, 9, 8)?;
    let states_at = behind_force(bytes, active, confs)?;
    let count = spelled_at(bytes, states_at, 4)?;
    let end = behind_texts(bytes, states_at.saturating_add(4), count)?;
    if moment >= 1 << 62 || end != bytes.len() {
        return None;
    }
    Some(BaseFound {
        base,
        is_second: active % 2 == 1,
        states_at,
    })
}

/// The state of this number in a slot's payload.
pub fn state_in(bytes: &[u8], states_at: usize, number: u64) -> Option<&[u8]> {
    let at = behind_texts(bytes, states_at.saturating_add(4), number)?;
    let end = behind_text(bytes, at, 4)?;
    bytes.get(at.saturating_add(4)..end)
}

/// How many reports of the one class a state has counted; `None` where it is no state.
pub fn reports_of(state: &[u8]) -> Option<u64> {
    let classes = spelled_at(state, 0, 8)?;
    if classes == 0 && state.len() == 8 {
        return Some(0);
    }
    let end = behind_class(state, 8)?;
    let count = spelled_at(state, end, 8)?;
    let is_whole = classes == 1 && end.saturating_add(8) == state.len();
    let is_report = stands_at(state, 10, b"ereport.");
    if is_whole && is_report && count >= 1 && count <= 1 << 46 {
        Some(count)
    } else {
        None
    }
}
