// What modules said: which bytes spell a record.

use crate::grammar::behind_event;
use crate::numbers::{behind, spelled_at};

/// The place behind the events that were observed.
fn behind_observed(bytes: &[u8], at: usize) -> Option<usize> {
    let count = spelled_at(bytes, at, 4)?;
    let mut end = at.saturating_add(4);
    for _ in 0..count {
        end = behind_event(bytes, end)?;
    }
    Some(end)
}

/// The place behind the suspect at a place.
fn behind_suspect(bytes: &[u8], at: usize) -> Option<usize> {
    let end = behind_event(bytes, at)?;
    let certainty = spelled_at(bytes, end, 1)?;
    let retire = spelled_at(bytes, end.saturating_add(1), 1)?;
    let mark = spelled_at(bytes, end.saturating_add(2), 1)?;
    if certainty <= 100 && retire <= 1 && mark <= 3 {
        Some(end.saturating_add(3))
    } else {
        None
    }
}

/// The place behind the suspects.
fn behind_suspects(bytes: &[u8], at: usize) -> Option<usize> {
    let count = spelled_at(bytes, at, 4)?;
    let mut end = at.saturating_add(4);
    for _ in 0..count {
        end = behind_suspect(bytes, end)?;
    }
    Some(end)
}

/// The place behind the broken links, of which there are some, and which ascend.
fn behind_links(bytes: &[u8], at: usize) -> Option<usize> {
    let count = spelled_at(bytes, at, 4)?;
    let mut end = at.saturating_add(4);
    let mut least = 0;
    for _ in 0..count {
        let link = spelled_at(bytes, end, 8)?;
        if link < least {
            return None;
        }
        least = link.saturating_add(1);
        end = end.saturating_add(8);
    }
    if count == 0 { None } else { Some(end) }
}

/// Whether what is said at a place has a kind, this module, a case and a moment.
fn has_word_front(bytes: &[u8], at: usize, module: u64) -> Option<bool> {
    let own = spelled_at(bytes, at.saturating_add(1), 4)?;
    let case = spelled_at(bytes, at.saturating_add(5), 8)?;
    let moment = spelled_at(bytes, at.saturating_add(13), 8)?;
    Some(own == module && case < 1 << 63 && moment < 1 << 62)
}

/// The place behind what is said of one case at a place.
fn behind_word(bytes: &[u8], at: usize, module: u64) -> Option<usize> {
    let kind = spelled_at(bytes, at, 1)?;
    if !has_word_front(bytes, at, module)? {
        return None;
    }
    let observed = behind(bytes, at, 25)?;
    let end = behind_suspects(bytes, behind_observed(bytes, observed)?)?;
    match kind {
        1..=5 => Some(end),
        9..=13 => behind_links(bytes, end),
        _ => None,
    }
}

/// The place behind all that a record says.
fn behind_words(bytes: &[u8], module: u64) -> Option<usize> {
    let count = spelled_at(bytes, 12, 4)?;
    let mut end = 16;
    for _ in 0..count {
        end = behind_word(bytes, end, module)?;
    }
    if count == 0 { None } else { Some(end) }
}

/// The module and the number of the record that the bytes spell.
pub fn record_of(bytes: &[u8]) -> Option<(u64, u64)> {
    let module = spelled_at(bytes, 0, 4)?;
    let number = spelled_at(bytes, 4, 8)?;
    let end = behind_words(bytes, module)?;
    if module < 8 && number < 1 << 46 && end == bytes.len() {
        Some((module, number))
    } else {
        None
    }
}
