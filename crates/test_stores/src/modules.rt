// What two modules that count reports say along the entries, and the first record that differs.

use crate::entries::moment_place;
use crate::gates::{Held, gate_before, held_in};
use crate::numbers::{piece, spelled_at};
use crate::records::record_of;

/// The entries of a journal: its bytes, its payloads and the number of the first of these.
#[derive(Clone, Copy, Drop)]
pub struct Logged<'a> {
    pub bytes: &'a [u8],
    pub payloads: &'a [Held],
    pub first: u64,
}

/// A module: the number of the next entry that it takes, how many reports it has counted, and the
/// least number that its next record may have.
#[derive(Clone, Copy, Drop)]
pub struct CountedSoFar {
    pub next: u64,
    pub reports: u64,
    pub least: u64,
}

/// The entry of this number.
fn entry_of(logged: Logged<'_>, number: u64) -> Option<&[u8]> {
    let held = logged
        .payloads
        .get(number.checked_sub(logged.first)? as usize)?;
    Some(held_in(logged.bytes, *held))
}

/// The module behind the next entry at which it says something: that of the next third report.
fn behind_third(logged: Logged<'_>, module: CountedSoFar) -> Option<CountedSoFar> {
    let mut now = module;
    for _ in logged.payloads {
        let entry = entry_of(logged, now.next)?;
        now.next = now.next.saturating_add(1);
        if moment_place(entry).is_some() && now.reports < 1 << 46 {
            now.reports = now.reports.saturating_add(1);
            if now.reports % 3 == 0 {
                return Some(now);
            }
        }
    }
    None
}

/// Whether these numbers stand in the bytes, each with its place and its width.
fn has_numbers(bytes: &[u8], numbers: &[(usize, usize, u64)]) -> bool {
    for (at, width, number) in numbers {
        if spelled_at(bytes, *at, *width) != Some(*number) {
            return false;
        }
    }
    true
}

/// Whether a record says just the upset of a report, the only event, of this case.
fn says_upset(record: &[u8], own: u64, number: u64, case: u64, entry: &[u8]) -> bool {
    let end = moment_place(entry).unwrap_or(1);
    let event = piece(entry, 1, end);
    let moment = spelled_at(entry, end, 8).unwrap_or(0);
    let numbers = [
        (0, 4, own),
        (4, 8, number),
        (12, 4, 1),
        (16, 1, 3),
        (17, 4, own),
        (21, 8, case),
        (29, 8, moment),
        (37, 4, 0),
        (41, 4, 1),
    ];
    let suspects = end.saturating_add(44);
    has_numbers(record, &numbers)
        && piece(record, 45, suspects) == event
        && spelled_at(record, suspects, 4) == Some(0)
}

/// The module behind a record of the base or later; `None` where it does not say just this.
fn behind_said(
    logged: Logged<'_>,
    module: CountedSoFar,
    own: u64,
    record: &[u8],
) -> Option<CountedSoFar> {
    let now = behind_third(logged, module)?;
    let number = now.next.saturating_sub(1);
    let entry = entry_of(logged, number)?;
    let case = (now.reports / 3).saturating_sub(1);
    if says_upset(record, own, number, case, entry) {
        Some(now)
    } else {
        None
    }
}

/// The module behind a record of this number; `None` where it does not say this.
fn behind_record(
    logged: Logged<'_>,
    module: CountedSoFar,
    base: u64,
    own: u64,
    number: u64,
    record: &[u8],
) -> Option<CountedSoFar> {
    if number < module.least {
        return None;
    }
    let mut now = module;
    if number >= base {
        now = behind_said(logged, module, own, record)?;
    }
    now.least = number.saturating_add(1);
    Some(now)
}

/// Both modules behind a record.
fn both_behind(
    logged: Logged<'_>,
    both: (CountedSoFar, CountedSoFar),
    base: u64,
    record: &[u8],
) -> Option<(CountedSoFar, CountedSoFar)> {
    let (own, number) = record_of(record)?;
    let (first, second) = both;
    match own {
        0 => Some((
            behind_record(logged, first, base, 0, number, record)?,
            second,
        )),
        1 => Some((
            first,
            behind_record(logged, second, base, 1, number, record)?,
        )),
        _ => None,
    }
}

/// Both modules behind all records, or the gate of the first record that they do not say; of those
/// before the base, that is out of order.
pub fn behind_records(
    bytes: &[u8],
    payloads: &[Held],
    logged: Logged<'_>,
    base: u64,
    both: (CountedSoFar, CountedSoFar),
) -> Result<(CountedSoFar, CountedSoFar), u64> {
    let mut now = both;
    for held in payloads {
        match both_behind(logged, now, base, held_in(bytes, *held)) {
            Some(next) => now = next,
            None => return Err(gate_before(*held)),
        }
    }
    Ok(now)
}
