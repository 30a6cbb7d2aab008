// When an append is refused before anything is written.
ghost use Rattle.std.specs.Prelude.{◌≡◌, ◌+◌, ◌<◌, ◌≤◌, ◌^◌};
ghost use Rattle.fm_journal.specs.Causes.{refused as refusal_at};

use crate::{FullKind, JournalFault};

/// The most records of a journal.
pub(crate) const MAX_COUNT: u64 = (1 << 32) - 1;

/// The end of the numbers.
pub(crate) const END_OF_NUMBERS: u64 = 1 << 46;

/// The most bytes of a journal's disk.
pub(crate) const MAX_BYTES: u64 = 1 << 40;

/// Why a body of so many bytes is refused, if it is: it is a payload with 5 bytes more.
pub(crate) fn refused(
    closed: Option<u64>,
    first: u64,
    count: u64,
    end: u64,
    size: u64,
) -> Option<JournalFault>
    requires first_fits { first < 2 ^ 46 }
    requires counted { count < 2 ^ 32 }
    requires sized { end < 2 ^ 40 }
    requires short { size < 2 ^ 32 }
    ensures { result ≡ refusal_at closed first count end size }
{
    if let Some(faults) = closed {
        return Some(JournalFault::Closed { faults });
    }
    if count == MAX_COUNT {
        Some(JournalFault::Full(FullKind::Records))
    } else if first + count == END_OF_NUMBERS {
        Some(JournalFault::Full(FullKind::Numbers))
    } else if end + 1 + size > MAX_BYTES {
        Some(JournalFault::Full(FullKind::Bytes))
    } else {
        None
    }
}
