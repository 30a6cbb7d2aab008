//! Why the payloads of a journal were not read.

ghost use Rattle.std.specs.Prelude.{◌≡◌};
ghost use Rattle.fm_payloads.specs.Reading.{reading_fault};
ghost use Rattle.fm_payloads.specs.declared.fault.ReadingFault.TheVariants.{NoMemory as Memory};

use fm_bytes::NoMemory;
use fm_journal::JournalFault;
use std::alloc::{AllocError, AllocFailed};

/// Why the payloads of a journal were not read.
#[derive(Clone, Copy, Debug, Drop, PartialEq, Eq)]
pub enum ReadingFault {
    /// The disk failed.
    Disk,
    /// The disk no longer gives what the journal keeps, at this place.
    Changed { place: u64 },
    /// Memory was wanted.
    NoMemory,
}

impl From<JournalFault> for ReadingFault {
    ghost from_gives = { λ fault e. e ≡ reading_fault fault };

    fn from(fault: JournalFault) -> ReadingFault {
        match fault {
            JournalFault::Damaged { place } => ReadingFault::Changed { place },
            _ => ReadingFault::Disk,
        }
    }
}

impl From<AllocError> for ReadingFault {
    ghost from_gives = { λ _ e. e ≡ Memory };

    fn from(_fault: AllocError) -> ReadingFault {
        ReadingFault::NoMemory
    }
}

impl<T: Drop> From<AllocFailed<T>> for ReadingFault {
    ghost from_gives = { λ _ e. e ≡ Memory };

    fn from(_fault: AllocFailed<T>) -> ReadingFault {
        ReadingFault::NoMemory
    }
}

impl From<NoMemory> for ReadingFault {
    ghost from_gives = { λ _ e. e ≡ Memory };

    fn from(_fault: NoMemory) -> ReadingFault {
        ReadingFault::NoMemory
    }
}
