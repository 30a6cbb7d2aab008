// Why no slot was found.
ghost use Rattle.std.specs.Prelude.{◌≡◌};
ghost use Rattle.fm_slots.specs.declared.fault.SlotFault.TheVariants.{Disk, NoMemory};

use fm_outer::Failed;
use std::alloc::{AllocError, AllocFailed};

/// Why no slot was found.
#[derive(Clone, Copy, Debug, Drop, PartialEq, Eq)]
pub enum SlotFault {
    /// A disk failed.
    Disk,
    /// A slot has an open gate with no slot behind it: the first one, or the second. The place is
    /// 0.
    Damaged { second: bool, place: u64 },
    /// There was no memory for the payload.
    NoMemory,
}

impl From<Failed> for SlotFault {
    ghost from_gives = { λ _ e. e ≡ Disk };

    fn from(_: Failed) -> Self {
        SlotFault::Disk
    }
}

impl From<AllocError> for SlotFault {
    ghost from_gives = { λ _ e. e ≡ NoMemory };

    fn from(_: AllocError) -> Self {
        SlotFault::NoMemory
    }
}

impl<T: Drop> From<AllocFailed<T>> for SlotFault {
    ghost from_gives = { λ _ e. e ≡ NoMemory };

    fn from(_: AllocFailed<T>) -> Self {
        SlotFault::NoMemory
    }
}
