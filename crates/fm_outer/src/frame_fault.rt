// Why a payload is no frame.
ghost use Rattle.std.specs.Prelude.{◌≡◌};
ghost use Rattle.fm_outer.specs.declared.frame_fault.FrameFault.TheVariants.{NoMemory};

use std::alloc::{AllocError, AllocFailed};

/// Why a payload is no frame, for a journal or for a slot.
#[derive(Clone, Copy, Debug, Drop, PartialEq, Eq)]
pub enum FrameFault {
    /// It has more than 2^28 bytes.
    TooLong,
    /// There was no memory for it.
    NoMemory,
}

impl From<AllocError> for FrameFault {
    ghost from_gives = { λ _ e. e ≡ NoMemory };

    fn from(_: AllocError) -> Self {
        FrameFault::NoMemory
    }
}

impl<T: Drop> From<AllocFailed<T>> for FrameFault {
    ghost from_gives = { λ _ e. e ≡ NoMemory };

    fn from(_: AllocFailed<T>) -> Self {
        FrameFault::NoMemory
    }
}
