//! Why a pair is refused.

ghost use Rattle.fm_nv.specs.declared.fault.NvFault.TheVariants.{NoMemory};
ghost use Rattle.std.specs.Prelude.{◌≡◌};

use std::alloc::{AllocError, AllocFailed};

/// Why a list refuses a pair.
#[derive(Clone, Copy, Debug, PartialEq, Eq)]
pub enum NvFault {
    /// The name has no byte, or more than 255.
    BadName,
    /// The name is there.
    Twice,
    /// The list would be deeper than 8.
    TooDeep,
    /// The list is full, or the value is beyond its limits.
    TooMany,
    /// Memory was wanted.
    NoMemory,
}

impl From<AllocError> for NvFault {
    ghost from_gives = { λ _ e. e ≡ NoMemory };

    fn from(_fault: AllocError) -> NvFault {
        NvFault::NoMemory
    }
}

impl<T: Drop> From<AllocFailed<T>> for NvFault {
    ghost from_gives = { λ _ e. e ≡ NoMemory };

    fn from(_fault: AllocFailed<T>) -> NvFault {
        NvFault::NoMemory
    }
}

impl From<fm_bytes::NoMemory> for NvFault {
    ghost from_gives = { λ _ e. e ≡ NoMemory };

    fn from(_fault: fm_bytes::NoMemory) -> NvFault {
        NvFault::NoMemory
    }
}
