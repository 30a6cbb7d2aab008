//! Why nothing was read from some bytes.

ghost use Rattle.fm_bytes.specs.declared.fault.ReadFault.TheVariants.{NoMemory as WantsMemory};
ghost use Rattle.std.specs.Prelude.{◌≡◌};

use crate::no_memory;
use std::alloc::{AllocError, AllocFailed};

/// Why nothing was read.
#[derive(Clone, Copy, Debug, PartialEq, Eq)]
pub enum ReadFault {
    /// The bytes begin with no spelling.
    NoSpelling,
    /// Memory was wanted.
    NoMemory,
}

impl From<AllocError> for ReadFault {
    ghost from_gives = { λ _ e. e ≡ WantsMemory };

    fn from(_fault: AllocError) -> ReadFault {
        ReadFault::NoMemory
    }
}

impl<T: Drop> From<AllocFailed<T>> for ReadFault {
    ghost from_gives = { λ _ e. e ≡ WantsMemory };

    fn from(_fault: AllocFailed<T>) -> ReadFault {
        ReadFault::NoMemory
    }
}

impl From<no_memory::NoMemory> for ReadFault {
    ghost from_gives = { λ _ e. e ≡ WantsMemory };

    fn from(_fault: no_memory::NoMemory) -> ReadFault {
        ReadFault::NoMemory
    }
}
