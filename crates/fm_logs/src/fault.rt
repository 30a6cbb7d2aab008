//! Why a call of a store did not do what was asked.

ghost use Rattle.std.specs.Prelude.{◌≡◌};
ghost use Rattle.fm_logs.specs.declared.fault.StoreFault.TheVariants.{NoMemory as WantsMemory};
ghost use Rattle.fm_logs.specs.declared.fault.StoreFault.TheVariants.{Disk as DiskFailed};

use crate::disks::DiskName;
use fm_bytes::NoMemory;
use fm_journal::FullKind;
use fm_outer::Failed;
use std::alloc::{AllocError, AllocFailed};

/// Why a call of a store did not do what was asked.
#[derive(Clone, Copy, Debug, Drop, PartialEq, Eq)]
pub enum StoreFault {
    /// A disk failed.
    Disk,
    /// A limit was reached.
    Full(FullKind),
    /// An earlier writing call met a failure of this disk, whose count of failures was this then.
    Closed { disk: DiskName, faults: u64 },
    /// The contents read as no book: at this place of this disk.
    Damaged { disk: DiskName, place: u64 },
    /// There is a store already.
    Exists,
    /// Memory was wanted.
    NoMemory,
}

impl From<AllocError> for StoreFault {
    ghost from_gives = { λ _ e. e ≡ WantsMemory };

    fn from(_fault: AllocError) -> StoreFault {
        StoreFault::NoMemory
    }
}

impl<T: Drop> From<AllocFailed<T>> for StoreFault {
    ghost from_gives = { λ _ e. e ≡ WantsMemory };

    fn from(_fault: AllocFailed<T>) -> StoreFault {
        StoreFault::NoMemory
    }
}

impl From<NoMemory> for StoreFault {
    ghost from_gives = { λ _ e. e ≡ WantsMemory };

    fn from(_fault: NoMemory) -> StoreFault {
        StoreFault::NoMemory
    }
}

impl From<Failed> for StoreFault {
    ghost from_gives = { λ _ e. e ≡ DiskFailed };

    fn from(_fault: Failed) -> StoreFault {
        StoreFault::Disk
    }
}
