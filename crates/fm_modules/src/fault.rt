//! Why there are no modules.

use fm_bytes::NoMemory;
use std::alloc::{AllocError, AllocFailed};

/// Why a text or a configuration makes nothing: it is refused, or memory was wanted.
#[derive(Clone, Copy, Debug, Drop, PartialEq, Eq)]
pub(crate) enum KeptFault {
    Refused,
    NoMemory,
}

/// Why configurations have no modules.
#[derive(Clone, Copy, Debug, Drop, PartialEq, Eq)]
pub enum ModulesFault {
    /// The configuration of this number is the first of which a text is refused: its topology is
    /// none, or a rule file is none, or has more events or links than a graph.
    Refused { conf: u32 },
    /// Memory was wanted.
    NoMemory,
}

impl From<AllocError> for KeptFault {
    ghost use Rattle.std.specs.Prelude.{◌≡◌};
    ghost use Rattle.fm_modules.specs.declared.fault.KeptFault.TheVariants as faults;

    ghost from_gives = { λ _ e. e ≡ faults.NoMemory };

    fn from(_: AllocError) -> KeptFault {
        KeptFault::NoMemory
    }
}

impl<T: Drop> From<AllocFailed<T>> for KeptFault {
    ghost use Rattle.std.specs.Prelude.{◌≡◌};
    ghost use Rattle.fm_modules.specs.declared.fault.KeptFault.TheVariants as faults;

    ghost from_gives = { λ _ e. e ≡ faults.NoMemory };

    fn from(_: AllocFailed<T>) -> KeptFault {
        KeptFault::NoMemory
    }
}

impl From<NoMemory> for ModulesFault {
    ghost use Rattle.std.specs.Prelude.{◌≡◌};
    ghost use Rattle.fm_modules.specs.declared.fault.ModulesFault.TheVariants as faults;

    ghost from_gives = { λ _ e. e ≡ faults.NoMemory };

    fn from(_: NoMemory) -> ModulesFault {
        ModulesFault::NoMemory
    }
}

impl<T: Drop> From<AllocFailed<T>> for ModulesFault {
    ghost use Rattle.std.specs.Prelude.{◌≡◌};
    ghost use Rattle.fm_modules.specs.declared.fault.ModulesFault.TheVariants as faults;

    ghost from_gives = { λ _ e. e ≡ faults.NoMemory };

    fn from(_: AllocFailed<T>) -> ModulesFault {
        ModulesFault::NoMemory
    }
}
