//! Why a configuration has no text.

use fm_bytes::NoMemory;
use std::alloc::AllocFailed;

/// Why a configuration has no text.
#[derive(Clone, Copy, Debug, Drop, PartialEq, Eq)]
pub enum ConfFault {
    /// Its topology is none, or a rule file is none, or has more events or links than a graph.
    Refused,
    /// Memory was wanted.
    NoMemory,
}

impl From<NoMemory> for ConfFault {
    ghost use Rattle.std.specs.Prelude.{◌≡◌};
    ghost use Rattle.fm_config.specs.declared.fault.ConfFault.TheVariants as faults;

    ghost from_gives = { λ _ e. e ≡ faults.NoMemory };

    fn from(_: NoMemory) -> ConfFault {
        ConfFault::NoMemory
    }
}

impl<T: Drop> From<AllocFailed<T>> for ConfFault {
    ghost use Rattle.std.specs.Prelude.{◌≡◌};
    ghost use Rattle.fm_config.specs.declared.fault.ConfFault.TheVariants as faults;

    ghost from_gives = { λ _ e. e ≡ faults.NoMemory };

    fn from(_: AllocFailed<T>) -> ConfFault {
        ConfFault::NoMemory
    }
}
