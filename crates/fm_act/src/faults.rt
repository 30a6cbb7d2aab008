//! Why calls of actuators are refused.

ghost use Rattle.std.specs.Prelude.{◌≡◌};
ghost use Rattle.fm_act.specs.declared.faults.ActFault.TheVariants as fault;
ghost use Rattle.fm_act.specs.declared.faults.ActRefused.TheVariants as refused;

use fm_bytes::NoMemory as WantsMemory;
use std::alloc::{AllocError, AllocFailed};

/// Why a call of an actuator was refused.
#[derive(Clone, Copy, Debug, PartialEq, Eq)]
pub enum ActFault {
    /// The actuator failed, and its count of failures rose.
    Failed,
    /// Memory was wanted and not to be had.
    NoMemory,
}

/// Why actuators do not all hold what is wanted.
#[derive(Clone, Copy, Debug, PartialEq, Eq)]
pub enum ActRefused {
    /// The actuator at this place failed, and none before it did. Those that did not fail hold what
    /// is wanted.
    Act { index: u32 },
    /// Memory was wanted and not to be had.
    NoMemory,
}

impl From<WantsMemory> for ActFault {
    ghost from_gives = { λ _ e. e ≡ fault.NoMemory };

    fn from(_fault: WantsMemory) -> ActFault {
        ActFault::NoMemory
    }
}

impl From<AllocError> for ActFault {
    ghost from_gives = { λ _ e. e ≡ fault.NoMemory };

    fn from(_fault: AllocError) -> ActFault {
        ActFault::NoMemory
    }
}

impl<T: Drop> From<AllocFailed<T>> for ActFault {
    ghost from_gives = { λ _ e. e ≡ fault.NoMemory };

    fn from(_fault: AllocFailed<T>) -> ActFault {
        ActFault::NoMemory
    }
}
