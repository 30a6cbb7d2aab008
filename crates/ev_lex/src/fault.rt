//! Why a text has no tokens.

use std::alloc::{AllocError, AllocFailed};

/// Why a text has no tokens: at the byte `place` nothing begins, or memory ran out.
#[derive(Clone, Copy, Debug, PartialEq, Eq)]
pub enum LexFault {
    At { place: u32 },
    NoMemory,
}

impl From<AllocError> for LexFault {
    ghost use Rattle.std.specs.Prelude.{◌≡◌};
    ghost use Rattle.ev_lex.specs.declared.fault.LexFault.TheVariants.{NoMemory};

    ghost from_gives = { λ _ e. e ≡ NoMemory };

    fn from(_error: AllocError) -> Self {
        LexFault::NoMemory
    }
}

impl<T: Drop> From<AllocFailed<T>> for LexFault {
    ghost use Rattle.std.specs.Prelude.{◌≡◌};
    ghost use Rattle.ev_lex.specs.declared.fault.LexFault.TheVariants.{NoMemory};

    ghost from_gives = { λ _ e. e ≡ NoMemory };

    fn from(_error: AllocFailed<T>) -> Self {
        LexFault::NoMemory
    }
}
