//! Why a rule file isn't taken.
ghost use Rattle.std.specs.Prelude.{◌≡◌};
ghost use Rattle.ev_check.specs.declared.kinds.CheckFault.TheVariants.{NoMemory as WantsMemory};

use ev_words::CheckKind;

/// Why a rule file isn't taken.
#[derive(Debug, Drop)]
pub enum CheckFault {
    /// The first fault of the file, with the place of its statement's first byte.
    At { place: u32, kind: CheckKind },
    /// Memory ran out.
    NoMemory,
}

impl From<fm_bytes::NoMemory> for CheckFault {
    ghost from_gives = { λ _ e. e ≡ WantsMemory };

    fn from(_error: fm_bytes::NoMemory) -> CheckFault {
        CheckFault::NoMemory
    }
}
