//! Why there is no text of rule files or of compiled files.

use fm_bytes::NoMemory;
use fm_sources::SourceFault;
use std::alloc::{AllocError, AllocFailed};

/// Which limit what a rule file comes to is past: 65,536 events, or 1,048,576 candidate links.
#[derive(Clone, Copy, Debug, Drop, PartialEq, Eq)]
pub enum GraphLimit {
    Nodes,
    Links,
}

/// Why rule files were not compiled.
#[derive(Debug, Drop)]
pub enum CompileFault {
    /// The rule files and the topology were not taken.
    Sources(SourceFault),
    /// What a rule file comes to is past a limit: its number, from 0 on, and which limit.
    Graph { file: u32, limit: GraphLimit },
    /// Memory was wanted and not to be had.
    NoMemory,
}

impl From<SourceFault> for CompileFault {
    ghost use Rattle.std.specs.Prelude.{◌≡◌};
    ghost use Rattle.fm_esc.specs.declared.faults.CompileFault.TheVariants.{Sources};

    ghost from_gives = { λ fault e. e ≡ Sources fault };

    fn from(fault: SourceFault) -> CompileFault {
        CompileFault::Sources(fault)
    }
}

impl From<NoMemory> for CompileFault {
    ghost use Rattle.std.specs.Prelude.{◌≡◌};
    ghost use Rattle.fm_esc.specs.declared.faults.CompileFault.TheVariants as faults;

    ghost from_gives = { λ _ e. e ≡ faults.NoMemory };

    fn from(_: NoMemory) -> CompileFault {
        CompileFault::NoMemory
    }
}

/// Why compiled files were not listed: the source failed; it gave more than 2^40 bytes; or memory
/// was wanted and not to be had.
#[derive(Clone, Copy, Debug, Drop, PartialEq, Eq)]
pub enum InputFault {
    Read,
    Full,
    NoMemory,
}

impl From<NoMemory> for InputFault {
    ghost use Rattle.std.specs.Prelude.{◌≡◌};
    ghost use Rattle.fm_esc.specs.declared.faults.InputFault.TheVariants as faults;

    ghost from_gives = { λ _ e. e ≡ faults.NoMemory };

    fn from(_: NoMemory) -> InputFault {
        InputFault::NoMemory
    }
}

impl From<AllocError> for InputFault {
    ghost use Rattle.std.specs.Prelude.{◌≡◌};
    ghost use Rattle.fm_esc.specs.declared.faults.InputFault.TheVariants as faults;

    ghost from_gives = { λ _ e. e ≡ faults.NoMemory };

    fn from(_: AllocError) -> InputFault {
        InputFault::NoMemory
    }
}

impl<T: Drop> From<AllocFailed<T>> for InputFault {
    ghost use Rattle.std.specs.Prelude.{◌≡◌};
    ghost use Rattle.fm_esc.specs.declared.faults.InputFault.TheVariants as faults;

    ghost from_gives = { λ _ e. e ≡ faults.NoMemory };

    fn from(_: AllocFailed<T>) -> InputFault {
        InputFault::NoMemory
    }
}
