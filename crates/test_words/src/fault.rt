// Why a line of the script has no answer.
use fm_bytes::{NoMemory, ReadFault};
use hex::FromHexError;
use std::alloc::{AllocError, AllocFailed};

/// Why a line of the script has no answer.
#[derive(Clone, Copy, Drop)]
pub enum ScriptFault {
    NoMemory,
    /// The line is no command.
    Words,
    /// Bytes are not what the command takes them for.
    NoSpelling,
}

impl From<AllocError> for ScriptFault {
    fn from(_fault: AllocError) -> ScriptFault {
        ScriptFault::NoMemory
    }
}

impl<T: Drop> From<AllocFailed<T>> for ScriptFault {
    fn from(_fault: AllocFailed<T>) -> ScriptFault {
        ScriptFault::NoMemory
    }
}

impl From<NoMemory> for ScriptFault {
    fn from(_fault: NoMemory) -> ScriptFault {
        ScriptFault::NoMemory
    }
}

impl From<FromHexError> for ScriptFault {
    fn from(fault: FromHexError) -> ScriptFault {
        match fault {
            FromHexError::OutOfMemory => ScriptFault::NoMemory,
            _ => ScriptFault::Words,
        }
    }
}

impl From<ReadFault> for ScriptFault {
    fn from(fault: ReadFault) -> ScriptFault {
        match fault {
            ReadFault::NoSpelling => ScriptFault::NoSpelling,
            ReadFault::NoMemory => ScriptFault::NoMemory,
        }
    }
}
