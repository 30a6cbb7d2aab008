// Why a command has no answer.
use fm_outer::NoMemory;
use hex::FromHexError;
use std::alloc::AllocError;

/// Why a command has no answer.
#[derive(Clone, Copy, Drop)]
pub enum ScriptFault {
    NoMemory,
    /// The line is no command.
    Words,
}

impl From<AllocError> for ScriptFault {
    fn from(_fault: AllocError) -> ScriptFault {
        ScriptFault::NoMemory
    }
}

impl From<NoMemory> for ScriptFault {
    fn from(_fault: NoMemory) -> ScriptFault {
        ScriptFault::NoMemory
    }
}

impl From<FromHexError> for ScriptFault {
    fn from(fault: FromHexError) -> ScriptFault {
        match fault {
            FromHexError::OutOfMemory => ScriptFault::NoMemory,
            _ => ScriptFault::Words,
        }
    }
}
