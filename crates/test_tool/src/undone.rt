// Why a line of the script is not done.
use fm_outer::NoMemory;
use std::alloc::{AllocError, AllocFailed};

/// Why a line of the script is not done.
#[derive(Clone, Copy, Debug, PartialEq, Eq)]
pub enum Undone {
    /// It is no line of the script's language, or names what isn't there.
    Unread,
    /// Memory was wanted and not to be had.
    NoMemory,
}

impl From<NoMemory> for Undone {
    fn from(_fault: NoMemory) -> Undone {
        Undone::NoMemory
    }
}

impl From<AllocError> for Undone {
    fn from(_fault: AllocError) -> Undone {
        Undone::NoMemory
    }
}

impl<T: Drop> From<AllocFailed<T>> for Undone {
    fn from(_fault: AllocFailed<T>) -> Undone {
        Undone::NoMemory
    }
}
