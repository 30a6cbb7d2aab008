//! Why a line gives no entry.

ghost use Rattle.std.specs.Prelude.{◌≡◌};

use fm_bytes::NoMemory;
use std::alloc::{AllocError, AllocFailed};

/// Why a line gives no entry. Of the faults that hold of a line the first counts, `TooLong` before
/// all others and the others in the order of their codes.
#[derive(Clone, Copy, Debug, PartialEq, Eq)]
pub enum LineFault {
    /// The JSON form can't be read as JSON.
    Json,
    /// The line is none of the forms, by its first word and the number of its words, or by its
    /// keys.
    Shape,
    /// The class is no text in the grammar of classes, or not of category `ereport`.
    Class,
    /// A path is no text in the grammar of paths.
    Path,
    /// The moment is no integer below 2^62.
    Time,
    /// The case name can't be read, or the payload is no object of values that are allowed.
    Value,
    /// The line has more than 65,536 bytes, a final carriage return among them.
    TooLong,
    /// Memory was wanted and not to be had. This says nothing of the line.
    NoMemory,
}

impl LineFault {
    ghost use Rattle.fm_line.specs.Faults.{code_of};

    /// The number by which a refusal names the fault, from 1 to 7. Want of memory has none.
    pub fn code(&self) -> Option<u8>
        ensures { result ≡ code_of self.now }
    {
        match self {
            LineFault::Json => Some(1),
            LineFault::Shape => Some(2),
            LineFault::Class => Some(3),
            LineFault::Path => Some(4),
            LineFault::Time => Some(5),
            LineFault::Value => Some(6),
            LineFault::TooLong => Some(7),
            LineFault::NoMemory => None,
        }
    }
}

impl From<NoMemory> for LineFault {
    ghost use Rattle.fm_line.specs.declared.fault.LineFault.TheVariants as fault;

    ghost from_gives = { λ _ f. f ≡ fault.NoMemory };

    fn from(_want: NoMemory) -> LineFault {
        LineFault::NoMemory
    }
}

impl From<AllocError> for LineFault {
    ghost use Rattle.fm_line.specs.declared.fault.LineFault.TheVariants as fault;

    ghost from_gives = { λ _ f. f ≡ fault.NoMemory };

    fn from(_want: AllocError) -> LineFault {
        LineFault::NoMemory
    }
}

impl<T: Drop> From<AllocFailed<T>> for LineFault {
    ghost use Rattle.fm_line.specs.declared.fault.LineFault.TheVariants as fault;

    ghost from_gives = { λ _ f. f ≡ fault.NoMemory };

    fn from(_want: AllocFailed<T>) -> LineFault {
        LineFault::NoMemory
    }
}
