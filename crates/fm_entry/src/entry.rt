//! Entries.

ghost use Rattle.std.specs.Prelude.{◌≡◌};
ghost use Rattle.fm_entry.specs.Entries.{moment_of};

use crate::case_name::CaseName;
use fm_bytes::{Copies, NoMemory};
use fm_name::{Class, Fmri};
use fm_nv::Nv;
use std::alloc::Global;

/// One thing that happened, at a moment in nanoseconds below 2^62.
#[derive(Drop)]
pub enum Entry {
    /// A report of a detector: an event of category `ereport`, and what it carries.
    Report {
        class: Class,
        path: Fmri,
        moment: u64,
        payload: Nv,
    },
    /// Time passed, and nothing else.
    Tick {
        moment: u64,
    },
    /// The resource at the path was repaired.
    Repaired {
        path: Fmri,
        moment: u64,
    },
    /// The resource at the path, and all below it, was replaced.
    Replaced {
        path: Fmri,
        moment: u64,
    },
    /// The suspects of a solved case are acquitted.
    Acquit {
        case: CaseName,
        moment: u64,
    },
    /// The configuration of this number is in force from here on.
    Reload {
        conf: u32,
        moment: u64,
    },
}

impl Entry {
    /// The moment, in nanoseconds.
    pub fn moment(&self) -> u64
        ensures { result ≡ moment_of self.now }
    {
        match self {
            Entry::Report { moment, .. } => *moment,
            Entry::Tick { moment } => *moment,
            Entry::Repaired { moment, .. } => *moment,
            Entry::Replaced { moment, .. } => *moment,
            Entry::Acquit { moment, .. } => *moment,
            Entry::Reload { moment, .. } => *moment,
        }
    }
}

impl Copies for Entry {
    fn copy(&self, alloc: Global) -> Result<Entry, NoMemory> {
        match self {
            Entry::Report {
                class,
                path,
                moment,
                payload,
            } => Ok(Entry::Report {
                class: class.copy()?,
                path: path.copy()?,
                moment: *moment,
                payload: payload.copy(alloc)?,
            }),
            Entry::Tick { moment } => Ok(Entry::Tick { moment: *moment }),
            Entry::Repaired { path, moment } => Ok(Entry::Repaired {
                path: path.copy()?,
                moment: *moment,
            }),
            Entry::Replaced { path, moment } => Ok(Entry::Replaced {
                path: path.copy()?,
                moment: *moment,
            }),
            Entry::Acquit { case, moment } => Ok(Entry::Acquit {
                case: *case,
                moment: *moment,
            }),
            Entry::Reload { conf, moment } => Ok(Entry::Reload {
                conf: *conf,
                moment: *moment,
            }),
        }
    }
}
