//! Words about cases.

ghost use Rattle.std.specs.Prelude.{◌≡◌, IfOk};

use crate::broken::BrokenLinks;
use crate::case_name::CaseName;
use crate::event_item::EventNames;
use crate::suspect::Suspects;
use fm_bytes::{Copies, Items, NoMemory};
use std::alloc::Global;

/// What a word says of its case.
#[derive(Clone, Copy, PartialEq, Eq, Debug)]
pub enum ListKind {
    /// It is solved, and these are the suspects.
    Suspect,
    /// No root explains it.
    Undiagnosable,
    /// Only upsets explain it.
    Upset,
    /// Some suspects have a new mark, and some are still present.
    Updated,
    /// No suspect is present any more.
    Repaired,
}

impl ListKind {
    /// The same kind.
    pub fn copy(&self) -> Result<ListKind, NoMemory>
        ensures { IfOk result (λ copied. copied ≡ self.now) }
    {
        Ok(*self)
    }
}

/// One word about a case: what was observed, and who is suspected.
///
/// For `Upset` the suspects are the upsets, with certainty 0, no retire and the mark `Present`. For
/// `Undiagnosable` there are none.
#[derive(Drop)]
pub struct ListEvent {
    pub kind: ListKind,
    pub case: CaseName,
    /// The module's time when it was said, in nanoseconds below 2^62.
    pub moment: u64,
    /// The number of the configuration under which the case was decided.
    pub conf: u32,
    pub observed: EventNames,
    pub suspects: Suspects,
    /// The links that the reports of the case break, by instance, then by effect.
    pub broken: BrokenLinks,
}

/// A list of words about cases, which contracts see as a list.
pub type ListEvents = Items<ListEvent>;

impl Copies for ListEvent {
    fn copy(&self, alloc: Global) -> Result<ListEvent, NoMemory> {
        Ok(ListEvent {
            kind: self.kind,
            case: self.case,
            moment: self.moment,
            conf: self.conf,
            observed: self.observed.copy(alloc)?,
            suspects: self.suspects.copy(alloc)?,
            broken: self.broken.copy(alloc)?,
        })
    }
}
