//! Suspects of a case, and what became of them.

ghost use Rattle.std.specs.Prelude.{◌≡◌, IfOk};

use fm_bytes::{Copies, Items, NoMemory};
use fm_name::{Class, Fmri};
use std::alloc::Global;

/// What became of a suspect since it was named.
#[derive(Clone, Copy, PartialEq, Eq, Debug)]
pub enum Mark {
    /// It still counts as faulty.
    Present,
    /// Its resource was repaired.
    Repaired,
    /// Its resource, or one above it, was replaced.
    Replaced,
    /// Its case was acquitted.
    Acquitted,
}

impl Mark {
    /// The same mark.
    pub fn copy(&self) -> Result<Mark, NoMemory>
        ensures { IfOk result (λ copied. copied ≡ self.now) }
    {
        Ok(*self)
    }
}

/// A fault or defect that may have caused a case's reports, or the upset that did.
#[derive(Drop)]
pub struct Suspect {
    pub class: Class,
    pub path: Fmri,
    /// In percent.
    pub certainty: u8,
    /// Whether the resource is to be retired as long as the suspect is present.
    pub retire: bool,
    pub mark: Mark,
}

/// A list of suspects, which contracts see as a list.
pub type Suspects = Items<Suspect>;

impl Copies for Suspect {
    fn copy(&self, _alloc: Global) -> Result<Suspect, NoMemory> {
        Ok(Suspect {
            class: self.class.copy()?,
            path: self.path.copy()?,
            certainty: self.certainty,
            retire: self.retire,
            mark: self.mark,
        })
    }
}
