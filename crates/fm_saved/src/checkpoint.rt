//! What a store knows at its base.

ghost use Rattle.std.specs.Prelude.{◌≡◌, IfOk};

use crate::saved_bytes::SavedBytes;
use fm_bytes::{Copies, Items, NoMemory};
use std::alloc::Global;

/// The saved states of modules, in the order of their numbers.
pub type SavedStates = Items<SavedBytes>;

/// What is known at a base: whether the second of two error journals is the active one, the number
/// of entries before the base, the greatest moment of these, the number of the configuration in
/// force there, and the modules' states.
#[derive(Drop)]
pub struct Checkpoint {
    pub second: bool,
    pub base: u64,
    /// In nanoseconds, below 2^62.
    pub moment: u64,
    pub conf: u32,
    pub states: SavedStates,
}

impl Copies for Checkpoint {
    fn copy(&self, alloc: Global) -> Result<Checkpoint, NoMemory> {
        Ok(Checkpoint {
            second: self.second,
            base: self.base,
            moment: self.moment,
            conf: self.conf,
            states: self.states.copy(alloc)?,
        })
    }
}
